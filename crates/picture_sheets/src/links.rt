// The ends of arrows.

ghost use Rattle.std.specs.Prelude.{◌≡◌, ◌++◌, IfOk, OnOk};
ghost use Rattle.picture_sheets.specs.Around.{arrows_on, ends};

use crate::sheets::Sheet;
use heap_pictures::{Arrow, Spot};
use std::alloc::{AllocError, Global};

/// Where an arrow begins and ends.
pub(crate) fn ends(arrow: Arrow) -> (Spot, Spot)
    ensures { result ≡ ends arrow }
{
    match arrow {
        Arrow::Field { from, to, .. } => (from, to),
        Arrow::Held { m, p, .. } => (Spot::Object(m), Spot::Peer(p)),
        Arrow::Faded { m, h, .. } => (Spot::Object(m), Spot::Handle(h)),
        Arrow::Names { from, to } => (from, to),
        Arrow::Grips { h, p, .. } => (Spot::Handle(h), Spot::Peer(p)),
        Arrow::Stub { h } => (Spot::Handle(h), Spot::Handle(h)),
        Arrow::Refers { from, to } => (from, to),
    }
}

/// All arrows of a sheet.
pub(crate) fn arrows_on(alloc: Global, sheet: &Sheet) -> Result<Vec<Arrow>, AllocError>
    ensures { IfOk result (λ v. v.items ≡ arrows_on sheet.now) }
{
    let mut arrows = Vec::new(alloc);
    arrows.extend_from_slice(sheet.stay.arrows())?;
    arrows.extend_from_slice(sheet.came.arrows())?;
    arrows.extend_from_slice(sheet.went.arrows())?;
    Ok(arrows)
}
