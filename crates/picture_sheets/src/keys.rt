// Keys of ends of arrows and of arrows, and sets of them.

ghost use Rattle.std.specs.Prelude.{◌≡◌, ℕ, IfOk, OnOk, map, not};
ghost use Rattle.std.specs.List.{list_any};
ghost use Rattle.heap_pictures.specs.Flags.{is_in};
ghost use Rattle.heap_pictures.specs.declared.pictures.Arrow.{Arrow};
ghost use Rattle.heap_pictures.specs.declared.pictures.Spot.TheVariants.{Object, Peer};
ghost use Rattle.picture_sheets.specs.Keys.{Puts, arrow_key, has_key, has_spot, spot_key};
ghost use Rattle.picture_sheets.specs.Same.{same_arrow, slots_number, style_number};

use heap_pictures::{Arrow, ObjectNode, PeerNode, Slots, Spot, Style};
use std::alloc::{AllocError, Global};
use std::collections::BTreeSet;

/// The key of an end of arrows: its kind, and its numbers.
pub(crate) type SpotKey = (u32, u32, u32);

/// The key of an arrow: its kind, and what it has.
pub(crate) type ArrowKey = (u32, SpotKey, usize, SpotKey);

// A number for each list of slots.
fn slots_number(slots: Slots) -> u32
    ensures { result ≡ slots_number slots }
{
    match slots {
        Slots::ManagedVars => 0,
        Slots::ManagedStatics => 1,
        Slots::Pins => 2,
        Slots::PeerVars => 3,
        Slots::PeerStatics => 4,
        Slots::Names => 5,
    }
}

// A number for each style.
fn style_number(style: Style) -> u32
    ensures { result ≡ style_number style }
{
    match style {
        Style::Full => 0,
        Style::Weak => 1,
        Style::Cleared => 2,
        Style::Gone => 3,
    }
}

/// The key of an end of arrows.
pub(crate) fn spot_key(spot: Spot) -> SpotKey
    ensures { result ≡ spot_key spot }
{
    match spot {
        Spot::Object(m) => (0, 0, m),
        Spot::Peer(p) => (1, 0, p),
        Spot::Handle(h) => (2, 0, h),
        Spot::Slot(s, i) => (3, slots_number(s), i),
        Spot::Temporary(i) => (4, 0, i),
    }
}

// The key of an arrow.
fn arrow_key(arrow: Arrow) -> ArrowKey
    ensures { result ≡ arrow_key arrow }
{
    match arrow {
        Arrow::Field { from, i, to } => (0, spot_key(from), i, spot_key(to)),
        Arrow::Held { m, h, p, style } => (1, (0, 0, m), h as usize, (0, p, style_number(style))),
        Arrow::Faded { m, h, style } => (2, (0, 0, m), h as usize, (0, 0, style_number(style))),
        Arrow::Names { from, to } => (3, spot_key(from), 0, spot_key(to)),
        Arrow::Grips { h, p, style } => (4, (0, 0, 0), h as usize, (0, p, style_number(style))),
        Arrow::Stub { h } => (5, (0, 0, 0), 0, (0, 0, h)),
        Arrow::Refers { from, to } => (6, spot_key(from), 0, spot_key(to)),
    }
}

/// Whether a set has an end of arrows.
pub(crate) fn has_spot(spots: &BTreeSet<SpotKey>, spot: Spot) -> bool
    ensures { result ≡ has_spot spots.now spot }
{
    spots.contains(&spot_key(spot))
}

/// Puts an end of arrows into a set, and answers whether it is new there. Answers `AllocError` where there is no
/// memory.
pub(crate) fn put_spot(spots: &mut BTreeSet<SpotKey>, spot: Spot) -> Result<bool, AllocError>
    ensures added { IfOk result (λ added. added ≡ not (has_spot spots.old spot)) }
    ensures puts { OnOk result (Puts spot spots.old spots.new) }
{
    Ok(spots.insert(spot_key(spot))?)
}

/// The set of the objects of these nodes. Answers `AllocError` where there is no memory.
pub(crate) fn object_set(
    alloc: Global,
    nodes: &[ObjectNode],
) -> Result<BTreeSet<SpotKey>, AllocError>
    ensures { IfOk result (λ s. (m : ℕ) → has_spot s (Object m) ≡ is_in (map (λ n. n.m) nodes.now) m) }
{
    let mut set = BTreeSet::new(alloc);
    for node in nodes {
        put_spot(&mut set, Spot::Object(node.m))?;
    }
    Ok(set)
}

/// And of the peers of these.
pub(crate) fn peer_set(alloc: Global, nodes: &[PeerNode]) -> Result<BTreeSet<SpotKey>, AllocError>
    ensures { IfOk result (λ s. (p : ℕ) → has_spot s (Peer p) ≡ is_in (map (λ n. n.p) nodes.now) p) }
{
    let mut set = BTreeSet::new(alloc);
    for node in nodes {
        put_spot(&mut set, Spot::Peer(node.p))?;
    }
    Ok(set)
}

/// Whether a set has an arrow.
pub(crate) fn has_arrow(arrows: &BTreeSet<ArrowKey>, arrow: Arrow) -> bool
    ensures { result ≡ has_key arrows.now arrow }
{
    arrows.contains(&arrow_key(arrow))
}

/// The set of these arrows. Answers `AllocError` where there is no memory.
pub(crate) fn arrow_set(alloc: Global, arrows: &[Arrow]) -> Result<BTreeSet<ArrowKey>, AllocError>
    ensures { IfOk result (λ s. (a : Arrow) → has_key s a ≡ list_any (same_arrow a) arrows.now) }
{
    let mut set = BTreeSet::new(alloc);
    for arrow in arrows {
        set.insert(arrow_key(*arrow))?;
    }
    Ok(set)
}
