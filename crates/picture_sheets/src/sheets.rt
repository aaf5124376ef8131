// The sheet.

ghost use Rattle.std.specs.Prelude.{◌≡◌, IfOk};
ghost use Rattle.picture_sheets.specs.Sheets.{alone, blank};

use heap_pictures::Picture;
use std::alloc::Global;
use std::marker::Model;

/// What is drawn on one sheet: what stays, what came and what went. The dead part and the candidates stand with what
/// stays.
#[derive(Drop)]
pub struct Sheet {
    pub(crate) stay: Picture,
    pub(crate) came: Picture,
    pub(crate) went: Picture,
}

impl Model for Sheet {
    ghost use Rattle.picture_sheets.specs.Sheets.{Sheet as Drawn};

    ghost Value = { Drawn };

    ghost view = { λ s. record { stay = s.stay; came = s.came; went = s.went } };
}

impl Sheet {
    /// What stays.
    pub fn stay(&self) -> &Picture
        ensures { result.now ≡ self.now.stay }
    {
        &self.stay
    }

    /// What came.
    pub fn came(&self) -> &Picture
        ensures { result.now ≡ self.now.came }
    {
        &self.came
    }

    /// What went.
    pub fn went(&self) -> &Picture
        ensures { result.now ≡ self.now.went }
    {
        &self.went
    }
}

// Nothing is drawn.
fn blank(alloc: Global) -> Picture
    ensures { result ≡ blank }
{
    Picture::of(
        Vec::new(alloc),
        Vec::new(alloc),
        Vec::new(alloc),
        Vec::new(alloc),
        Vec::new(alloc),
    )
}

/// The sheet of one picture.
pub fn alone(alloc: Global, picture: Picture) -> Sheet
    ensures { result ≡ alone picture }
{
    Sheet {
        stay: picture,
        came: blank(alloc),
        went: blank(alloc),
    }
}
