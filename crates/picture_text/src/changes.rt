// What stays, came and went.

ghost use Rattle.std.specs.Prelude.{◌≡◌, ◌++◌, OnOk};
ghost use Rattle.picture_text.specs.Texts.{change_text};

use crate::pieces::put;
use std::alloc::AllocError;

/// Whether what is drawn stays, came or went.
#[derive(Clone, Copy, PartialEq, Eq, Debug)]
pub enum Change {
    Stays,
    Came,
    Went,
}

// How what came or went is drawn.
fn change_word(change: Change) -> &'static str
    ensures { result.now ≡ change_text change }
{
    match change {
        Change::Stays => "",
        Change::Came => ",color=\"#009e73\",fontcolor=\"#009e73\"",
        Change::Went => ",color=\"#d55e00\",fontcolor=\"#d55e00\",style=dotted",
    }
}

/// The words for it.
pub(crate) fn put_change(change: Change, text: &mut Vec<u8>) -> Result<(), AllocError>
    ensures { OnOk result (text.new.items ≡ text.old.items ++ change_text change) }
{
    put(change_word(change).as_bytes(), text)
}
