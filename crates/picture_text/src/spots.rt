// The names of what arrows begin and end at.

ghost use Rattle.std.specs.Prelude.{◌≡◌, ◌++◌, OnOk, codes, decimal};
ghost use Rattle.picture_text.specs.Texts.{kind_word, slot_name, sort_word, spot_name, spot_text, var_name};

use crate::pieces::{put, put_byte, put_named, put_number};
use heap_pictures::{Slots, Spot};
use joint_machine::{Kind, Sort};
use std::alloc::AllocError;

// A thread's variable, by its place among all.
fn put_var(letter: u8, i: u32, text: &mut Vec<u8>) -> Result<(), AllocError>
    ensures { OnOk result (text.new.items ≡ text.old.items ++ var_name letter i) }
{
    put_named(letter, i / 8, text)?;
    put_byte(b' ', text)?;
    put_byte(b'a' + (i % 8) as u8, text)?;
    Ok(())
}

// The pin of a thread.
fn put_pin(i: u32, text: &mut Vec<u8>) -> Result<(), AllocError>
    ensures { OnOk result (text.new.items ≡ text.old.items ++ (codes "pin m" ++ decimal i)) }
{
    put(b"pin m", text)?;
    put_number(i as u64, text)?;
    Ok(())
}

// A slot.
fn put_slot(slots: Slots, i: u32, text: &mut Vec<u8>) -> Result<(), AllocError>
    ensures { OnOk result (text.new.items ≡ text.old.items ++ slot_name slots i) }
{
    match slots {
        Slots::ManagedVars => put_var(b'm', i, text),
        Slots::ManagedStatics => put_named(b'g', i, text),
        Slots::Pins => put_pin(i, text),
        Slots::PeerVars => put_var(b'p', i, text),
        Slots::PeerStatics => put_named(b's', i, text),
        Slots::Names => put_named(b'G', i, text),
    }
}

// The name itself.
fn put_name(spot: Spot, text: &mut Vec<u8>) -> Result<(), AllocError>
    ensures { OnOk result (text.new.items ≡ text.old.items ++ spot_name spot) }
{
    match spot {
        Spot::Object(m) => put_named(b'm', m, text),
        Spot::Peer(p) => put_named(b'p', p, text),
        Spot::Handle(h) => put_named(b'h', h, text),
        Spot::Slot(slots, i) => put_slot(slots, i, text),
        Spot::Temporary(i) => put_named(b't', i, text),
    }
}

/// A spot's name, between quotes.
pub(crate) fn put_spot(spot: Spot, text: &mut Vec<u8>) -> Result<(), AllocError>
    ensures { OnOk result (text.new.items ≡ text.old.items ++ spot_text spot) }
{
    put_byte(b'"', text)?;
    put_name(spot, text)?;
    put_byte(b'"', text)?;
    Ok(())
}

/// The word for a kind.
pub(crate) fn kind_word(kind: Option<Kind>) -> &'static str
    ensures { result.now ≡ kind_word kind }
{
    match kind {
        None => "",
        Some(Kind::Plain) => "plain",
        Some(Kind::Leaf) => "leaf",
        Some(Kind::Bridge) => "bridge",
        Some(Kind::LeafBridge) => "leafbridge",
    }
}

/// The word for a sort.
pub(crate) fn sort_word(sort: Sort) -> &'static str
    ensures { result.now ≡ sort_word sort }
{
    match sort {
        Sort::User => "user",
        Sort::Framework => "framework",
    }
}
