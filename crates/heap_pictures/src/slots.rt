// Arrows from slots.

ghost use Rattle.std.specs.Prelude.{◌≡◌, ◌++◌, ◌≤◌, OnOk, length};
ghost use Rattle.heap_pictures.specs.Drawing.{is_tabled, is_there, slot_arrow, slot_arrows, target_of};

use crate::pictures::{Arrow, Slots, Spot};
use joint_replay::JointState;
use std::alloc::AllocError;

// What a slot of that list holds, by its number.
fn target_of(slots: Slots, x: u32) -> Spot
    ensures { result ≡ target_of slots x }
{
    match slots {
        Slots::ManagedVars | Slots::ManagedStatics | Slots::Pins => Spot::Object(x),
        Slots::PeerVars | Slots::PeerStatics => Spot::Peer(x),
        Slots::Names => Spot::Handle(x),
    }
}

/// Whether handle `h` is one that isn't removed.
pub(crate) fn is_tabled(joint: &JointState, h: u32) -> bool
    ensures { result ≡ is_tabled joint.now h }
{
    match joint.is_removed(h) {
        None => false,
        Some(gone) => !gone,
    }
}

/// Whether that is there to be drawn: an unfreed object or peer, or a handle that isn't removed.
pub(crate) fn is_there(joint: &JointState, spot: Spot) -> bool
    ensures { result ≡ is_there joint.now spot }
{
    match spot {
        Spot::Object(m) => joint.objects().is_live(m),
        Spot::Peer(p) => joint.peers().is_live(p),
        Spot::Handle(h) => is_tabled(joint, h),
        Spot::Slot(_, _) | Spot::Temporary(_) => true,
    }
}

// The arrow of one slot.
fn push_slot(
    joint: &JointState,
    slots: Slots,
    i: u32,
    held: Option<u32>,
    arrows: &mut Vec<Arrow>,
) -> Result<(), AllocError>
    ensures { OnOk result (arrows.new.items ≡ arrows.old.items ++ slot_arrow joint.now slots i held) }
{
    if let Some(x) = held {
        let to = target_of(slots, x);
        if is_there(joint, to) {
            arrows.push(Arrow::Names {
                from: Spot::Slot(slots, i),
                to,
            })?;
        }
    }
    Ok(())
}

/// The arrows of a list of slots.
pub(crate) fn push_slots(
    joint: &JointState,
    slots: Slots,
    held: &[Option<u32>],
    arrows: &mut Vec<Arrow>,
) -> Result<(), AllocError>
    requires { length held.now ≤ 1024 }
    ensures { OnOk result (arrows.new.items ≡ arrows.old.items ++ slot_arrows joint.now slots held.now) }
{
    for i in 0..held.len() {
        push_slot(joint, slots, i as u32, held[i], arrows)?;
    }
    Ok(())
}
