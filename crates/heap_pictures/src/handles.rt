// Arrows of handles.

ghost use Rattle.std.specs.Prelude.{◌≡◌, ◌++◌, ◌+◌, ℕ, List, Some, OnOk, IfOk, length};
ghost use Rattle.joint_machine.specs.Heaps.{numbered_at};
ghost use Rattle.joint_replay.specs.Plain.{issued_as};
ghost use Rattle.heap_pictures.specs.Flags.{AreFlags, flag_at, is_in};
ghost use Rattle.heap_pictures.specs.Drawing.{box_arrow, box_of, boxes, faded_style, grip_style, handle_list};
ghost use Rattle.heap_pictures.specs.Drawing.{held_arrow, held_style, is_box, owned, tie, ties};

use crate::flags::{flags_of, has_flag};
use crate::pictures::{Arrow, Style};
use crate::slots::is_tabled;
use heap_views::HeapView;
use joint_replay::{Handle, IssuedHold, IssuedStrength, JointState};
use std::alloc::{AllocError, Global};

// How a handle that a managed object holds is drawn, where its peer isn't freed.
fn held_style(view: &HeapView, weak: &[bool], h: u32) -> Style
    requires { flag_at weak.now h ≡ is_in view.now.weakened h }
    ensures { result ≡ held_style view.now h }
{
    if !is_tabled(view.joint(), h) {
        return Style::Gone;
    }
    if has_flag(weak, h) {
        Style::Weak
    } else {
        Style::Full
    }
}

// And where it is.
fn faded_style(joint: &JointState, h: u32) -> Style
    ensures { result ≡ faded_style joint.now h }
{
    if is_tabled(joint, h) {
        Style::Cleared
    } else {
        Style::Gone
    }
}

// The arrow of a handle that a managed object holds, by its peer.
fn push_held(
    view: &HeapView,
    weak: &[bool],
    m: u32,
    h: u32,
    p: u32,
    arrows: &mut Vec<Arrow>,
) -> Result<(), AllocError>
    requires { flag_at weak.now h ≡ is_in view.now.weakened h }
    ensures { OnOk result (arrows.new.items ≡ arrows.old.items ++ held_arrow view.now m h (Some p)) }
{
    if view.joint().peers().is_live(p) {
        let style = held_style(view, weak, h);
        arrows.push(Arrow::Held { m, h, p, style })?;
    } else {
        let style = faded_style(view.joint(), h);
        arrows.push(Arrow::Faded { m, h, style })?;
    }
    Ok(())
}

// The arrow of the handle that a managed object holds.
fn push_tie(
    view: &HeapView,
    weak: &[bool],
    m: u32,
    arrows: &mut Vec<Arrow>,
) -> Result<(), AllocError>
    requires { AreFlags (length view.now.joint.graph.peers.issued) view.now.weakened weak.now }
    ensures { OnOk result (arrows.new.items ≡ arrows.old.items ++ tie view.now m) }
{
    let Some(h) = view.joint().object_handle(m) else {
        return Ok(());
    };
    match view.joint().handle(h) {
        None => Ok(()),
        Some(row) => push_held(view, weak, m, h, row.peer, arrows),
    }
}

// Whether a handle is drawn as a box.
fn is_box(joint: &JointState, held: &[bool], h: u32, row: Handle) -> bool
    requires { flag_at held.now h ≡ is_in (owned joint.now) h }
    ensures { result ≡ is_box (owned joint.now) h (issued_as row) }
{
    match row.hold {
        IssuedHold::Raw => true,
        IssuedHold::Held => {
            let _state = joint;
            !has_flag(held, h)
        }
    }
}

// How a handle that is drawn as a box is drawn.
fn grip_style(row: Handle) -> Style
    ensures { result ≡ grip_style (issued_as row) }
{
    match row.hold {
        IssuedHold::Held => Style::Full,
        IssuedHold::Raw => match row.strength {
            IssuedStrength::Strong => Style::Full,
            IssuedStrength::Weak => Style::Weak,
        },
    }
}

// The box of a handle.
fn push_box(
    joint: &JointState,
    h: u32,
    row: Handle,
    arrows: &mut Vec<Arrow>,
) -> Result<(), AllocError>
    ensures { OnOk result (arrows.new.items ≡ arrows.old.items ++ box_arrow joint.now h (issued_as row)) }
{
    if joint.peers().is_live(row.peer) {
        arrows.push(Arrow::Grips {
            h,
            p: row.peer,
            style: grip_style(row),
        })?;
    } else {
        arrows.push(Arrow::Stub { h })?;
    }
    Ok(())
}

// The box of a handle that was issued so, where it is drawn as one.
fn push_issued(
    joint: &JointState,
    held: &[bool],
    h: u32,
    row: Handle,
    arrows: &mut Vec<Arrow>,
) -> Result<(), AllocError>
    requires { flag_at held.now h ≡ is_in (owned joint.now) h }
    ensures { OnOk result (arrows.new.items ≡ arrows.old.items ++ box_of joint.now
        (owned joint.now) h (Some (issued_as row))) }
{
    let drawn = is_tabled(joint, h) & is_box(joint, held, h, row);
    if drawn {
        push_box(joint, h, row, arrows)?;
    }
    Ok(())
}

// The box of a handle, where it is drawn as one.
fn push_handle(
    joint: &JointState,
    held: &[bool],
    h: u32,
    arrows: &mut Vec<Arrow>,
) -> Result<(), AllocError>
    requires { AreFlags (length joint.now.graph.peers.issued) (owned joint.now) held.now }
    ensures { OnOk result (arrows.new.items ≡ arrows.old.items ++ box_of joint.now
        (owned joint.now) h (numbered_at joint.now.graph.peers.issued h)) }
{
    match joint.handle(h) {
        None => Ok(()),
        Some(row) => push_issued(joint, held, h, row, arrows),
    }
}

// Puts the handle that a managed object holds.
fn push_owned(joint: &JointState, m: u32, handles: &mut Vec<u32>) -> Result<(), AllocError>
    ensures { OnOk result (handles.new.items ≡ handles.old.items ++ handle_list joint.now m) }
{
    if let Some(h) = joint.object_handle(m) {
        handles.push(h)?;
    }
    Ok(())
}

// The handles that managed objects hold.
fn owned_handles(alloc: Global, joint: &JointState) -> Result<Vec<u32>, AllocError>
    ensures { IfOk result (λ v. v.items ≡ owned joint.now) }
{
    let mut handles = Vec::new(alloc);
    for i in 0..joint.objects().made() {
        push_owned(joint, i + 1, &mut handles)?;
    }
    Ok(handles)
}

/// The arrows of the handles that managed objects hold.
pub(crate) fn push_ties(
    alloc: Global,
    view: &HeapView,
    arrows: &mut Vec<Arrow>,
) -> Result<(), AllocError>
    ensures { OnOk result (arrows.new.items ≡ arrows.old.items ++ ties view.now) }
{
    let weak = flags_of(alloc, view.joint().handles(), view.weakened())?;
    for i in 0..view.joint().objects().made() {
        push_tie(view, &weak, i + 1, arrows)?;
    }
    Ok(())
}

/// The boxes of handles.
pub(crate) fn push_boxes(
    alloc: Global,
    joint: &JointState,
    arrows: &mut Vec<Arrow>,
) -> Result<(), AllocError>
    ensures { OnOk result (arrows.new.items ≡ arrows.old.items ++ boxes joint.now) }
{
    let owners = owned_handles(alloc, joint)?;
    let held = flags_of(alloc, joint.handles(), &owners)?;
    for i in 0..joint.handles() {
        push_handle(joint, &held, i + 1, arrows)?;
    }
    Ok(())
}
