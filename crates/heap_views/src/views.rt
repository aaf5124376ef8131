// The view, and how it goes from entry to entry.

ghost use Rattle.std.specs.Prelude.{◌≡◌, ◌&&◌, ◌+◌, ◌<◌, IfOk, OnOk, MatchOption, Some, length, slice_get, take, map};
ghost use Rattle.joint_machine.specs.Lines.{is_read};
ghost use Rattle.joint_machine.specs.Readers.{is_set_aside};
ghost use Rattle.joint_machine.specs.Run.{is_joint};
ghost use Rattle.heap_views.specs.Mirrored.{ends_as};
ghost use Rattle.heap_views.specs.Views.{GoesOn, IsSeenOn, IsStuck, MovesOn, RefsAfter, Seen, is_lawful, is_step};
ghost use Rattle.heap_views.specs.Views.{opening_view, weakened_after};

use crate::mirrored::{MirrorEnd, mirrored_refs};
use joint_model::{Act, Entry, History, Op, Reply};
use joint_replay::{JointState, Verdict};
use std::alloc::{AllocError, Global};
use std::marker::Model;

/// What there is to see of both heaps.
#[derive(Drop)]
pub struct HeapView {
    alloc: Global,
    joint: JointState,
    weakened: Vec<u32>,
    refs: Vec<(MirrorEnd, MirrorEnd)>,
}

impl Model for HeapView {
    ghost use Rattle.std.specs.Prelude.{map};
    ghost use Rattle.heap_views.specs.Mirrored.{ends_as};
    ghost use Rattle.heap_views.specs.Views.{View};

    ghost Value = { View };

    ghost view = { λ s. record { joint = s.joint; weakened = s.weakened.items; refs = map ends_as s.refs.items } };
}

// Whether an entry is a read that is pending or finds its cell unset.
fn is_aside(op: &Op, reply: &Reply) -> bool
    ensures { result ≡ (is_read op.now && is_set_aside reply.now) }
{
    match op {
        Op::Line(Act::Read { .. } | Act::Await { .. }) => {
            matches!(reply, Reply::Pending { .. } | Reply::Unset)
        }
        _ => false,
    }
}

// Whether an event that is no read set aside is a step of the joint machine.
fn is_joint_op(op: &Op) -> bool
    ensures { result ≡ is_joint op.now }
{
    match op {
        Op::Line(Act::Slice { .. })
        | Op::Contract { .. }
        | Op::Mirror { .. }
        | Op::Weaken { .. }
        | Op::Clear { .. }
        | Op::Refused { .. } => false,
        _ => true,
    }
}

// Whether a verdict says that an entry is a step.
fn is_lawful(verdict: Verdict) -> bool
    ensures { result ≡ is_lawful verdict }
{
    match verdict {
        Verdict::Lawful => true,
        Verdict::Unlawful => false,
    }
}

// Whether an entry is a step of the joint machine.
fn is_step(entry: &Entry) -> bool
    ensures { result ≡ is_step entry.now }
{
    if is_aside(&entry.made.op, &entry.made.reply) {
        return false;
    }
    is_joint_op(&entry.made.op)
}

impl HeapView {
    // Nothing is there.
    fn new(alloc: Global) -> Result<HeapView, AllocError>
        ensures { IfOk result (λ v. v ≡ opening_view) }
    {
        Ok(HeapView {
            alloc,
            joint: JointState::new(alloc)?,
            weakened: Vec::new(alloc),
            refs: Vec::new(alloc),
        })
    }

    // Goes on by an entry that is to be a step of the joint machine; false where it is none.
    fn judge(&mut self, h: &History, entry: &Entry) -> Result<bool, AllocError>
        ensures { IfOk result (λ went. MovesOn went h.now entry.now self.old self.new) }
    {
        let verdict = self.joint.judge(h, entry)?;
        Ok(is_lawful(verdict))
    }

    // Goes on by an entry; false where it is no step of the joint machine.
    fn go(&mut self, h: &History, entry: &Entry) -> Result<bool, AllocError>
        ensures { IfOk result (λ went. GoesOn went h.now entry.now self.old self.new) }
    {
        if is_step(entry) {
            return self.judge(h, entry);
        }
        self.rest(&entry.made.op)?;
        Ok(true)
    }

    // Goes on by an event that is no step of the joint machine.
    fn rest(&mut self, op: &Op) -> Result<(), AllocError>
        ensures joint { OnOk result (self.new.joint ≡ self.old.joint) }
        ensures weakened { OnOk result (self.new.weakened ≡ weakened_after self.old.weakened op.now) }
        ensures refs { OnOk result (RefsAfter self.old op.now self.new.refs) }
    {
        match op {
            Op::Weaken { h } => self.weakened.push(h.0)?,
            Op::Mirror { .. } => self.refs = mirrored_refs(self.alloc, &self.joint)?,
            Op::Clear { .. } => self.refs = Vec::new(self.alloc),
            _ => {}
        }
        Ok(())
    }

    /// The joint machine's state.
    pub fn joint(&self) -> &JointState
        ensures { result.now ≡ self.now.joint }
    {
        &self.joint
    }

    /// The handles that cycles made weak.
    pub fn weakened(&self) -> &[u32]
        ensures { result.now ≡ self.now.weakened }
    {
        self.weakened.as_slice()
    }

    /// The references that a cycle added between peers.
    pub fn refs(&self) -> &[(MirrorEnd, MirrorEnd)]
        ensures { map ends_as result.now ≡ self.now.refs }
    {
        self.refs.as_slice()
    }
}

// Goes on by entry `i` of a history; false where it is no step from there.
fn go_on(view: &mut HeapView, h: &History, i: u64, entry: &Entry) -> Result<bool, AllocError>
    requires there { slice_get h.now.entries i ≡ Some entry.now }
    requires seen { Seen h.now opening_view (take i h.now.entries) view.old }
    ensures { IfOk result (λ went. IsSeenOn went h.now i view.new) }
{
    view.go(h, entry)
}

/// What there is to see after entry `n` of a history; None where one of the entries up to it is no step of the joint
/// machine. Answers `AllocError` where there is no memory.
pub fn view_after(alloc: Global, h: &History, n: u64) -> Result<Option<HeapView>, AllocError>
    requires { n < length h.now.entries }
    ensures { IfOk result (λ found. MatchOption found (IsStuck h.now n)
        (λ v. Seen h.now opening_view (take (n + 1) h.now.entries) v)) }
{
    // a history has as many entries as can be counted
    let _ = h.len();
    let mut view = HeapView::new(alloc)?;
    for i in 0..n + 1 {
        match h.entry(i) {
            None => unreachable!(),
            Some(entry) => {
                if !go_on(&mut view, h, i, &entry)? {
                    return Ok(None);
                }
            }
        }
    }
    Ok(Some(view))
}
