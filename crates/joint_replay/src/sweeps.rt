// The begin of a marking, and the sweep that ends it.

ghost use Rattle.std.specs.Prelude.{◌≡◌, ◌+◌, ◌<◌, ◌↔◌, ◌⊎◌, IsTrue, IfOk, OnErr, Some, None, MatchOption};
ghost use Rattle.joint_machine.specs.declared.names.Thread.{Thread};
ghost use Rattle.joint_machine.specs.Lines.{IsPeerThread, IsDriver};
ghost use Rattle.joint_machine.specs.Run.{JointBegin, JointSweep};
ghost use Rattle.joint_machine.specs.Told.{sweep_of};
ghost use Rattle.joint_replay.specs.Snaps.{SweepsJoint, MayEndOpen, MaySweep, SaysSwept};
ghost use Rattle.joint_replay.specs.Judging.{Decides, named_peers};

use crate::dead::dead_peers;
use crate::marking::{BegunMarking, all_marked, rises};
use crate::named::freed_peers;
use crate::state::{JointState, Verdict};
use joint_model::{History, Reply, Thread};
use std::alloc::AllocError;

impl JointState {
    /// `begin`: a further marking is opened, or the open one is named.
    pub(crate) fn begin(&mut self, caller: Thread, reply: &Reply) -> Result<Verdict, AllocError>
        ensures ok { IfOk result (λ d. Decides
            (JointBegin self.old self.old.marking caller reply.now) d self.old self.new) }
        ensures err { OnErr result (self.new ≡ self.old) }
    {
        if let Some(marking) = &self.marking {
            return Ok(Verdict::of(names_open(reply, marking.number())));
        }
        if !names_mark(reply, self.markings) {
            return Ok(Verdict::Unlawful);
        }
        let marking = BegunMarking::begin(
            self.alloc,
            self.markings + 1,
            caller,
            &self.managed,
            &self.peers,
            &self.removed,
        )?;
        self.markings += 1;
        self.marking = Some(marking);
        Ok(Verdict::Lawful)
    }

    /// `sweep`: the open marking ends, with what the history says that it frees. Where none is open, or where another
    /// thread began it, a peer thread's frees nothing.
    pub(crate) fn sweep(
        &mut self,
        h: &History,
        caller: Thread,
        reply: &Reply,
    ) -> Result<Verdict, AllocError>
        requires caller { IsPeerThread caller ⊎ IsDriver caller }
        ensures ok { IfOk result (λ d. Decides
            (JointSweep self.old self.old.marking caller reply.now (sweep_of (named_peers h.now reply.now)))
            d self.old self.new) }
        ensures err { OnErr result (self.new ≡ self.old) }
    {
        let Some(marking) = &self.marking else {
            return Ok(Verdict::of(finds_no_mark(caller, reply)));
        };
        if !marking.is_ended_by(caller) {
            return Ok(Verdict::of(names_open(reply, marking.number())));
        }
        self.end_marking(h, caller, reply)
    }

    // The open marking ends, with what the history says that it frees.
    fn end_marking(
        &mut self,
        h: &History,
        caller: Thread,
        reply: &Reply,
    ) -> Result<Verdict, AllocError>
        requires caller { MayEndOpen self.old caller }
        ensures ok { IfOk result (λ d. Decides
            (SweepsJoint self.old caller (named_peers h.now reply.now) reply.now) d self.old self.new) }
        ensures err { OnErr result (self.new ≡ self.old) }
    {
        let Some(freed) = self.swept(h, reply)? else {
            return Ok(Verdict::Unlawful);
        };
        self.peers.free(&freed)?;
        self.marking = None;
        Ok(Verdict::Lawful)
    }

    // The peers that the open marking frees by that reply; None where it is no sweep of that marking.
    fn swept(&self, h: &History, reply: &Reply) -> Result<Option<Vec<u32>>, AllocError>
        ensures { IfOk result (λ o. MatchOption o (MaySweep self.now (named_peers h.now reply.now) reply.now → ⊥)
            (λ v. (v.items ≡ named_peers h.now reply.now) × MaySweep self.now v.items reply.now)) }
    {
        let Some(marking) = &self.marking else {
            return Ok(None);
        };
        let Some(freed) = self.named(h, reply, marking.number())? else {
            return Ok(None);
        };
        let dead = dead_peers(self.alloc, &self.managed, &self.peers, &self.removed)?;
        if rises(&freed) && marking.stores(&freed) && all_marked(&dead, &freed) {
            Ok(Some(freed))
        } else {
            Ok(None)
        }
    }

    // The peers that the reply of a sweep of marking `n` names; None where it is none, or stands elsewhere.
    fn named(&self, h: &History, reply: &Reply, n: u32) -> Result<Option<Vec<u32>>, AllocError>
        ensures { IfOk result (λ o. MatchOption o (SaysSwept self.now.graph.peers.heap h.now reply.now n → ⊥)
            (λ v. (v.items ≡ named_peers h.now reply.now) × SaysSwept self.now.graph.peers.heap h.now reply.now n)) }
    {
        match reply {
            Reply::Swept(number, span) => {
                if number.0 != n || span.first as usize != self.peers.heap().freed_len() {
                    return Ok(None);
                }
                freed_peers(self.alloc, h, *span)
            }
            _ => Ok(None),
        }
    }
}

// Whether the reply names the open marking.
fn names_open(reply: &Reply, n: u32) -> bool
    ensures { IsTrue result ↔ (reply.now ≡ Reply.MarkOpen record { 0 = n }) }
{
    match reply {
        Reply::MarkOpen(number) => number.0 == n,
        _ => false,
    }
}

// Whether a peer thread finds no open marking.
fn finds_no_mark(caller: Thread, reply: &Reply) -> bool
    requires caller { IsPeerThread caller ⊎ IsDriver caller }
    ensures { IsTrue result ↔ (IsPeerThread caller × (reply.now ≡ Reply.NoMark)) }
{
    matches!(caller, Thread::P(_)) && matches!(reply, Reply::NoMark)
}

// Whether the reply names the marking after `markings`.
fn names_mark(reply: &Reply, markings: u32) -> bool
    ensures names { IsTrue result ↔ (reply.now ≡ Reply.Mark record { 0 = markings + 1 }) }
    ensures few { IsTrue result → markings < u32.MAX }
{
    match reply {
        Reply::Mark(number) => number.0 as u64 == markings as u64 + 1,
        _ => false,
    }
}
