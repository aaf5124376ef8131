// The open cycle of the managed part, and the notices that its end queues.

ghost use Rattle.std.specs.Prelude.{◌≡◌, ◌++◌, ◌+◌, ◌<◌, ◌↔◌, false, IsTrue, IfOk, OnErr, OnOk, Some, None};
ghost use Rattle.std.specs.Prelude.{MatchOption, All, filter, length, map};
ghost use Rattle.joint_machine.specs.Cycles.{IsOpen};
ghost use Rattle.joint_machine.specs.Heaps.{IsMade, with_freed};
ghost use Rattle.joint_machine.specs.Managed.{abandoned, candidates_of, handle_of, holds_handle, notices_taken};
ghost use Rattle.joint_machine.specs.Managed.{with_snapshot, resolved};
ghost use Rattle.joint_machine.specs.Run.{answered_for, is_that_handle};
ghost use Rattle.joint_replay.specs.Answers.{said_as, answers_as, given_in, renewed_by, Awaits};
ghost use Rattle.joint_replay.specs.Plain.{HasOpen};
ghost use Rattle.joint_replay.specs.Judging.{Decides, Gives, named_objects};
ghost use Rattle.joint_replay.specs.Finding.{FindsRows};
ghost use Rattle.joint_replay.specs.Snaps.{SnapsManaged, HasCandidate, OwesDead, NamesFreed, SaysSnap};

use crate::answers::{Said, answer_each, renew_each, waiting};
use crate::callers::number;
use crate::found::{SnapshotRows, find};
use crate::heap::put_all;
use crate::managed::ManagedPart;
use crate::named::freed_objects;
use crate::state::Verdict;
use joint_model::{Cycle, History, Reply, Span};
use std::alloc::{AllocError, Global};
use std::marker::Model;

/// An open cycle: its number, its candidates and its dead part.
#[derive(Drop)]
pub(crate) struct SnappedCycle {
    number: u32,
    candidates: Vec<u32>,
    dead: Vec<u32>,
}

impl Model for SnappedCycle {
    ghost use Rattle.joint_machine.specs.Managed.{OpenCycle};

    ghost Value = { OpenCycle };

    ghost view = { λ s. record { number = s.number; candidates = s.candidates.items; dead = s.dead.items } };
}

impl SnappedCycle {
    /// The cycle's number.
    pub(crate) fn number(&self) -> u32
        ensures { result ≡ self.now.number }
    {
        self.number
    }

    /// The candidates.
    pub(crate) fn candidates(&self) -> &[u32]
        ensures { result.now ≡ self.now.candidates }
    {
        self.candidates.as_slice()
    }

    /// The dead part.
    pub(crate) fn dead(&self) -> &[u32]
        ensures { result.now ≡ self.now.dead }
    {
        self.dead.as_slice()
    }
}

impl ManagedPart {
    /// Whether cycle `k` is open.
    pub(crate) fn is_open(&self, k: Cycle) -> bool
        ensures { IsTrue result ↔ HasOpen self.now k.0 }
    {
        match &self.cycle {
            None => false,
            Some(open) => open.number() == k.0,
        }
    }

    /// Cycle `k`, where it is open.
    pub(crate) fn opened(&self, k: Cycle) -> Option<&SnappedCycle>
        ensures { MatchOption result (HasOpen self.now k.0 → ⊥)
            (λ o. IsOpen self.now k.0 o.now × OwesDead (length self.now.heap.fields) (Some o.now)) }
    {
        match &self.cycle {
            None => None,
            Some(open) => {
                if open.number() == k.0 {
                    Some(open)
                } else {
                    None
                }
            }
        }
    }

    /// Whether a span of that reply names exactly these objects in the history's list, and stands where they come.
    pub(crate) fn frees(
        &self,
        alloc: Global,
        h: &History,
        span: Span,
        freed: &[u32],
    ) -> Result<bool, AllocError>
        ensures { IfOk result (λ b. IsTrue b ↔ NamesFreed self.now.heap h.now span freed.now) }
    {
        if span.first as usize != self.heap.freed_len() || span.count as usize != freed.len() {
            return Ok(false);
        }
        match freed_objects(alloc, h, span)? {
            None => Ok(false),
            Some(told) => Ok(told.as_slice() == freed),
        }
    }

    /// `snap`: cycle `k` is opened, with what the history says that it frees, and no candidate has an answer yet.
    /// Answers `AllocError` where there is no memory; the part and the answers are then as before.
    pub(crate) fn snap(
        &mut self,
        alloc: Global,
        h: &History,
        k: Cycle,
        reply: &Reply,
        answers: &mut Vec<Option<Said>>,
    ) -> Result<Verdict, AllocError>
        ensures ok { IfOk result (λ d. Decides
            (SnapsManaged self.old k.0 (named_objects h.now reply.now) reply.now) d self.old self.new) }
        ensures answers { IfOk result (λ d. Awaits d (candidates_of self.new)
            (answers_as answers.old.items) (answers_as answers.new.items)) }
        ensures err { OnErr result (self.new ≡ self.old) }
        ensures kept { OnErr result (answers.new.items ≡ answers.old.items) }
    {
        if !self.is_next(k) {
            return Ok(Verdict::Unlawful);
        }
        let found = find(alloc, &self.heap, &self.held, &self.pins)?;
        let lawful = self.says_snap(alloc, h, reply, &found.freed, found.candidates.len())?;
        if !lawful {
            return Ok(Verdict::Unlawful);
        }
        let none = waiting(alloc, found.candidates.len())?;
        self.open(k, found)?;
        *answers = none;
        Ok(Verdict::Lawful)
    }

    // Whether no cycle is open, and the next one has number `k`.
    fn is_next(&self, k: Cycle) -> bool
        ensures { IsTrue result ↔ ((self.now.cycle ≡ None) × (k.0 ≡ self.now.cycles + 1)) }
    {
        self.cycle.is_none() && k.0 as u64 == self.cycles as u64 + 1
    }

    // Whether the reply is that of a snapshot that frees these objects and has so many candidates.
    fn says_snap(
        &self,
        alloc: Global,
        h: &History,
        reply: &Reply,
        freed: &[u32],
        candidates: usize,
    ) -> Result<bool, AllocError>
        ensures { IfOk result (λ b. IsTrue b ↔ SaysSnap self.now.heap h.now reply.now freed.now candidates) }
    {
        match reply {
            Reply::Snapped(count, span) => {
                if *count as usize != candidates {
                    return Ok(false);
                }
                self.frees(alloc, h, *span, freed)
            }
            _ => Ok(false),
        }
    }

    // Opens cycle `k` with what was found, and frees what goes.
    fn open(&mut self, k: Cycle, found: SnapshotRows) -> Result<(), AllocError>
        requires next { k.0 ≡ self.old.cycles + 1 }
        requires finds { FindsRows self.old.heap self.old.held self.old.pins
            found.freed.items found.candidates.items found.dead.items }
        ensures ok { OnOk result (self.new ≡ with_snapshot self.old
            found.freed.items found.candidates.items found.dead.items) }
        ensures err { OnErr result (self.new ≡ self.old) }
    {
        let SnapshotRows {
            freed,
            dead,
            candidates,
        } = found;
        self.heap.free(&freed)?;
        self.cycles = k.0;
        self.cycle = Some(SnappedCycle {
            number: k.0,
            candidates,
            dead,
        });
        Ok(())
    }

    /// Closes the open cycle and frees these rows, with a notice for each that holds a handle; each candidate that was
    /// answered alive then holds the handle that its restore gave. Answers `AllocError` where there is no memory; the
    /// part is then as before.
    pub(crate) fn close(
        &mut self,
        alloc: Global,
        answers: &[Option<Said>],
        freed: &[u32],
    ) -> Result<(), AllocError>
        requires made { All (IsMade self.old.heap) freed.now }
        requires given { answers_as answers.now ≡ map Some (given_in (answers_as answers.now)) }
        ensures ok { OnOk result (self.new ≡ resolved self.old (given_in (answers_as answers.now)) freed.now) }
        ensures err { OnErr result (self.new ≡ self.old) }
    {
        self.free(alloc, freed)?;
        self.end(answers);
        Ok(())
    }

    // Frees these rows, with a notice for each that holds a handle. Answers `AllocError` where there is no memory; the
    // part is then as before.
    fn free(&mut self, alloc: Global, freed: &[u32]) -> Result<(), AllocError>
        requires { All (IsMade self.old.heap) freed.now }
        ensures ok { OnOk result (self.new ≡ record self.old {
          heap = with_freed self.old.heap freed.now;
          notices = self.old.notices ++ filter (holds_handle self.old) freed.now;
        }) }
        ensures err { OnErr result (self.new ≡ self.old) }
    {
        let queued = self.holders(alloc, freed)?;
        self.free_queuing(freed, &queued)
    }

    // Frees these rows, with a notice for each of the others. Answers `AllocError` where there is no memory; the part
    // is then as before.
    fn free_queuing(&mut self, freed: &[u32], queued: &[u32]) -> Result<(), AllocError>
        requires { All (IsMade self.old.heap) freed.now }
        ensures ok { OnOk result (self.new ≡ record self.old {
          heap = with_freed self.old.heap freed.now;
          notices = self.old.notices ++ queued.now;
        }) }
        ensures err { OnErr result (self.new ≡ self.old) }
    {
        self.notices.reserve(queued.len())?;
        self.heap.free(freed)?;
        put_all(queued, &mut self.notices);
        Ok(())
    }

    // The open cycle is closed; each candidate that was answered alive holds the handle that its restore gave.
    fn end(&mut self, answers: &[Option<Said>])
        ensures { self.new ≡ record self.old
            { held = renewed_by self.old.held (candidates_of self.old) (answers_as answers.now); cycle = None } }
    {
        self.renew(answers);
        self.cycle = None;
    }

    // Each candidate that was answered alive holds the handle that its restore gave.
    fn renew(&mut self, answers: &[Option<Said>])
        ensures { self.new ≡ record self.old
            { held = renewed_by self.old.held (candidates_of self.old) (answers_as answers.now) } }
    {
        if let Some(open) = &self.cycle {
            renew_each(open.candidates(), answers, &mut self.held);
        }
    }

    /// Whether a candidate of the open cycle holds handle `h`.
    pub(crate) fn has_candidate(&self, h: u32) -> bool
        ensures { IsTrue result ↔ HasCandidate self.now h }
    {
        match &self.cycle {
            None => false,
            Some(open) => !self.none_gives(open.candidates(), h),
        }
    }

    // Whether no object of a list holds handle `h`.
    fn none_gives(&self, rows: &[u32], h: u32) -> bool
        ensures { IsTrue result ↔ All (λ m. is_that_handle (handle_of self.now m) h ≡ false) rows.now }
    {
        rows.iter().all(|m| !self.gives(*m, h))
    }

    /// Each candidate of the open cycle that holds handle `h` has had that answer.
    pub(crate) fn answer(&self, h: u32, said: Said, answers: &mut Vec<Option<Said>>)
        ensures { answers_as answers.new.items ≡ answered_for self.now h
            (said_as said) (candidates_of self.now) (answers_as answers.old.items) }
    {
        if let Some(open) = &self.cycle {
            answer_each(self, open.candidates(), h, said, answers);
        }
    }

    /// Closes the open cycle, and frees nothing.
    pub(crate) fn abandon(&mut self)
        ensures { self.new ≡ abandoned self.old }
    {
        self.cycle = None;
    }

    // The objects of a list that hold a handle.
    fn holders(&self, alloc: Global, rows: &[u32]) -> Result<Vec<u32>, AllocError>
        ensures { IfOk result (λ v. v.items ≡ filter (holds_handle self.now) rows.now) }
    {
        rows.iter()
            .copied()
            .filter(|m| self.holds(*m))
            .collect(alloc)
    }

    fn holds(&self, m: u32) -> bool
        ensures { result ≡ holds_handle self.now m }
    {
        match self.handle(m) {
            None => false,
            Some(_) => true,
        }
    }

    /// `finalise`: the oldest `n` of the waiting notices are taken, or all.
    pub(crate) fn finalise(&mut self, n: u32, reply: &Reply) -> Verdict
        ensures { Decides (Gives (notices_taken self.old n) reply.now) result self.old self.new }
    {
        let waiting = self.notices.len().saturating_sub(self.taken);
        let count = waiting.min(n as usize);
        if !names_taken(reply, self.taken, count) {
            return Verdict::Unlawful;
        }
        self.taken += count;
        Verdict::Lawful
    }
}

// Whether the reply names so many notices after those that were taken.
fn names_taken(reply: &Reply, taken: usize, count: usize) -> bool
    ensures { IsTrue result ↔ (reply.now ≡ Reply.Took record { first = taken; count = count }) }
{
    match reply {
        Reply::Took(span) => span.first as usize == taken && span.count as usize == count,
        _ => false,
    }
}
