// The driver's cycle: its snapshot, its resolution and its abandonment.

ghost use Rattle.std.specs.Prelude.{◌≡◌, ℕ, ◌<◌, ◌↔◌, IsTrue, IfOk, OnErr, OnOk, Some, None, MatchOption, All, filter};
ghost use Rattle.joint_machine.specs.Heaps.{IsMade};
ghost use Rattle.joint_machine.specs.Joint.{Joint};
ghost use Rattle.joint_machine.specs.Run.{JointAbandon, JointResolve};
ghost use Rattle.joint_replay.specs.Answers.{AreAnswered};
ghost use Rattle.joint_replay.specs.Plain.{HasOpen};
ghost use Rattle.joint_replay.specs.Snaps.{SnapsJoint, Settles, SaysFreed, IsKeptReached, closed, keeps};
ghost use Rattle.reachability.specs.Marks.{HasMark, unmarked_of};
ghost use Rattle.joint_replay.specs.Judging.{Decides, named_objects};

use crate::answers::{are_given, are_missing};
use crate::managed::ManagedPart;
use crate::marking::is_marked;
use crate::peers::PeerPart;
use crate::replies::says_ok;
use crate::state::{JointState, Verdict};
use joint_model::{Cycle, History, Reply};
use reachability::reached;
use std::alloc::{AllocError, Global};

impl JointState {
    /// `snap`: cycle `k` is opened, with what the history says that it frees.
    pub(crate) fn snap(
        &mut self,
        h: &History,
        k: Cycle,
        reply: &Reply,
    ) -> Result<Verdict, AllocError>
        ensures ok { IfOk result (λ d. Decides
            (SnapsJoint self.old k.0 (named_objects h.now reply.now) reply.now) d self.old self.new) }
        ensures err { OnErr result (self.new ≡ self.old) }
    {
        let verdict = self
            .managed
            .snap(self.alloc, h, k, reply, &mut self.answers)?;
        Ok(verdict)
    }

    /// `resolve`: cycle `k` is closed, with what the history says that it frees.
    pub(crate) fn resolve(
        &mut self,
        h: &History,
        k: Cycle,
        reply: &Reply,
    ) -> Result<Verdict, AllocError>
        ensures ok { IfOk result (λ d. Decides
            (JointResolve self.old k.0 (named_objects h.now reply.now) reply.now) d self.old self.new) }
        ensures err { OnErr result (self.new ≡ self.old) }
    {
        let Some(freed) = self.resolution(h, k, reply)? else {
            return Ok(Verdict::Unlawful);
        };
        self.close(&freed)?;
        Ok(Verdict::Lawful)
    }

    // What a resolution of cycle `k` with that reply frees; None where there is none.
    fn resolution(
        &self,
        h: &History,
        k: Cycle,
        reply: &Reply,
    ) -> Result<Option<Vec<u32>>, AllocError>
        ensures { IfOk result (λ o. MatchOption o
            ((next : Joint) → JointResolve self.now k.0 (named_objects h.now reply.now) reply.now next → ⊥)
            (λ v. JointResolve self.now k.0 (named_objects h.now reply.now) reply.now (closed self.now v.items)
            × All (IsMade self.now.graph.managed.heap) v.items × AreAnswered self.now)) }
    {
        if !self.is_answered() {
            return Ok(None);
        }
        let Some(freed) = self.settled(k)? else {
            return Ok(None);
        };
        let lawful = self.says_freed(h, reply, &freed)?;
        if !lawful {
            return Ok(None);
        }
        Ok(Some(freed))
    }

    // Whether each candidate has had its restore.
    fn is_answered(&self) -> bool
        ensures { IsTrue result ↔ AreAnswered self.now }
    {
        are_given(&self.answers)
    }

    // Whether none has.
    fn is_unanswered(&self) -> bool
        ensures { IsTrue result ↔ All (λ a. a ≡ None) self.now.answers }
    {
        are_missing(&self.answers)
    }

    // The open cycle is closed, and these rows are freed. Answers `AllocError` where there is no memory; the state is
    // then as before.
    fn close(&mut self, freed: &[u32]) -> Result<(), AllocError>
        requires made { All (IsMade self.old.graph.managed.heap) freed.now }
        requires given { AreAnswered self.old }
        ensures ok { OnOk result (self.new ≡ closed self.old freed.now) }
        ensures err { OnErr result (self.new ≡ self.old) }
    {
        self.managed.close(self.alloc, &self.answers, freed)?;
        self.answers = Vec::new(self.alloc);
        Ok(())
    }

    // What a resolution of cycle `k` frees; None where that cycle isn't open.
    fn settled(&self, k: Cycle) -> Result<Option<Vec<u32>>, AllocError>
        ensures { IfOk result (λ o. MatchOption o
            (HasOpen self.now.graph.managed k.0 → ⊥) (λ v. Settles self.now k.0 v.items)) }
    {
        let Some(open) = self.managed.opened(k) else {
            return Ok(None);
        };
        let marks = kept_marks(self.alloc, &self.managed, &self.peers, open.candidates())?;
        let freed = unmarked(self.alloc, &marks, open.dead())?;
        Ok(Some(freed))
    }

    // Whether the reply is that of a resolution that frees these rows.
    fn says_freed(&self, h: &History, reply: &Reply, freed: &[u32]) -> Result<bool, AllocError>
        ensures { IfOk result (λ b. IsTrue b ↔ SaysFreed self.now.graph.managed.heap h.now reply.now freed.now) }
    {
        match reply {
            Reply::Freed(span) => self.managed.frees(self.alloc, h, *span, freed),
            _ => Ok(false),
        }
    }

    /// `abandon`: the open cycle is closed, and nothing is freed.
    pub(crate) fn abandon(&mut self, k: Cycle, reply: &Reply) -> Verdict
        ensures { Decides (JointAbandon self.old k.0 reply.now) result self.old self.new }
    {
        if !self.managed.is_open(k) || !self.is_unanswered() || !says_ok(reply) {
            return Verdict::Unlawful;
        }
        self.managed.abandon();
        self.answers = Vec::new(self.alloc);
        Verdict::Lawful
    }
}

// A mark for each row that a kept candidate leads to.
fn kept_marks(
    alloc: Global,
    managed: &ManagedPart,
    peers: &PeerPart,
    candidates: &[u32],
) -> Result<Vec<bool>, AllocError>
    requires { All (IsMade managed.now.heap) candidates.now }
    ensures { IfOk result (λ v. (i : ℕ) → HasMark v.items i ↔ IsKeptReached managed.now peers.now candidates.now i) }
{
    let kept = kept(alloc, managed, peers, candidates)?;
    reached(alloc, managed.heap(), &kept)
}

// The candidates of a list that are kept.
fn kept(
    alloc: Global,
    managed: &ManagedPart,
    peers: &PeerPart,
    candidates: &[u32],
) -> Result<Vec<u32>, AllocError>
    ensures { IfOk result (λ v. v.items ≡ filter (keeps managed.now peers.now) candidates.now) }
{
    candidates
        .iter()
        .copied()
        .filter(|m| keeps(managed, peers, *m))
        .collect(alloc)
}

// Whether an object holds a handle whose peer isn't freed.
fn keeps(managed: &ManagedPart, peers: &PeerPart, m: u32) -> bool
    ensures { result ≡ keeps managed.now peers.now m }
{
    match managed.handle(m) {
        None => false,
        Some(h) => match peers.peer_of(h) {
            None => false,
            Some(p) => !peers.heap().is_freed(p),
        },
    }
}

// The rows of a list that aren't marked.
fn unmarked(alloc: Global, marks: &[bool], rows: &[u32]) -> Result<Vec<u32>, AllocError>
    ensures { IfOk result (λ v. v.items ≡ unmarked_of marks.now rows.now) }
{
    rows.iter()
        .copied()
        .filter(|m| !is_marked(marks, *m))
        .collect(alloc)
}
