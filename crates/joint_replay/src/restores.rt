// The restores of the driver: a handle of a candidate is removed, and its peer gets a new one unless it is freed.

ghost use Rattle.std.specs.Prelude.{◌≡◌, ◌<◌, IfOk, OnErr, Some, None, MatchOption, length};
ghost use Rattle.joint_machine.specs.Heaps.{answer};
ghost use Rattle.joint_machine.specs.Joint.{Joint};
ghost use Rattle.joint_machine.specs.Peers.{next_handle};
ghost use Rattle.joint_machine.specs.Run.{JointRestore, joint_restored, answered, given_anew, without};
ghost use Rattle.joint_machine.specs.Told.{said_alive, said_cleared};
ghost use Rattle.joint_machine.specs.declared.events.Reply.{Reply};
ghost use Rattle.joint_replay.specs.Judging.{Decides, Gives};
ghost use Rattle.joint_replay.specs.Snaps.{MayRestore};

use crate::answers::Said;
use crate::dead::is_kept;
use crate::removed::remove;
use crate::state::{JointState, Verdict};
use joint_model::Reply;
use std::alloc::AllocError;

impl JointState {
    /// `restore`: handle `h` of a candidate is removed; its peer gets a new one unless it is freed.
    pub(crate) fn restore(&mut self, h: u32, reply: &Reply) -> Result<Verdict, AllocError>
        ensures ok { IfOk result (λ d. Decides (JointRestore self.old h reply.now) d self.old self.new) }
        ensures err { OnErr result (self.new ≡ self.old) }
    {
        let Some(p) = self.restorable(h) else {
            return Ok(Verdict::Unlawful);
        };
        self.restore_on(h, p, reply)
    }

    // The peer of a handle that may be restored; None where it is no candidate's, or was removed.
    fn restorable(&self, h: u32) -> Option<u32>
        ensures { MatchOption result ((reply : Reply) → (next : Joint) → JointRestore self.now h reply next → ⊥)
            (λ p. MayRestore self.now h p) }
    {
        if !self.managed.has_candidate(h) || !is_kept(&self.removed, h) {
            return None;
        }
        self.peers.peer_of(h)
    }

    // The restore of a handle on that peer.
    fn restore_on(&mut self, h: u32, p: u32, reply: &Reply) -> Result<Verdict, AllocError>
        ensures ok { IfOk result (λ d. Decides (Gives (joint_restored self.old h p) reply.now) d self.old self.new) }
        ensures err { OnErr result (self.new ≡ self.old) }
    {
        if self.peers.heap().is_freed(p) {
            return Ok(self.clear_handle(h, reply));
        }
        self.renew_handle(h, p, reply)
    }

    // The handle is removed.
    fn clear_handle(&mut self, h: u32, reply: &Reply) -> Verdict
        ensures { Decides (Gives (answer Reply.Cleared (answered (without self.old (Some h)) h said_cleared)) reply.now)
            result self.old self.new }
    {
        if !matches!(reply, Reply::Cleared) {
            return Verdict::Unlawful;
        }
        remove(h, &mut self.removed);
        self.managed.answer(h, Said::Cleared, &mut self.answers);
        Verdict::Lawful
    }

    // The handle is removed, and its peer gets a new one. Answers `AllocError` where there is no memory; the state is
    // then as before.
    fn renew_handle(&mut self, h: u32, p: u32, reply: &Reply) -> Result<Verdict, AllocError>
        ensures ok { IfOk result (λ d. Decides
            (Gives (answer (Reply.Renewed record { 0 = next_handle self.old.graph.peers })
            (answered (given_anew (without self.old (Some h)) p) h (said_alive (next_handle self.old.graph.peers))))
            reply.now) d self.old self.new) }
        ensures err { OnErr result (self.new ≡ self.old) }
    {
        let Some(given) = self.peers.renewal(reply) else {
            return Ok(Verdict::Unlawful);
        };
        self.removed.reserve(1)?;
        self.peers.renew(p)?;
        remove(h, &mut self.removed);
        self.removed.push_reserved(false);
        self.managed
            .answer(h, Said::Alive(given), &mut self.answers);
        Ok(Verdict::Lawful)
    }
}
