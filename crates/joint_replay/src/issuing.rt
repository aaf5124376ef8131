// The events of the peers that issue a handle. Each handle has a flag in the list of those that were removed.

ghost use Rattle.std.specs.Prelude.{◌≡◌, ◌<◌, ◌++◌, ◌∷◌, [], ◌||◌, IfOk, OnErr, OnOk, Some, None, true, false, length};
ghost use Rattle.joint_machine.specs.Heaps.{is_full, next_number};
ghost use Rattle.joint_machine.specs.Peers.{handles_full, with_handle, with_peer, held, strong, pair_made, gripped};
ghost use Rattle.joint_machine.specs.Peers.{globalised};
ghost use Rattle.joint_replay.specs.Judging.{Decides, Flags, Gives};
ghost use Rattle.joint_replay.specs.Plain.{hold_as, strength_as};

use crate::peers::{IssuedHold, IssuedStrength, PeerPart};
use crate::replies::Refusal;
use crate::state::Verdict;
use joint_model::{Reply, Sort, VARS};
use std::alloc::AllocError;

impl PeerPart {
    /// `make`: a further peer of that sort and a held strong handle on it.
    pub(crate) fn make_pair(
        &mut self,
        sort: Sort,
        fields: u8,
        removed: &mut Vec<bool>,
        reply: &Reply,
    ) -> Result<Verdict, AllocError>
        ensures ok { IfOk result (λ d. Decides (Gives (pair_made self.old sort fields) reply.now) d self.old self.new) }
        ensures err { OnErr result (self.new ≡ self.old) }
        ensures flags { Flags self.old self.new removed.old.items removed.new.items }
    {
        if self.is_full() {
            return Ok(Verdict::of(Refusal::Full.is_said(reply)));
        }
        if !self.names_next(reply) {
            return Ok(Verdict::Unlawful);
        }
        removed.reserve(1)?;
        self.add_pair(sort, fields)?;
        removed.push_reserved(false);
        Ok(Verdict::Lawful)
    }

    /// `grip`: a held strong handle on the peer of static `x`.
    pub(crate) fn grip(
        &mut self,
        x: usize,
        removed: &mut Vec<bool>,
        reply: &Reply,
    ) -> Result<Verdict, AllocError>
        requires { x < 16 }
        ensures ok { IfOk result (λ d. Decides (Gives (gripped self.old x) reply.now) d self.old self.new) }
        ensures err { OnErr result (self.new ≡ self.old) }
        ensures flags { Flags self.old self.new removed.old.items removed.new.items }
    {
        let Some(p) = self.heap().static_at(x) else {
            return Ok(Verdict::of(Refusal::Null.is_said(reply)));
        };
        if self.are_handles_full() {
            return Ok(Verdict::of(Refusal::Full.is_said(reply)));
        }
        if !self.names_gripped(p, reply) {
            return Ok(Verdict::Unlawful);
        }
        self.issue(p, IssuedHold::Held, IssuedStrength::Strong, removed)?;
        Ok(Verdict::Lawful)
    }

    /// `global` and `wglobal`: name `g` gets a raw handle on the peer of the variable at place `v`.
    pub(crate) fn globalise(
        &mut self,
        g: usize,
        v: usize,
        strength: IssuedStrength,
        removed: &mut Vec<bool>,
        reply: &Reply,
    ) -> Result<Verdict, AllocError>
        requires g { g < 64 }
        requires v { v < VARS }
        ensures ok { IfOk result (λ d. Decides
            (Gives (globalised self.old g v (strength_as strength)) reply.now) d self.old self.new) }
        ensures err { OnErr result (self.new ≡ self.old) }
        ensures flags { Flags self.old self.new removed.old.items removed.new.items }
    {
        let Some(p) = self.heap().var(v) else {
            return Ok(Verdict::of(Refusal::Empty.is_said(reply)));
        };
        if self.name(g).is_some() {
            return Ok(Verdict::of(Refusal::Taken.is_said(reply)));
        }
        if self.are_handles_full() {
            return Ok(Verdict::of(Refusal::Full.is_said(reply)));
        }
        if !self.names_handle(reply) {
            return Ok(Verdict::Unlawful);
        }
        let h = self.handles() + 1;
        self.issue(p, IssuedHold::Raw, strength, removed)?;
        self.set_name(g, Some(h));
        Ok(Verdict::Lawful)
    }

    // A further handle on a peer, with its flag. Answers `AllocError` where there is no memory; nothing is then added.
    fn issue(
        &mut self,
        peer: u32,
        hold: IssuedHold,
        strength: IssuedStrength,
        removed: &mut Vec<bool>,
    ) -> Result<(), AllocError>
        requires full { handles_full self.old ≡ false }
        requires room { length self.old.issued < u32.MAX }
        ensures ok { OnOk result ((self.new ≡ with_handle self.old peer (hold_as hold) (strength_as strength))
            × (removed.new.items ≡ removed.old.items ++ false ∷ [])) }
        ensures err { OnErr result ((self.new ≡ self.old) × (removed.new.items ≡ removed.old.items)) }
    {
        removed.reserve(1)?;
        self.add_handle(peer, hold, strength)?;
        removed.push_reserved(false);
        Ok(())
    }
}
