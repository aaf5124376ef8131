// What a managed thread does on the peers and handles.

ghost use Rattle.std.specs.Prelude.{◌≡◌, ◌<◌, IfOk, OnErr, Some};
ghost use Rattle.joint_machine.specs.declared.names.Thread.{Thread};
ghost use Rattle.joint_machine.specs.Heaps.{answer};
ghost use Rattle.joint_machine.specs.Joint.{joint_target};
ghost use Rattle.joint_machine.specs.Peers.{gripped, landed, pair_made};
ghost use Rattle.joint_machine.specs.Run.{on_peers, without, joint_answer};
ghost use Rattle.joint_replay.specs.Judging.{Decides, Gives, IsHandleEvent};

use crate::removed::remove;
use crate::replies::says_ok;
use crate::state::{JointState, Verdict};
use joint_model::{Op, Reply, Sort, Thread};
use std::alloc::AllocError;

impl JointState {
    /// An event of a managed thread on the peers and handles.
    pub(crate) fn on_handles(&mut self, op: &Op, reply: &Reply) -> Result<Verdict, AllocError>
        requires { IsHandleEvent op.now }
        ensures ok { IfOk result (λ d. (t : Thread)
            → Decides (Gives (joint_answer self.old t op.now) reply.now) d self.old self.new) }
        ensures err { OnErr result (self.new ≡ self.old) }
    {
        match op {
            Op::Make { sort, fields } => self.make(*sort, *fields, reply),
            Op::Land { h, x } => Ok(self.land(h.0, x.0 as usize, reply)),
            Op::Grip { x } => self.grip(x.0 as usize, reply),
            Op::Release { h } => Ok(self.release(h.0, reply)),
            _ => unreachable!(),
        }
    }

    // `make`: a further peer and a handle on it.
    fn make(&mut self, sort: Sort, fields: u8, reply: &Reply) -> Result<Verdict, AllocError>
        ensures ok { IfOk result (λ d. Decides
            (Gives (on_peers self.old (pair_made self.old.graph.peers sort fields)) reply.now) d self.old self.new) }
        ensures err { OnErr result (self.new ≡ self.old) }
    {
        self.peers.make_pair(sort, fields, &mut self.removed, reply)
    }

    // `land`: the static holds the peer to which the handle leads.
    fn land(&mut self, h: u32, x: usize, reply: &Reply) -> Verdict
        requires { x < 16 }
        ensures { Decides (Gives (on_peers self.old (landed self.old.graph.peers x (joint_target self.old h)))
            reply.now) result self.old self.new }
    {
        let target = self.target(h);
        self.land_peer(x, target, reply)
    }

    // The static holds the peer to which a handle leads.
    fn land_peer(&mut self, x: usize, target: Option<u32>, reply: &Reply) -> Verdict
        requires { x < 16 }
        ensures { Decides (Gives (on_peers self.old (landed self.old.graph.peers x target)) reply.now)
            result self.old self.new }
    {
        self.peers.land(x, target, reply)
    }

    // `grip`: a held strong handle on the peer of the static.
    fn grip(&mut self, x: usize, reply: &Reply) -> Result<Verdict, AllocError>
        requires { x < 16 }
        ensures ok { IfOk result (λ d. Decides
            (Gives (on_peers self.old (gripped self.old.graph.peers x)) reply.now) d self.old self.new) }
        ensures err { OnErr result (self.new ≡ self.old) }
    {
        self.peers.grip(x, &mut self.removed, reply)
    }

    // `release`: the handle is removed.
    fn release(&mut self, h: u32, reply: &Reply) -> Verdict
        ensures { Decides (Gives (answer Reply.Ok (without self.old (Some h))) reply.now) result self.old self.new }
    {
        if !says_ok(reply) {
            return Verdict::Unlawful;
        }
        remove(h, &mut self.removed);
        Verdict::Lawful
    }
}
