// The lines of the threads, each one event.

ghost use Rattle.std.specs.Prelude.{◌≡◌, ◌+◌, ◌<◌, IfOk, OnErr, Some, None, true};
ghost use Rattle.joint_machine.specs.declared.names.Thread.{Thread};
ghost use Rattle.joint_machine.specs.declared.events.Op.TheVariants.{Line};
ghost use Rattle.joint_machine.specs.Heaps.{slot, heap_line};
ghost use Rattle.joint_machine.specs.Joint.{joint_target};
ghost use Rattle.joint_machine.specs.Lines.{IsLine, IsOneEvent, IsManagedAct, IsPeerAct, IsManagedThread, IsPeerThread};
ghost use Rattle.joint_machine.specs.Lines.{IsHeapAct};
ghost use Rattle.joint_machine.specs.Managed.{managed_line, notices_taken};
ghost use Rattle.joint_machine.specs.Peers.{globalised, name_freed, name_read, on_peer_heap, peer_made, peer_name};
ghost use Rattle.joint_machine.specs.Peers.{peer_read};
ghost use Rattle.joint_machine.specs.Run.{on_managed, on_peers, without, thread_number, joint_line, joint_peer_line};
ghost use Rattle.joint_machine.specs.Run.{is_joint};
ghost use Rattle.joint_replay.specs.Plain.{strength_as};
ghost use Rattle.joint_replay.specs.Judging.{Decides, Gives};

use crate::callers::place_of;
use crate::peers::IssuedStrength;
use crate::removed::remove;
use crate::replies::{Refusal, says_ok};
use crate::state::{JointState, Verdict};
use joint_model::{Act, Reply, Thread, VARS};
use std::alloc::{AllocError, Global};

impl JointState {
    /// A line that is one event of the joint machine.
    pub(crate) fn line(
        &mut self,
        caller: Thread,
        act: &Act,
        reply: &Reply,
    ) -> Result<Verdict, AllocError>
        requires line { IsLine caller act.now }
        requires one { IsOneEvent act.now }
        requires joint { is_joint (Line act.now) ≡ true }
        ensures ok { IfOk result (λ d. Decides
            (Gives (joint_line self.old caller act.now) reply.now) d self.old self.new) }
        ensures err { OnErr result (self.new ≡ self.old) }
    {
        match caller {
            Thread::M(_) => self.managed_line(caller, act, reply),
            Thread::P(_) => self.peer_line(caller, act, reply),
            Thread::C => match act {
                Act::Finalise { n } => Ok(self.finalise(*n, reply)),
                _ => unreachable!(),
            },
        }
    }

    // A line of a managed thread.
    fn managed_line(
        &mut self,
        caller: Thread,
        act: &Act,
        reply: &Reply,
    ) -> Result<Verdict, AllocError>
        requires thread { IsManagedThread caller }
        requires act { IsManagedAct act.now }
        requires one { IsOneEvent act.now }
        ensures ok { IfOk result (λ d. Decides
            (Gives (on_managed self.old (managed_line self.old.graph.managed (thread_number caller) act.now)) reply.now)
            d self.old self.new) }
        ensures err { OnErr result (self.new ≡ self.old) }
    {
        let verdict = self.managed.line(caller, act, reply)?;
        Ok(verdict)
    }

    // `finalise`: the oldest `n` of the waiting notices are taken.
    fn finalise(&mut self, n: u32, reply: &Reply) -> Verdict
        ensures { Decides (Gives (on_managed self.old (notices_taken self.old.graph.managed n)) reply.now)
            result self.old self.new }
    {
        self.managed.finalise(n, reply)
    }

    // A line of a peer thread.
    fn peer_line(&mut self, caller: Thread, act: &Act, reply: &Reply) -> Result<Verdict, AllocError>
        requires thread { IsPeerThread caller }
        requires act { IsPeerAct act.now }
        requires one { IsOneEvent act.now }
        requires joint { is_joint (Line act.now) ≡ true }
        ensures ok { IfOk result (λ d. Decides
            (Gives (joint_peer_line self.old (thread_number caller) act.now) reply.now) d self.old self.new) }
        ensures err { OnErr result (self.new ≡ self.old) }
    {
        match act {
            Act::NewPeer { v, fields } => self.make_peer(place_of(caller, *v), *fields, reply),
            Act::Global { g, v } => {
                let v = place_of(caller, *v);
                self.global(g.0 as usize, v, IssuedStrength::Strong, reply)
            }
            Act::WGlobal { g, v } => {
                let v = place_of(caller, *v);
                self.global(g.0 as usize, v, IssuedStrength::Weak, reply)
            }
            Act::UnGlobal { g } => Ok(self.unglobal(g.0 as usize, reply)),
            Act::WRead { v, g } => { Ok(self.read_name(place_of(caller, *v), g.0 as usize, reply)) }
            _ => Ok(self.plain_peer(caller, act, reply)),
        }
    }

    // An operation of a peer thread that both heaps have.
    fn plain_peer(&mut self, caller: Thread, act: &Act, reply: &Reply) -> Verdict
        requires thread { IsPeerThread caller }
        requires act { IsHeapAct act.now }
        ensures { Decides (Gives (on_peers self.old
            (on_peer_heap self.old.graph.peers
            (heap_line peer_name self.old.graph.peers.heap (thread_number caller) act.now))) reply.now)
            result self.old self.new }
    {
        self.peers.plain(caller, act, reply)
    }

    // `new` of a peer thread.
    fn make_peer(&mut self, v: usize, fields: u8, reply: &Reply) -> Result<Verdict, AllocError>
        requires { v < VARS }
        ensures ok { IfOk result (λ d. Decides
            (Gives (on_peers self.old (peer_made self.old.graph.peers v fields)) reply.now) d self.old self.new) }
        ensures err { OnErr result (self.new ≡ self.old) }
    {
        self.peers.make(v, fields, reply)
    }

    // `global` and `wglobal`: name `g` gets a raw handle on the peer of the variable at place `v`.
    fn global(
        &mut self,
        g: usize,
        v: usize,
        strength: IssuedStrength,
        reply: &Reply,
    ) -> Result<Verdict, AllocError>
        requires g { g < 64 }
        requires v { v < VARS }
        ensures ok { IfOk result (λ d. Decides
            (Gives (on_peers self.old (globalised self.old.graph.peers g v (strength_as strength))) reply.now)
            d self.old self.new) }
        ensures err { OnErr result (self.new ≡ self.old) }
    {
        self.peers
            .globalise(g, v, strength, &mut self.removed, reply)
    }

    // `unglobal`: name `g` is free again, and its handle is removed.
    fn unglobal(&mut self, g: usize, reply: &Reply) -> Verdict
        requires { g < 64 }
        ensures { Decides (Gives (on_peers (without self.old (slot self.old.graph.peers.names g))
            (name_freed self.old.graph.peers g)) reply.now) result self.old self.new }
    {
        let Some(h) = self.peers.name(g) else {
            return Verdict::of(Refusal::Unset.is_said(reply));
        };
        if !says_ok(reply) {
            return Verdict::Unlawful;
        }
        self.peers.set_name(g, None);
        remove(h, &mut self.removed);
        Verdict::Lawful
    }

    // `wread`: the variable at place `v` names the peer to which the handle of name `g` leads.
    fn read_name(&mut self, v: usize, g: usize, reply: &Reply) -> Verdict
        requires v { v < VARS }
        requires g { g < 64 }
        ensures { Decides (Gives (on_peers self.old (name_read (joint_target self.old) self.old.graph.peers v g))
            reply.now) result self.old self.new }
    {
        let Some(h) = self.peers.name(g) else {
            return Verdict::of(Refusal::Unset.is_said(reply));
        };
        let target = self.target(h);
        self.read_peer(v, target, reply)
    }

    // The variable at place `v` names the peer to which a handle leads.
    fn read_peer(&mut self, v: usize, target: Option<u32>, reply: &Reply) -> Verdict
        requires { v < VARS }
        ensures { Decides (Gives (on_peers self.old (peer_read self.old.graph.peers v target)) reply.now)
            result self.old self.new }
    {
        self.peers.read(v, target, reply)
    }
}
