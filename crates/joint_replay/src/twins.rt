// What a managed thread does on the objects, and the search for a peer's twin.

ghost use Rattle.std.specs.Prelude.{◌≡◌, ◌+◌, ◌<◌, IfOk, OnErr, Some, None};
ghost use Rattle.joint_machine.specs.declared.names.Thread.{Thread};
ghost use Rattle.joint_machine.specs.Joint.{is_twin, twin_of};
ghost use Rattle.joint_machine.specs.Lines.{IsManagedThread};
ghost use Rattle.joint_machine.specs.Managed.{adopted, given_up, met};
ghost use Rattle.joint_machine.specs.Run.{on_managed, joint_answer};
ghost use Rattle.joint_replay.specs.Judging.{Decides, Gives, IsObjectEvent};

use crate::callers::place_of;
use crate::peers::IssuedHold;
use crate::state::{JointState, Verdict};
use joint_model::{Kind, Op, Reply, Sort, Thread, VARS};
use std::alloc::AllocError;

impl JointState {
    /// An event of a managed thread on the objects.
    pub(crate) fn on_objects(
        &mut self,
        caller: Thread,
        op: &Op,
        reply: &Reply,
    ) -> Result<Verdict, AllocError>
        requires thread { IsManagedThread caller }
        requires event { IsObjectEvent op.now }
        ensures ok { IfOk result (λ d. Decides
            (Gives (joint_answer self.old caller op.now) reply.now) d self.old self.new) }
        ensures err { OnErr result (self.new ≡ self.old) }
    {
        match op {
            Op::Adopt {
                v,
                kind,
                fields,
                p: _,
                h,
            } => self.adopt(place_of(caller, *v), *kind, *fields, h.0, reply),
            Op::Lend { v, x: _ } => {
                Ok(Verdict::of(self.managed.says_handle(place_of(caller, *v), reply)))
            }
            Op::Meet {
                v,
                p,
                h,
                sort,
                fields,
            } => self.meet(place_of(caller, *v), p.0, h.0, *sort, *fields, reply),
            Op::Give { v } => Ok(self.give(place_of(caller, *v), reply)),
            _ => unreachable!(),
        }
    }

    // `adopt`: a further object that holds a handle.
    fn adopt(
        &mut self,
        v: usize,
        kind: Kind,
        fields: u8,
        h: u32,
        reply: &Reply,
    ) -> Result<Verdict, AllocError>
        requires { v < VARS }
        ensures ok { IfOk result (λ d. Decides
            (Gives (on_managed self.old (adopted self.old.graph.managed v kind fields h)) reply.now)
            d self.old self.new) }
        ensures err { OnErr result (self.new ≡ self.old) }
    {
        self.managed.adopt(v, kind, fields, h, reply)
    }

    // `meet`: the variable at place `v` names the twin of peer `p`, or a new one that holds handle `h`.
    fn meet(
        &mut self,
        v: usize,
        p: u32,
        h: u32,
        sort: Sort,
        fields: u8,
        reply: &Reply,
    ) -> Result<Verdict, AllocError>
        requires { v < VARS }
        ensures ok { IfOk result (λ d. Decides
            (Gives (on_managed self.old (met self.old.graph.managed v h sort fields (twin_of self.old p))) reply.now)
            d self.old self.new) }
        ensures err { OnErr result (self.new ≡ self.old) }
    {
        let twin = self.twin(p);
        self.meet_twin(v, h, sort, fields, twin, reply)
    }

    // `meet`, with the twin that there is.
    fn meet_twin(
        &mut self,
        v: usize,
        h: u32,
        sort: Sort,
        fields: u8,
        twin: Option<u32>,
        reply: &Reply,
    ) -> Result<Verdict, AllocError>
        requires { v < VARS }
        ensures ok { IfOk result (λ d. Decides
            (Gives (on_managed self.old (met self.old.graph.managed v h sort fields twin)) reply.now)
            d self.old self.new) }
        ensures err { OnErr result (self.new ≡ self.old) }
    {
        self.managed.meet(v, h, sort, fields, twin, reply)
    }

    // The twin of a peer: the live object of the least number that holds a held handle on it.
    fn twin(&self, p: u32) -> Option<u32>
        ensures { result ≡ twin_of self.now p }
    {
        for m in 1..self.managed.rows() + 1 {
            if self.is_twin(p, m) {
                return Some(m);
            }
        }
        None
    }

    // Whether the object holds a held handle on the peer.
    fn is_twin(&self, p: u32, m: u32) -> bool
        ensures { result ≡ is_twin self.now p m }
    {
        let Some(h) = self.managed.handle(m) else {
            return false;
        };
        match self.peers.handle(h) {
            None => false,
            Some(row) => matches!(row.hold, IssuedHold::Held) && row.peer == p,
        }
    }

    // `give`: the object of the variable at place `v` gives its handle up.
    fn give(&mut self, v: usize, reply: &Reply) -> Verdict
        requires { v < VARS }
        ensures { Decides (Gives (on_managed self.old (given_up self.old.graph.managed v)) reply.now)
            result self.old self.new }
    {
        self.managed.give(v, reply)
    }
}
