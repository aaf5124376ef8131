// The operations that both heaps have: each writes a variable, a static or a field, where the reply is the operation's.

ghost use Rattle.std.specs.Prelude.{◌≡◌, ℕ, ◌<◌, ◌↔◌, IsTrue, Some, None, length};
ghost use Rattle.std.specs.Option.{ForSome};
ghost use Rattle.joint_machine.specs.Heaps.{answer, with_var, copied, field_set, read_into, field_got, dropped, loaded};
ghost use Rattle.joint_machine.specs.Heaps.{heap_line};
ghost use Rattle.joint_machine.specs.Heaps.{stored};
ghost use Rattle.joint_machine.specs.Lines.{IsThread, IsHeapAct};
ghost use Rattle.joint_machine.specs.Run.{thread_number};
ghost use Rattle.joint_replay.specs.Judging.{Decides, Gives};
ghost use Rattle.joint_replay.specs.Operations.{name_of};

use crate::callers::{place_of, place_or_none};
use crate::heap::PlainHeap;
use crate::replies::{Refusal, says_ok};
use crate::state::Verdict;
use joint_model::{Act, Reply, Thread, VARS};

/// How replies name the objects of a heap.
#[derive(Clone, Copy)]
pub(crate) enum Naming {
    Objects,
    Peers,
}

impl Naming {
    /// Whether the reply names object `x`.
    pub(crate) fn names(self, x: u32, reply: &Reply) -> bool
        ensures { IsTrue result ↔ (reply.now ≡ name_of self x) }
    {
        match self {
            Naming::Objects => match reply {
                Reply::M(m) => m.0 == x,
                _ => false,
            },
            Naming::Peers => match reply {
                Reply::P(p) => p.0 == x,
                _ => false,
            },
        }
    }
}

impl PlainHeap {
    /// An operation of a thread that both heaps have.
    pub(crate) fn line(
        &mut self,
        naming: Naming,
        caller: Thread,
        act: &Act,
        reply: &Reply,
    ) -> Verdict
        requires thread { IsThread caller }
        requires act { IsHeapAct act.now }
        ensures verdict { Decides (Gives (heap_line (name_of naming) self.old (thread_number caller) act.now)
            reply.now) result self.old self.new }
        ensures freed { self.new.freed ≡ self.old.freed }
        ensures made { length self.new.fields ≡ length self.old.fields }
    {
        match act {
            Act::Copy { v, w } => {
                self.copy(naming, place_of(caller, *v), place_of(caller, *w), reply)
            }
            Act::Set { v, i, w } => self.set(
                place_of(caller, *v),
                *i as usize,
                place_or_none(caller, *w),
                reply,
            ),
            Act::Get { v, w, i } => self.get(
                naming,
                place_of(caller, *v),
                place_of(caller, *w),
                *i as usize,
                reply,
            ),
            Act::Drop { v } => self.drop_var(place_of(caller, *v), reply),
            Act::Load { v, x } => { self.load(naming, place_of(caller, *v), x.0 as usize, reply) }
            Act::Store { x, v } => self.store(x.0 as usize, place_or_none(caller, *v), reply),
            _ => unreachable!(),
        }
    }

    // `copy`: the variable at place `v` names the object of the one at place `w`.
    fn copy(&mut self, naming: Naming, v: usize, w: usize, reply: &Reply) -> Verdict
        requires v { v < VARS }
        requires w { w < VARS }
        ensures verdict { Decides (Gives (copied (name_of naming) self.old v w) reply.now) result self.old self.new }
        ensures freed { self.new.freed ≡ self.old.freed }
        ensures made { length self.new.fields ≡ length self.old.fields }
    {
        match self.var(w) {
            None => Verdict::of(Refusal::Empty.is_said(reply)),
            Some(x) => self.name(naming, v, x, reply),
        }
    }

    // `set`: field `i` of the object of the variable at place `v` holds the object of the variable `w`, or nothing.
    fn set(&mut self, v: usize, i: usize, w: Option<usize>, reply: &Reply) -> Verdict
        requires v { v < VARS }
        requires w { ForSome w (λ place. place < VARS) }
        ensures verdict { Decides (Gives (field_set self.old v i w) reply.now) result self.old self.new }
        ensures freed { self.new.freed ≡ self.old.freed }
        ensures made { length self.new.fields ≡ length self.old.fields }
    {
        match self.target(v, i, w) {
            Err(refusal) => Verdict::of(refusal.is_said(reply)),
            Ok(place) => {
                if !says_ok(reply) {
                    return Verdict::Unlawful;
                }
                self.write(&place);
                Verdict::Lawful
            }
        }
    }

    // `get`: the variable at place `v` names the object in field `i` of the object of the one at place `w`.
    fn get(&mut self, naming: Naming, v: usize, w: usize, i: usize, reply: &Reply) -> Verdict
        requires v { v < VARS }
        requires w { w < VARS }
        ensures verdict { Decides (Gives (field_got (name_of naming) self.old v w i) reply.now)
            result self.old self.new }
        ensures freed { self.new.freed ≡ self.old.freed }
        ensures made { length self.new.fields ≡ length self.old.fields }
    {
        let Some(x) = self.var(w) else {
            return Verdict::of(Refusal::Empty.is_said(reply));
        };
        if self.fields_len(x) <= i {
            return Verdict::of(Refusal::Range.is_said(reply));
        }
        let found = self.field(x, i);
        self.read(naming, v, found, reply)
    }

    // `drop`: the variable at place `v` names nothing.
    fn drop_var(&mut self, v: usize, reply: &Reply) -> Verdict
        requires { v < VARS }
        ensures verdict { Decides (Gives (dropped self.old v) reply.now) result self.old self.new }
        ensures freed { self.new.freed ≡ self.old.freed }
        ensures made { length self.new.fields ≡ length self.old.fields }
    {
        if !says_ok(reply) {
            return Verdict::Unlawful;
        }
        self.set_var(v, None);
        Verdict::Lawful
    }

    // `load`: the variable at place `v` names the object of static `x`.
    fn load(&mut self, naming: Naming, v: usize, x: usize, reply: &Reply) -> Verdict
        requires v { v < VARS }
        requires x { x < 16 }
        ensures verdict { Decides (Gives (loaded (name_of naming) self.old v x) reply.now) result self.old self.new }
        ensures freed { self.new.freed ≡ self.old.freed }
        ensures made { length self.new.fields ≡ length self.old.fields }
    {
        let found = self.static_at(x);
        self.read(naming, v, found, reply)
    }

    // `store`: static `x` holds the object of the variable at place `v`, or nothing.
    fn store(&mut self, x: usize, v: Option<usize>, reply: &Reply) -> Verdict
        requires x { x < 16 }
        requires v { ForSome v (λ place. place < VARS) }
        ensures verdict { Decides (Gives (stored self.old x v) reply.now) result self.old self.new }
        ensures freed { self.new.freed ≡ self.old.freed }
        ensures made { length self.new.fields ≡ length self.old.fields }
    {
        let value = match v {
            None => None,
            Some(place) => {
                let y = self.var(place);
                if y.is_none() {
                    return Verdict::of(Refusal::Empty.is_said(reply));
                }
                y
            }
        };
        if !says_ok(reply) {
            return Verdict::Unlawful;
        }
        self.set_static(x, value);
        Verdict::Lawful
    }

    // The variable at place `v` names what was read, or nothing.
    fn read(&mut self, naming: Naming, v: usize, found: Option<u32>, reply: &Reply) -> Verdict
        requires { v < VARS }
        ensures verdict { Decides (Gives (read_into (name_of naming) self.old v found) reply.now)
            result self.old self.new }
        ensures freed { self.new.freed ≡ self.old.freed }
        ensures made { length self.new.fields ≡ length self.old.fields }
    {
        let Some(x) = found else {
            if !Refusal::Null.is_said(reply) {
                return Verdict::Unlawful;
            }
            self.set_var(v, None);
            return Verdict::Lawful;
        };
        self.name(naming, v, x, reply)
    }

    // The variable at place `v` names object `x`, and the reply says so.
    fn name(&mut self, naming: Naming, v: usize, x: u32, reply: &Reply) -> Verdict
        requires { v < VARS }
        ensures verdict { Decides (Gives (answer (name_of naming x) (with_var self.old v (Some x))) reply.now)
            result self.old self.new }
        ensures freed { self.new.freed ≡ self.old.freed }
        ensures made { length self.new.fields ≡ length self.old.fields }
    {
        if !naming.names(x, reply) {
            return Verdict::Unlawful;
        }
        self.set_var(v, Some(x));
        Verdict::Lawful
    }
}
