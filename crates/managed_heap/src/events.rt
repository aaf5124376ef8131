// The events of a step, each by its own call.

ghost use Rattle.std.specs.Prelude.{◌≡◌, ℕ, List, ◌++◌, IfOk, OnErr};
ghost use Rattle.joint_machine.specs.Heaps.{answer};
ghost use Rattle.joint_machine.specs.Lines.{IsManagedAct, IsManagedThread};
ghost use Rattle.joint_machine.specs.Managed.{managed_line};
ghost use Rattle.joint_machine.specs.ManagedReplay.{managed_answer};
ghost use Rattle.joint_machine.specs.Run.{thread_number};
ghost use Rattle.joint_machine.specs.Told.{nothing};
ghost use Rattle.managed_heap.specs.Rows.{RowsInvariant, with_adopted};
ghost use Rattle.managed_heap.specs.Steps.{IsManagedStep, IsStepAct, adopted_by};

use crate::lines::{place, place_or_none};
use crate::rows::ManagedRows;
use joint_model::{Act, Op, Reply, Thread};
use std::alloc::AllocError;

impl ManagedRows {
    // A line of a managed thread that is one event, but for `weak`, `take` and reads. It stands in line, as a step does:
    // a reply that a call leaves in memory is written in parts and read at once, which a processor does slowly.
    #[inline(always)]
    fn line(&mut self, caller: Thread, act: &Act) -> Result<Reply, AllocError>
        requires thread { IsManagedThread caller }
        requires act { IsManagedAct act.now }
        requires line { IsStepAct act.now }
        requires kept { RowsInvariant self.old }
        ensures answer { IfOk result (λ r. managed_line self.old.managed
            (thread_number caller) act.now ≡ answer r self.new.managed) }
        ensures rest { self.new ≡ record self.old { managed = self.new.managed } }
        ensures err { OnErr result (self.new ≡ self.old) }
    {
        match act {
            Act::New { v, kind, fields } => self.make(place(caller, *v), *kind, *fields),
            Act::Handle { v } => Ok(self.handle_at(place(caller, *v))),
            Act::Copy { v, w } => Ok(self.copy(place(caller, *v), place(caller, *w))),
            Act::Set { v, i, w } => Ok(self.set(
                place(caller, *v),
                *i as usize,
                place_or_none(caller, *w),
            )),
            Act::Get { v, w, i } => {
                Ok(self.get(place(caller, *v), place(caller, *w), *i as usize))
            }
            Act::Drop { v } => Ok(self.drop_var(place(caller, *v))),
            Act::Load { v, x } => Ok(self.load(place(caller, *v), x.0 as usize)),
            Act::Store { x, v } => Ok(self.store(x.0 as usize, place_or_none(caller, *v))),
            _ => unreachable!(),
        }
    }

    /// The event of a step. Answers `AllocError`, with the rows as before, where there is no memory.
    #[inline(always)]
    pub(crate) fn step(&mut self, caller: Thread, op: &Op) -> Result<Reply, AllocError>
        requires step { IsManagedStep caller op.now }
        requires kept { RowsInvariant self.old }
        ensures answer { IfOk result (λ r. (hs : List ℕ)
            → managed_answer (with_adopted self.old hs) caller op.now nothing ≡ answer r
            (with_adopted self.new (hs ++ adopted_by op.now r))) }
        ensures err { OnErr result (self.new ≡ self.old) }
    {
        match op {
            Op::Line(Act::Finalise { n }) => Ok(self.finalise(*n)),
            Op::Line(act) => self.line(caller, act),
            Op::Lend { v, x: _ } => Ok(self.handle_at(place(caller, *v))),
            Op::Adopt {
                v,
                kind,
                fields,
                p,
                h,
            } => { self.adopt(place(caller, *v), *kind, *fields, *p, *h) }
            Op::Meet {
                v,
                p,
                h,
                sort,
                fields,
            } => { self.meet(place(caller, *v), *p, *h, *sort, *fields) }
            Op::Give { v } => Ok(self.give(place(caller, *v))),
            _ => unreachable!(),
        }
    }
}
