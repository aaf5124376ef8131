// The handles that rows ever took, which only proofs see: no call answers them, and numbers have no end.

ghost use Rattle.std.specs.Prelude.{◌≡◌, ◌<◌, ◌++◌, [], ◌∷◌, IfOk, length};
ghost use Rattle.joint_model.specs.Listed.{answers_of};
ghost use Rattle.joint_machine.specs.Told.{handles_given};
ghost use Rattle.managed_heap.specs.Steps.{adopted_by};

use joint_model::{Alive, Op, Reply};
use std::alloc::{AllocError, Global};
use std::marker::Model;
use std::snapshot::Snapshot;

/// What gave handles to rows: an event with its reply, or what the candidates of a resolution were answered.
#[derive(Drop)]
pub(crate) enum Taking {
    ByEvent(Op, Reply),
    ByAnswers(Snapshot<Alive>),
}

/// The handles that rows ever took, by what gave them. They take no bytes, so there is room for all from the start.
#[derive(Drop)]
pub(crate) struct Takings {
    list: Vec<Snapshot<Taking>>,
}

impl Model for Takings {
    ghost use Rattle.std.specs.Prelude.{ℕ, List, map, vec_capacity, ◌≤◌};
    ghost use Rattle.managed_heap.specs.Takings.{given_by};
    ghost use Rattle.joint_machine.specs.Numbers.{u32_max};

    ghost Value = { List (List ℕ) };

    ghost view = { λ s. map (λ t. given_by t.value) s.list.items };

    ghost invariant = { λ s. u32_max ≤ vec_capacity s.list };
}

impl Takings {
    /// No row took a handle.
    pub(crate) fn new(alloc: Global) -> Result<Takings, AllocError>
        ensures { IfOk result (λ takings. takings ≡ []) }
    {
        let mut list = Vec::new(alloc);
        list.reserve(u32::MAX as usize)?;
        Ok(Takings { list })
    }

    /// An event had this reply: the row that it made, if it made one that adopts a handle, took that.
    pub(crate) fn push_event(&mut self, op: &Op, reply: Reply)
        requires { length self.old < u32.MAX }
        ensures { self.new ≡ self.old ++ adopted_by op.now reply ∷ [] }
    {
        self.list
            .push_reserved(Snapshot::of(&Taking::ByEvent(*op, reply)));
    }

    /// The candidates of a resolution were answered so: each that is kept took the handle that its restore gave.
    pub(crate) fn push_answers(&mut self, alive: &Alive)
        requires { length self.old < u32.MAX }
        ensures { self.new ≡ self.old ++ handles_given (answers_of alive.now.values) ∷ [] }
    {
        self.list
            .push_reserved(Snapshot::of(&Taking::ByAnswers(Snapshot::of(alive))));
    }
}

const _: () = prove!(size_of::<Snapshot<Taking>>() == 0);
