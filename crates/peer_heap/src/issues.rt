// Handles as they were issued, which only proofs see: a program needs the rows of the table alone, and numbers have no
// end.

ghost use Rattle.std.specs.Prelude.{◌≡◌, ◌<◌, ◌++◌, [], ◌∷◌, IfOk, length};

use global_handles::{Hold, Strength};
use joint_model::PNum;
use std::alloc::{AllocError, Global};
use std::marker::Model;
use std::snapshot::Snapshot;

/// A handle as it was issued.
#[derive(Clone, Copy)]
pub(crate) struct Issue {
    pub(crate) peer: PNum,
    pub(crate) hold: Hold,
    pub(crate) strength: Strength,
}

/// The handles that were ever issued, in the order of their numbers. They take no bytes, so there is room for all from
/// the start.
#[derive(Drop)]
pub(crate) struct Issues {
    list: Vec<Snapshot<Issue>>,
}

impl Model for Issues {
    ghost use Rattle.std.specs.Prelude.{List, map, vec_capacity, ◌≤◌};
    ghost use Rattle.peer_heap.specs.declared.issues.Issue.{Issue};
    ghost use Rattle.joint_machine.specs.Numbers.{u32_max};

    ghost Value = { List Issue };

    ghost view = { λ s. map (λ i. i.value) s.list.items };

    ghost invariant = { λ s. u32_max ≤ vec_capacity s.list };
}

impl Issues {
    /// No handle was issued.
    pub(crate) fn new(alloc: Global) -> Result<Issues, AllocError>
        ensures { IfOk result (λ issued. issued ≡ []) }
    {
        let mut list = Vec::new(alloc);
        list.reserve(u32::MAX as usize)?;
        Ok(Issues { list })
    }

    /// A further handle was issued.
    pub(crate) fn push(&mut self, issue: Issue)
        requires { length self.old < u32.MAX }
        ensures { self.new ≡ self.old ++ issue ∷ [] }
    {
        self.list.push_reserved(Snapshot::of(&issue));
    }
}

const _: () = prove!(size_of::<Snapshot<Issue>>() == 0);
