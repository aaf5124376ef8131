// The targets of weak cells, which only proofs see: what a reader loads is the cell's word in the order.

ghost use Rattle.std.specs.Prelude.{◌≡◌, ◌<◌, [], slice_set, map, replicate, None, Some, IfOk, OnOk};

use joint_model::CELLS;
use std::alloc::{AllocError, Global};
use std::marker::Model;
use std::snapshot::Snapshot;

/// The targets of the cells. They take no bytes.
#[derive(Drop)]
pub(crate) struct Cells {
    list: Vec<Snapshot<Option<u32>>>,
}

impl Model for Cells {
    ghost use Rattle.std.specs.Prelude.{ℕ, List, Option, map, vec_len, ◌≡◌};

    ghost Value = { List (Option ℕ) };

    ghost view = { λ s. map (λ c. c.value) s.list.items };

    ghost invariant = { λ s. vec_len s.list ≡ 64 };
}

impl Cells {
    /// Cells that aren't set.
    pub(crate) fn new(alloc: Global) -> Result<Cells, AllocError>
        ensures { IfOk result (λ c. c ≡ replicate 64 None) }
    {
        let mut list = Vec::new(alloc);
        match unset(&mut list) {
            Ok(()) => Ok(Cells { list }),
            Err(error) => {
                drop(list);
                Err(error)
            }
        }
    }

    /// Sets one.
    pub(crate) fn set(&mut self, k: usize, x: u32)
        requires { k < 64 }
        ensures { self.new ≡ slice_set self.old k (Some x) }
    {
        self.list[k] = Snapshot::of(&Some(x));
    }
}

// Puts so many cells into an empty list, of which none is set.
fn unset(list: &mut Vec<Snapshot<Option<u32>>>) -> Result<(), AllocError>
    requires { list.old.items ≡ [] }
    ensures { OnOk result (map (λ c. c.value) list.new.items ≡ replicate 64 None) }
{
    for _ in 0..CELLS {
        list.push(Snapshot::of(&None))?;
    }
    Ok(())
}

const _: () = prove!(size_of::<Snapshot<Option<u32>>>() == 0);
