// A cell of a new side.

use crate::managed::M1;
use joint_model::{Cell, Counter, Holding, Reply, Var};
use managed_heap::ManagedSide;
use std::alloc::{AllocError, Global};
use std::test::Fail;

// What `weak` answers on a new side, where no variable names an object. (What it answers for an object is in worked
// scripts: a second call on one side asks for the state that the first left, which is dear to prove.)
fn weak_of_nothing(alloc: Global) -> Result<Reply, AllocError> {
    let mut side = ManagedSide::new(alloc, 8, Holding::Every)?;
    let mut draw = Counter::new();
    let made = side.weak(&mut draw, M1, 1, Cell(63), Var(0), 0);
    drop(side);
    made
}

#[test]
fn a_cell_is_set_to_no_empty_variable(rt: HostRuntime) -> Result<(), Fail> {
    assert!(rt; weak_of_nothing(rt.alloc())? == Reply::Empty);
    Ok(())
}
