// The cycles.

use global_handles::{HandleTable, Hold, Strength};
use joint_model::{HNum, PNum};
use std::alloc::{AllocError, Global};

/// Makes so many held strong handles, each on a peer of its own. Answers `AllocError` where there is no memory.
pub(crate) fn make_all(
    alloc: Global,
    table: &mut HandleTable,
    count: u16,
) -> Result<Vec<HNum>, AllocError> {
    let mut handles = Vec::with_capacity(alloc, usize::from(count))?;
    for p in 0..count {
        if table.last() < u32::MAX {
            let Ok(h) = table.make(PNum(u32::from(p)), Hold::Held, Strength::Strong) else {
                return Err(AllocError);
            };
            handles.push(h)?;
        }
    }
    Ok(handles)
}

// Makes all handles weak. Answers whether all were strong.
fn weaken_all(table: &mut HandleTable, handles: &[HNum]) -> bool {
    for h in handles {
        match table.row(*h) {
            Some(row) if row.strength == Strength::Strong => table.weaken(*h),
            _ => return false,
        }
    }
    true
}

// Restores a handle, and answers the new one; None where it is in no row, or no number is left.
fn restore(table: &mut HandleTable, h: HNum) -> Option<HNum> {
    if table.last() == u32::MAX {
        return None;
    }
    let _ = table.row(h)?;
    let (back, _) = table.restore(h);
    back.given()
}

// Restores all handles, which the new ones take the places of. Answers whether each came back.
fn restore_all(table: &mut HandleTable, handles: &mut [HNum]) -> bool {
    for i in 0..handles.len() {
        let Some(given) = restore(table, handles[i]) else {
            return false;
        };
        handles[i] = given;
    }
    true
}

/// Runs so many cycles over the handles. Answers whether each was weakened and came back in each of them.
pub(crate) fn run_cycles(table: &mut HandleTable, handles: &mut [HNum], cycles: u32) -> bool {
    for _ in 0..cycles {
        if !weaken_all(table, handles) || !restore_all(table, handles) {
            return false;
        }
    }
    true
}
