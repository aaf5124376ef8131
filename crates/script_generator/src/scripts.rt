// A generated script.

ghost use Rattle.std.specs.Prelude.{◌≡◌, ◌≤◌, IfOk};
ghost use Rattle.script_generator.specs.Generated.{generated};

use crate::families::{push_cycle, push_family};
use bridge_script::{MOST_LINES, Script};
use joint_model::{Act, Thread, list_with_room};
use std::alloc::{AllocError, Global};

// The lines of a script of so many families.
fn lines_of(alloc: Global, seed: u64, size: u32) -> Result<Vec<(Thread, Act)>, AllocError>
    requires { size ≤ 2800 }
    ensures { IfOk result (λ lines. lines.items ≡ generated seed size) }
{
    let mut lines = list_with_room(alloc, MOST_LINES);
    for i in 0..size {
        push_family(&mut lines, seed, i)?;
        push_cycle(&mut lines, i)?;
    }
    Ok(lines)
}

/// The script of `size` families from the seed's shape on, at most 2,800 of them. Answers `AllocError` where there is
/// no memory for its lines.
pub fn generate(alloc: Global, seed: u64, size: u32) -> Result<Script, AllocError>
    requires { size ≤ 2800 }
    ensures { IfOk result (λ script. script ≡ generated seed size) }
{
    Ok(Script::of_lines(lines_of(alloc, seed, size)?))
}
