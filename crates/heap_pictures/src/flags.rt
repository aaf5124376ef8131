// Which numbers of a list are there.

ghost use Rattle.std.specs.Prelude.{◌≡◌, IfOk};
ghost use Rattle.heap_pictures.specs.Flags.{AreFlags, Raises, flag_at};

use std::alloc::{AllocError, Global};

/// For each number up to `most` whether it stands in the list.
pub(crate) fn flags_of(alloc: Global, most: u32, numbers: &[u32]) -> Result<Vec<bool>, AllocError>
    ensures { IfOk result (λ flags. AreFlags most numbers.now flags.items) }
{
    let mut flags = vec![in alloc; false; most as usize + 1]?;
    for n in numbers {
        raise(*n, &mut flags);
    }
    Ok(flags)
}

// Raises the flag of a number that has one.
fn raise(n: u32, flags: &mut [bool])
    ensures { Raises n flags.old flags.new }
{
    if (n as usize) < flags.len() {
        flags[n as usize] = true;
    }
}

/// Whether the number's flag is up.
pub(crate) fn has_flag(flags: &[bool], n: u32) -> bool
    ensures { result ≡ flag_at flags.now n }
{
    (n as usize) < flags.len() && flags[n as usize]
}
