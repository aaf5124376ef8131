// Of each handle whether it was removed.

ghost use Rattle.std.specs.Prelude.{◌≡◌, true, length, vec_capacity};
ghost use Rattle.joint_machine.specs.Heaps.{numbered_set};

/// Marks a handle as removed.
pub(crate) fn remove(h: u32, removed: &mut Vec<bool>)
    ensures flags { removed.new.items ≡ numbered_set removed.old.items h true }
    ensures len { length removed.new.items ≡ length removed.old.items }
    ensures capacity { vec_capacity removed.new ≡ vec_capacity removed.old }
{
    if h != 0 && h as usize <= removed.len() {
        removed[h as usize - 1] = true;
    }
}
