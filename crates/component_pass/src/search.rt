// Nodes, or components, that are found and marked.

ghost use Rattle.std.specs.Prelude.{◌≡◌, ◌<◌, length, All, OnOk, false};
ghost use Rattle.component_pass.specs.Searching.{AreMarked, Visits};

use std::alloc::AllocError;

/// Lists and marks the nodes of a row that are not marked yet.
pub(crate) fn visit(row: &[u32], marks: &mut [bool], found: &mut Vec<u32>) -> Result<(), AllocError>
    requires in_range { All (λ y. y < length marks.old) row.now }
    requires marking { AreMarked marks.old found.old.items }
    ensures marking { OnOk result (AreMarked marks.new found.new.items) }
    ensures visits { OnOk result (Visits row.now found.old.items found.new.items) }
{
    for y in row {
        if !marks[*y as usize] {
            marks[*y as usize] = true;
            found.push(*y)?;
        }
    }
    Ok(())
}

/// Unmarks the nodes that were found.
pub(crate) fn clear(found: &[u32], marks: &mut [bool])
    requires { AreMarked marks.old found.now }
    ensures { All (λ m. m ≡ false) marks.new }
{
    for y in found {
        marks[*y as usize] = false;
    }
}
