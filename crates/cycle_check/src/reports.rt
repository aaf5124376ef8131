// Whether a caller's arrays are a report, and its components.

ghost use Rattle.std.specs.Prelude.{◌≡◌, ◌≢◌, ℕ, ◌<◌, All, Contains, MatchBool, MatchOption, length, slice_index_or};
ghost use Rattle.array_graphs.specs.Graphs.{IsSet};
ghost use Rattle.cycle_check.specs.Reports.{IsReport};

use array_graphs::{are_edges, are_in_order, are_nodes};
use bridge_graph::Link;

/// Whether the arrays are a report on so many objects.
pub(crate) fn is_report(objects: usize, starts: &[u32], members: &[u32], xrefs: &[Link]) -> bool
    ensures { MatchBool result (IsReport objects starts.now members.now xrefs.now)
        (¬ IsReport objects starts.now members.now xrefs.now) }
{
    begins_at_0(starts, members.len())
        && are_in_order(starts, members.len())
        && are_nodes(objects, members)
        && are_edges(starts.len(), xrefs)
}

// Whether the first component begins at 0, or there is none and no member.
fn begins_at_0(starts: &[u32], members: usize) -> bool
    ensures { MatchBool result (slice_index_or starts.now 0 members ≡ 0)
        (slice_index_or starts.now 0 members ≢ 0) }
{
    if starts.is_empty() {
        members == 0
    } else {
        starts[0] == 0
    }
}

/// The first of the objects that is flagged.
pub(crate) fn first_set(objects: &[u32], flags: &[u8]) -> Option<u32>
    requires { All (λ x. x < length flags.now) objects.now }
    ensures { MatchOption result ((x : ℕ) → Contains objects.now x → IsSet flags.now x → ⊥)
        (λ x. Contains objects.now x × IsSet flags.now x) }
{
    for x in objects {
        if flags[*x as usize] != 0 {
            return Some(*x);
        }
    }
    None
}

/// The first of the objects that isn't flagged.
pub(crate) fn first_unset(objects: &[u32], flags: &[u8]) -> Option<u32>
    requires { All (λ x. x < length flags.now) objects.now }
    ensures { MatchOption result ((x : ℕ) → Contains objects.now x → IsSet flags.now x)
        (λ x. Contains objects.now x × (IsSet flags.now x → ⊥)) }
{
    for x in objects {
        if flags[*x as usize] == 0 {
            return Some(*x);
        }
    }
    None
}
