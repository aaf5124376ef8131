// From components to a caller's arrays.

ghost use Rattle.std.specs.Prelude.{◌≡◌, ◌^◌, ◌≢◌, ℕ, ◌+◌, ◌<◌, ◌≤◌, ◌⊎◌, ◌++◌, length, map, take, IfSome, Some};
ghost use Rattle.std.specs.Prelude.{slice_get};
ghost use Rattle.pass_c.specs.Found.{all_of, flat};
ghost use Rattle.pass_c.specs.Calls.{Gives};
ghost use Rattle.array_graphs.specs.Graphs.{pair_of};

use crate::arrays::PassCounts;
use crate::{DONE, NO_ROOM, TOO_MANY};
use bridge_graph::Link;
use xref_list::Components;

/// Writes what was found where there is room for all of it. The numbers are told in either case.
pub(crate) fn give(
    found: &Components,
    starts: &mut [u32],
    members: &mut [u32],
    xrefs: &mut [Link],
    counts: &mut PassCounts,
) -> u32
    ensures status { (result ≡ 0) ⊎ (result ≡ 3) ⊎ (result ≡ 4) }
    ensures gives { Gives found.now.comps found.now.heavy
        found.now.pairs result starts.new members.new xrefs.new counts.new }
    ensures kept { result ≢ 0 → (starts.new ≡ starts.old) × (members.new ≡ members.old) × (xrefs.new ≡ xrefs.old) }
    ensures untold { result ≡ 4 → counts.new ≡ counts.old }
{
    let Some(total) = count_members(found, found.heavy()) else {
        return TOO_MANY;
    };
    *counts = PassCounts {
        comps: found.len(),
        heavy: found.heavy(),
        members: total,
        xrefs: found.xrefs(),
    };
    if starts.len() < found.len() as usize
        || members.len() < total as usize
        || xrefs.len() < found.xrefs() as usize
    {
        return NO_ROOM;
    }
    write_members(found, found.heavy(), starts, members);
    write_xrefs(found, xrefs);
    DONE
}

/// The same for the components with members, and pairs between them in place of their cross-references.
pub(crate) fn give_expanded(
    found: &Components,
    pairs: &[Link],
    starts: &mut [u32],
    members: &mut [u32],
    xrefs: &mut [Link],
    counts: &mut PassCounts,
) -> u32
    ensures status { (result ≡ 0) ⊎ (result ≡ 3) ⊎ (result ≡ 4) }
    ensures gives { Gives found.now.comps 0 (map pair_of pairs.now) result starts.new members.new xrefs.new counts.new }
    ensures kept { result ≢ 0 → (starts.new ≡ starts.old) × (members.new ≡ members.old) × (xrefs.new ≡ xrefs.old) }
    ensures untold { result ≡ 4 → counts.new ≡ counts.old }
{
    let Some(total) = count_members(found, 0) else {
        return TOO_MANY;
    };
    let Ok(listed) = u32::try_from(pairs.len()) else {
        return TOO_MANY;
    };
    let comps = found.len() - found.heavy();
    *counts = PassCounts {
        comps,
        heavy: 0,
        members: total,
        xrefs: listed,
    };
    if starts.len() < comps as usize
        || members.len() < total as usize
        || xrefs.len() < pairs.len()
    {
        return NO_ROOM;
    }
    write_members(found, 0, starts, members);
    write_links(pairs, xrefs);
    DONE
}

// How many members the components have, up to so many of those without. None where it isn't a number of 32 bits.
fn count_members(found: &Components, heavy: u32) -> Option<u32>
    requires { heavy ≤ found.now.heavy }
    ensures { IfSome result (λ n. n ≡ length (flat (all_of found.now.comps heavy))) }
{
    let mut total = 0usize;
    for c in 0..found.len() - found.heavy() + heavy {
        total = total.checked_add(found.objs(c).len())?;
    }
    u32::try_from(total).ok()
}

// Writes the members of the components one behind another, up to so many of those without, and where each component
// starts.
fn write_members(found: &Components, heavy: u32, starts: &mut [u32], members: &mut [u32])
    requires heavy { heavy ≤ found.now.heavy }
    requires starts { length (all_of found.now.comps heavy) ≤ length starts.old }
    requires members { length (flat (all_of found.now.comps heavy)) ≤ length members.old }
    requires few { length (flat (all_of found.now.comps heavy)) < 2 ^ 32 }
    ensures starts { (c : ℕ) → c < length (all_of found.now.comps heavy)
        → slice_get starts.new c ≡ Some (length (flat (take c (all_of found.now.comps heavy)))) }
    ensures members { take (length (flat (all_of found.now.comps heavy))) members.new ≡ flat
        (all_of found.now.comps heavy) }
{
    let mut at = 0usize;
    for c in 0..found.len() - found.heavy() + heavy {
        starts[c as usize] = at as u32;
        at = write_row(found.objs(c), members, at);
    }
}

// Writes a row from a place on, and answers the place behind it.
fn write_row(row: &[u32], members: &mut [u32], at: usize) -> usize
    requires { at + length row.now ≤ length members.old }
    ensures end { result ≡ at + length row.now }
    ensures row { take result members.new ≡ take at members.old ++ row.now }
{
    let end = at + row.len();
    members[at..end].copy_from_slice(row);
    end
}

// Writes the cross-references.
fn write_xrefs(found: &Components, xrefs: &mut [Link])
    requires { length found.now.pairs ≤ length xrefs.old }
    ensures { map pair_of (take (length found.now.pairs) xrefs.new) ≡ found.now.pairs }
{
    for i in 0..found.xrefs() {
        let (from, to) = found.xref(i);
        xrefs[i as usize] = Link { from, to };
    }
}

// Writes pairs.
fn write_links(pairs: &[Link], xrefs: &mut [Link])
    requires { length pairs.now ≤ length xrefs.old }
    ensures { take (length pairs.now) xrefs.new ≡ pairs.now }
{
    xrefs[..pairs.len()].copy_from_slice(pairs);
}
