// Whether a cycle was right, and what of it is computed, for programs in C.

ghost use Rattle.std.specs.Prelude.{◌≡◌, ◌≢◌, ℕ, ◌<◌, ◌≤◌, ◌↔◌, ◌⊎◌, List, drop, length};
ghost use Rattle.std.specs.Prelude.{nat_eq, not, take};
ghost use Rattle.joint_machine.specs.Walks.{Reaches};
ghost use Rattle.bridge_graph.specs.declared.packing.Link.{Link};
ghost use Rattle.array_graphs.specs.Graphs.{HasEdge, IsSet, LeadsInRow};
ghost use Rattle.array_graphs.specs.Made.{IsTooLong};
ghost use Rattle.cycle_check.specs.Judging.{AreMarked, IsEarly, IsHeld, IsJudged, IsKept, IsLeft, IsLost, IsObeyed, IsWhole};
ghost use Rattle.cycle_check.specs.Judging.{Loses};
ghost use Rattle.cycle_check.specs.Mirroring.{IsMirrored, IsPassReport, IsTooMuch};
ghost use Rattle.cycle_check.specs.Reports.{IsReport, IsTold, comps_in};
ghost use Rattle.pass_c.specs.Answered.{IsAnswered};

use array_graphs::Stop;
use bridge_graph::Link;
use cycle_check::{Mirror, Outcome, check_kept, check_outcome, make_mirror, resolve};
use std::alloc::Global;

/// All fits together.
pub const OBEYS: u32 = 0;

/// There is no memory.
pub const NO_MEMORY: u32 = 1;

/// The arrays are no graph.
pub const NO_GRAPH: u32 = 2;

/// The arrays are no report.
pub const NO_REPORT: u32 = 3;

/// An array has too few places; the numbers that are needed are told. (Of a mirror alone.)
pub const NO_ROOM: u32 = 3;

/// The arrays are no report with components without members last.
pub const NOT_MIRRORED: u32 = 5;

/// There is too much of something that is numbered in 32 bits.
pub const TOO_MANY: u32 = 4;

/// An object was kept and reaches a bridge object that wasn't.
pub const TORN: u32 = 8;

/// An object was taken as dead that a kept one reaches.
pub const EARLY: u32 = 9;

/// An object wasn't taken as dead that no kept one reaches.
pub const LEFT: u32 = 10;

/// Whether what was kept is closed under what a report tells.
///
/// Component `c` has the members from place `starts[c]` on, up to the start of the next one or to the end. Members are
/// indexes of `kept`, where an object was kept whose element isn't 0. Answers `OBEYS`, or `TORN` with a finding: the
/// first of the two was kept, the second wasn't, and references lead, by none or more steps, from a component with the
/// first to one with the second. Answers `NO_REPORT` exactly where the starts don't rise from 0 to the end, a member is
/// no index, or a reference names no component; `TOO_MANY` exactly where a report has more than 4,294,967,294
/// components or 4,294,967,295 references; and `NO_MEMORY` where there is no memory. The finding is as it was unless it
/// is torn.
#[unsafe(no_mangle)]
pub extern "C" fn cycle_check_kept(
    alloc: Global,
    starts: &[u32],
    members: &[u32],
    xrefs: &[Link],
    kept: &[u8],
    finding: &mut Link,
) -> u32
    ensures status { ((result ≤ 4) × (result ≢ 2)) ⊎ (result ≡ 8) }
    ensures obeys { result ≡ 0 → IsWhole (IsTold (comps_in starts.now members.now) (HasEdge xrefs.now))
        (IsSet kept.now) (λ y. IsSet kept.now y → ⊥) }
    ensures torn { result ≡ 8 → Loses (IsTold (comps_in starts.now members.now) (HasEdge xrefs.now))
        (IsSet kept.now) (λ y. IsSet kept.now y → ⊥) finding.new.from finding.new.to }
    ensures no_report { (result ≡ 3) ↔ (IsReport (length kept.now) starts.now members.now xrefs.now → ⊥) }
    ensures too_many { (result ≡ 4) ↔ (IsReport (length kept.now) starts.now members.now xrefs.now
        × IsTooLong (length starts.now) (length xrefs.now)) }
    ensures untold { result ≢ 8 → finding.new ≡ finding.old }
{
    match check_kept(alloc, starts, members, xrefs, kept) {
        Ok(None) => OBEYS,
        Ok(Some((from, to))) => {
            *finding = Link { from, to };
            TORN
        }
        Err(Stop::Memory) => NO_MEMORY,
        Err(Stop::Graph) => NO_REPORT,
        Err(Stop::TooMany) => TOO_MANY,
    }
}

/// Whether a cycle took as dead exactly what no kept bridge node of a graph in rows reaches.
///
/// The graph is as for `pass_rows`. A bridge node was kept where its element of `kept` isn't 0, and a node was taken as
/// dead where its element of `dead` isn't 0; where `which` isn't 0 the latter is judged for bridge nodes alone. Answers
/// the first that holds: `TORN`, `EARLY`, `LEFT`, or `OBEYS`; the finding has the kept node and the one that it reaches,
/// and for `LEFT` the one node twice. Answers `NO_GRAPH` exactly where the arrays are no graph, or one of the two others
/// hasn't an element for each node; `TOO_MANY` exactly where there are more than 4,294,967,294 nodes or 4,294,967,295
/// targets; and `NO_MEMORY` where there is no memory. The finding is then as it was.
#[unsafe(no_mangle)]
pub extern "C" fn cycle_check_outcome(
    alloc: Global,
    kinds: &[u8],
    row_starts: &[u32],
    targets: &[u32],
    kept: &[u8],
    dead: &[u8],
    which: u32,
    finding: &mut Link,
) -> u32
    ensures status { ((result ≤ 4) × (result ≢ 3)) ⊎ ((8 ≤ result) × (result ≤ 10)) }
    ensures obeys { result ≡ 0 → IsObeyed (LeadsInRow row_starts.now targets.now) (IsKept kinds.now kept.now)
        (IsLost kinds.now kept.now) (IsJudged kinds.now (not (nat_eq which 0))) (IsSet dead.now) }
    ensures torn { result ≡ 8 → Loses (Reaches (LeadsInRow row_starts.now targets.now)) (IsKept kinds.now kept.now)
        (IsLost kinds.now kept.now) finding.new.from finding.new.to }
    ensures early { result ≡ 9 → IsEarly (LeadsInRow row_starts.now targets.now) (IsKept kinds.now kept.now)
        (IsLost kinds.now kept.now) (IsJudged kinds.now (not (nat_eq which 0))) (IsSet dead.now)
        finding.new.from finding.new.to }
    ensures left { result ≡ 10 → IsLeft (LeadsInRow row_starts.now targets.now) (IsKept kinds.now kept.now)
        (IsLost kinds.now kept.now) (IsJudged kinds.now (not (nat_eq which 0))) (IsSet dead.now) finding.new.to }
    ensures no_graph { (result ≡ 2)
        ↔ (AreMarked kinds.now row_starts.now targets.now kept.now dead.now → ⊥) }
    ensures too_many { (result ≡ 4) ↔ (AreMarked kinds.now row_starts.now targets.now kept.now dead.now
        × IsTooLong (length kinds.now) (length targets.now)) }
    ensures untold { result < 8 → finding.new ≡ finding.old }
{
    match check_outcome(alloc, kinds, row_starts, targets, kept, dead, which != 0) {
        Ok(outcome) => tell(outcome, finding),
        Err(Stop::Memory) => NO_MEMORY,
        Err(Stop::Graph) => NO_GRAPH,
        Err(Stop::TooMany) => TOO_MANY,
    }
}

// Tells what was found, and answers its number.
fn tell(outcome: Outcome, finding: &mut Link) -> u32
    ensures answered { IsAnswered outcome result finding.old finding.new }
    ensures status { (result ≡ 0) ⊎ ((8 ≤ result) × (result ≤ 10)) }
{
    let (status, from, to) = match outcome {
        Outcome::Obeys => return OBEYS,
        Outcome::Torn(from, to) => (TORN, from, to),
        Outcome::Early(from, to) => (EARLY, from, to),
        Outcome::Left(node) => (LEFT, node, node),
    };
    *finding = Link { from, to };
    status
}

/// What a cycle has to take as dead, of a graph in rows: writes 1 for each node that no kept bridge node reaches, and 0
/// for each that one reaches.
///
/// Graph and `kept` are as for `cycle_check_outcome`. Answers `OBEYS` where it is written, and `TORN` where a kept
/// bridge node reaches one that wasn't kept; these two are told. Other answers are as there. Unless it is done `dead` is
/// as it was, and unless it is torn what is told.
#[unsafe(no_mangle)]
pub extern "C" fn pass_resolve(
    alloc: Global,
    kinds: &[u8],
    row_starts: &[u32],
    targets: &[u32],
    kept: &[u8],
    dead: &mut [u8],
    torn: &mut Link,
) -> u32
    ensures status { ((result ≤ 4) × (result ≢ 3)) ⊎ (result ≡ 8) }
    ensures whole { result ≡ 0 → IsWhole (Reaches (LeadsInRow row_starts.now targets.now))
        (IsKept kinds.now kept.now) (IsLost kinds.now kept.now) }
    ensures exact { result ≡ 0 → (y : ℕ) → y < length kinds.now → IsSet dead.new y
        ↔ (IsHeld (LeadsInRow row_starts.now targets.now) (IsKept kinds.now kept.now) y → ⊥) }
    ensures torn { result ≡ 8 → Loses (Reaches (LeadsInRow row_starts.now targets.now)) (IsKept kinds.now kept.now)
        (IsLost kinds.now kept.now) torn.new.from torn.new.to }
    ensures no_graph { (result ≡ 2)
        ↔ (AreMarked kinds.now row_starts.now targets.now kept.now dead.old → ⊥) }
    ensures too_many { (result ≡ 4) ↔ (AreMarked kinds.now row_starts.now targets.now kept.now dead.old
        × IsTooLong (length kinds.now) (length targets.now)) }
    ensures kept { result ≢ 0 → dead.new ≡ dead.old }
    ensures untold { result ≢ 8 → torn.new ≡ torn.old }
{
    match resolve(alloc, kinds, row_starts, targets, kept, dead) {
        Ok(None) => OBEYS,
        Ok(Some((from, to))) => {
            *torn = Link { from, to };
            TORN
        }
        Err(Stop::Memory) => NO_MEMORY,
        Err(Stop::Graph) => NO_GRAPH,
        Err(Stop::TooMany) => TOO_MANY,
    }
}

/// How many edges a mirror has, and how many temporaries it leads through.
#[repr(C)]
#[derive(Clone, Copy)]
pub struct MirrorCounts {
    pub edges: usize,
    pub temporaries: u32,
}

/// The mirror edges of a report on so many objects: each component's members on a circle, and for each cross-reference
/// an edge from the first member of its source to that of its destination. A component without members, which comes
/// behind those with some, has a temporary in place of that: the temporaries are the numbers from `objects` on.
///
/// Answers `OBEYS` where the edges are written, `NO_ROOM` where there are too few places for them; in either case the
/// numbers are told. Answers `NOT_MIRRORED` exactly where the arrays are no report, or a component without members comes
/// before one with some; `TOO_MANY` exactly where there are more than 4,294,967,295 objects and components together; and
/// `NO_MEMORY` where there is no memory. Unless it is done the edges are as they were.
#[unsafe(no_mangle)]
pub extern "C" fn pass_mirror(
    alloc: Global,
    objects: usize,
    starts: &[u32],
    members: &[u32],
    xrefs: &[Link],
    edges: &mut [Link],
    counts: &mut MirrorCounts,
) -> u32
    ensures status { (result ≤ 5) × (result ≢ 2) }
    ensures done { result ≡ 0 → IsMirrored objects starts.now members.now xrefs.now
        (take counts.new.edges edges.new) counts.new.temporaries }
    ensures behind { result ≡ 0 → drop counts.new.edges edges.new ≡ drop counts.new.edges edges.old }
    ensures no_room { result ≡ 3 → length edges.old < counts.new.edges }
    ensures needs { result ≡ 3 → (es : List Link) × (length es ≡ counts.new.edges)
        × IsMirrored objects starts.now members.now xrefs.now es counts.new.temporaries }
    ensures not_mirrored { (result ≡ 5) ↔ (IsPassReport objects starts.now members.now xrefs.now → ⊥) }
    ensures too_many { (result ≡ 4) ↔ (IsPassReport objects starts.now members.now xrefs.now
        × IsTooMuch objects starts.now) }
    ensures kept { result ≢ 0 → edges.new ≡ edges.old }
    ensures untold { result ≢ 0 → result ≢ 3 → counts.new ≡ counts.old }
{
    match make_mirror(alloc, objects, starts, members, xrefs) {
        Ok(made) => give_mirror(&made, edges, counts),
        Err(Stop::Memory) => NO_MEMORY,
        Err(Stop::Graph) => NOT_MIRRORED,
        Err(Stop::TooMany) => TOO_MANY,
    }
}

// Writes the edges where there is room for them, and tells the numbers.
fn give_mirror(made: &Mirror, edges: &mut [Link], counts: &mut MirrorCounts) -> u32
    ensures status { (result ≡ 0) ⊎ (result ≡ 3) }
    ensures told { counts.new ≡ record { edges = length made.now.edges.items; temporaries = made.now.temporaries } }
    ensures done { result ≡ 0 → take (length made.now.edges.items) edges.new ≡ made.now.edges.items }
    ensures behind { drop (length made.now.edges.items) edges.new ≡ drop (length made.now.edges.items) edges.old }
    ensures no_room { result ≡ 3 → length edges.old < length made.now.edges.items }
    ensures kept { result ≢ 0 → edges.new ≡ edges.old }
{
    let needed = made.edges.len();
    *counts = MirrorCounts {
        edges: needed,
        temporaries: made.temporaries,
    };
    if edges.len() < needed {
        return NO_ROOM;
    }
    edges[..needed].copy_from_slice(&made.edges);
    OBEYS
}
