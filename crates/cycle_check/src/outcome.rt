// What a cycle took as dead, by the graph.

ghost use Rattle.std.specs.Prelude.{◌≡◌, ◌^◌, ℕ, ◌<◌, ◌≤◌, ◌↔◌, ◌⊎◌, Contains, Err, IfOk, MatchBool, MatchOption, None, Ok, length, slice_index, slice_index_or, true, false};
ghost use Rattle.joint_machine.specs.Walks.{Reaches};
ghost use Rattle.array_graphs.specs.Graphs.{AreRows, IsSet, LeadsInRow};
ghost use Rattle.array_graphs.specs.Made.{IsTooLong};
ghost use Rattle.reachability.specs.Marks.{HasMark};
ghost use Rattle.cycle_check.specs.Walking.{IsEarlyAt, IsHolding, IsLeftAt, IsTornAt};
ghost use Rattle.cycle_check.specs.Judging.{AreMarked, IsHeld, IsJudged, IsKept, IsLost, IsWhole, Loses, Says};

use crate::reaching::{first_root, mark_rows};
use array_graphs::{MOST_EDGES, MOST_NODES, Stop, are_rows};
use std::alloc::{AllocError, Global};

/// What is found of a cycle's outcome.
#[derive(Clone, Copy, PartialEq, Eq, Debug)]
pub enum Outcome {
    /// What was taken as dead is exactly what no kept bridge node reaches, and what was kept is closed.
    Obeys,
    /// The first node was kept, and reaches the second, a bridge node that wasn't.
    Torn(u32, u32),
    /// The first node was kept, and reaches the second, which was taken as dead.
    Early(u32, u32),
    /// The node wasn't taken as dead, and no kept one reaches it.
    Left(u32),
}

/// Whether a cycle took as dead exactly what no kept bridge node reaches: the first finding in the order of its cases.
/// Node `x` was kept where `kept[x]` isn't 0, which is read for bridge nodes, and taken as dead where `dead[x]` isn't 0.
/// With `bridges` the latter is judged for bridge nodes alone.
///
/// Answers `Graph` exactly where the arrays are no graph in rows, or `kept` or `dead` hasn't an element for each node,
/// `TooMany` exactly where there are more than 4,294,967,294 nodes or 4,294,967,295 edges, and `Memory` where there is no
/// memory.
pub fn check_outcome(
    alloc: Global,
    kinds: &[u8],
    starts: &[u32],
    targets: &[u32],
    kept: &[u8],
    dead: &[u8],
    bridges: bool,
) -> Result<Outcome, Stop>
    ensures says { IfOk result (Says (LeadsInRow starts.now targets.now) (IsKept kinds.now kept.now)
        (IsLost kinds.now kept.now) (IsJudged kinds.now bridges) (IsSet dead.now)) }
    ensures graph { (result ≡ Err Stop.Graph)
        ↔ (AreMarked kinds.now starts.now targets.now kept.now dead.now → ⊥) }
    ensures many { (result ≡ Err Stop.TooMany) ↔ (AreMarked kinds.now starts.now targets.now kept.now dead.now
        × IsTooLong (length kinds.now) (length targets.now)) }
{
    if !are_marked(kinds, starts, targets, kept, dead) {
        return Err(Stop::Graph);
    }
    if kinds.len() > MOST_NODES || targets.len() > MOST_EDGES {
        return Err(Stop::TooMany);
    }
    Ok(judge(alloc, kinds, starts, targets, kept, dead, bridges)?)
}

/// Tells what a cycle has to take as dead: writes 1 for each node that no kept bridge node reaches, and 0 for each that
/// one reaches. Where a kept one reaches a bridge node that wasn't kept nothing is written, and both are answered.
///
/// Answers errors as `check_outcome` does; nothing is written then.
pub fn resolve(
    alloc: Global,
    kinds: &[u8],
    starts: &[u32],
    targets: &[u32],
    kept: &[u8],
    dead: &mut [u8],
) -> Result<Option<(u32, u32)>, Stop>
    ensures torn { IfOk result (λ o. MatchOption o
        (IsWhole (Reaches (LeadsInRow starts.now targets.now)) (IsKept kinds.now kept.now) (IsLost kinds.now kept.now))
        (λ w. Loses (Reaches (LeadsInRow starts.now targets.now)) (IsKept kinds.now kept.now)
        (IsLost kinds.now kept.now) w.0 w.1)) }
    ensures exact { IfOk result (λ o. o ≡ None → (y : ℕ) → y < length kinds.now
        → IsSet dead.new y ↔ (IsHeld (LeadsInRow starts.now targets.now) (IsKept kinds.now kept.now) y → ⊥)) }
    ensures same { (result ≡ Ok None → ⊥) → dead.new ≡ dead.old }
    ensures graph { (result ≡ Err Stop.Graph)
        ↔ (AreMarked kinds.now starts.now targets.now kept.now dead.old → ⊥) }
    ensures many { (result ≡ Err Stop.TooMany) ↔ (AreMarked kinds.now starts.now targets.now kept.now dead.old
        × IsTooLong (length kinds.now) (length targets.now)) }
{
    if !are_marked(kinds, starts, targets, kept, dead) {
        return Err(Stop::Graph);
    }
    if kinds.len() > MOST_NODES || targets.len() > MOST_EDGES {
        return Err(Stop::TooMany);
    }
    Ok(write_resolved(alloc, kinds, starts, targets, kept, dead)?)
}

// The same of arrays that are a graph.
fn write_resolved(
    alloc: Global,
    kinds: &[u8],
    starts: &[u32],
    targets: &[u32],
    kept: &[u8],
    dead: &mut [u8],
) -> Result<Option<(u32, u32)>, AllocError>
    requires rows { AreRows (length kinds.now) starts.now targets.now }
    requires few { length kinds.now < u32.MAX }
    requires kept { length kept.now ≡ length kinds.now }
    requires dead { length dead.old ≡ length kinds.now }
    ensures torn { IfOk result (λ o. MatchOption o
        (IsWhole (Reaches (LeadsInRow starts.now targets.now)) (IsKept kinds.now kept.now) (IsLost kinds.now kept.now))
        (λ w. Loses (Reaches (LeadsInRow starts.now targets.now)) (IsKept kinds.now kept.now)
        (IsLost kinds.now kept.now) w.0 w.1)) }
    ensures exact { IfOk result (λ o. o ≡ None → (y : ℕ) → y < length kinds.now
        → IsSet dead.new y ↔ (IsHeld (LeadsInRow starts.now targets.now) (IsKept kinds.now kept.now) y → ⊥)) }
    ensures same { (result ≡ Ok None → ⊥) → dead.new ≡ dead.old }
{
    let held = mark_held(alloc, kinds, starts, targets, kept)?;
    let torn = torn_pair(
        alloc,
        kinds,
        starts,
        targets,
        kept,
        &held.marks,
        &held.roots,
    )?;
    match torn {
        None => {
            write_dead(&held.marks, dead);
            Ok(None)
        }
        Some(pair) => Ok(Some(pair)),
    }
}

// Whether the arrays are a graph, with a flag of either kind for each node.
fn are_marked(kinds: &[u8], starts: &[u32], targets: &[u32], kept: &[u8], dead: &[u8]) -> bool
    ensures { MatchBool result (AreMarked kinds.now starts.now targets.now kept.now dead.now)
        (¬ AreMarked kinds.now starts.now targets.now kept.now dead.now) }
{
    kept.len() == kinds.len() && dead.len() == kinds.len() && are_rows(kinds.len(), starts, targets)
}

// The kept bridge nodes, and a mark for each node that one of them reaches.
#[derive(Drop)]
struct Held {
    roots: Vec<u32>,
    marks: Vec<bool>,
}

fn mark_held(
    alloc: Global,
    kinds: &[u8],
    starts: &[u32],
    targets: &[u32],
    kept: &[u8],
) -> Result<Held, AllocError>
    requires rows { AreRows (length kinds.now) starts.now targets.now }
    requires few { length kinds.now < u32.MAX }
    requires kept { length kept.now ≡ length kinds.now }
    ensures { IfOk result (λ h. IsHolding kinds.now starts.now targets.now kept.now h.marks.items h.roots.items) }
{
    let roots = list_kept(alloc, kinds, kept)?;
    let marks = mark_rows(alloc, starts, targets, &roots)?;
    Ok(Held { roots, marks })
}

// The first bridge node that wasn't kept and is held, behind the first that reaches it.
fn torn_pair(
    alloc: Global,
    kinds: &[u8],
    starts: &[u32],
    targets: &[u32],
    kept: &[u8],
    marks: &[bool],
    roots: &[u32],
) -> Result<Option<(u32, u32)>, AllocError>
    requires rows { AreRows (length kinds.now) starts.now targets.now }
    requires few { length kinds.now < u32.MAX }
    requires kept { length kept.now ≡ length kinds.now }
    requires held { IsHolding kinds.now starts.now targets.now kept.now marks.now roots.now }
    ensures { IfOk result (λ o. MatchOption o
        (IsWhole (Reaches (LeadsInRow starts.now targets.now)) (IsKept kinds.now kept.now) (IsLost kinds.now kept.now))
        (λ w. Loses (Reaches (LeadsInRow starts.now targets.now)) (IsKept kinds.now kept.now)
        (IsLost kinds.now kept.now) w.0 w.1)) }
{
    let Some(y) = first_torn(kinds, kept, marks) else {
        return Ok(None);
    };
    let x = first_root(alloc, starts, targets, roots, y)?;
    Ok(Some((x, y)))
}

// The finding of arrays that are a graph.
fn judge(
    alloc: Global,
    kinds: &[u8],
    starts: &[u32],
    targets: &[u32],
    kept: &[u8],
    dead: &[u8],
    bridges: bool,
) -> Result<Outcome, AllocError>
    requires rows { AreRows (length kinds.now) starts.now targets.now }
    requires few { length kinds.now < u32.MAX }
    requires kept { length kept.now ≡ length kinds.now }
    requires dead { length dead.now ≡ length kinds.now }
    ensures { IfOk result (Says (LeadsInRow starts.now targets.now) (IsKept kinds.now kept.now)
        (IsLost kinds.now kept.now) (IsJudged kinds.now bridges) (IsSet dead.now)) }
{
    let held = mark_held(alloc, kinds, starts, targets, kept)?;
    match torn_pair(
        alloc,
        kinds,
        starts,
        targets,
        kept,
        &held.marks,
        &held.roots,
    )? {
        Some(pair) => Ok(Outcome::Torn(pair.0, pair.1)),
        None => judge_dead(
            alloc,
            kinds,
            starts,
            targets,
            kept,
            dead,
            bridges,
            &held.marks,
            &held.roots,
        ),
    }
}

// The finding where what was kept is closed.
fn judge_dead(
    alloc: Global,
    kinds: &[u8],
    starts: &[u32],
    targets: &[u32],
    kept: &[u8],
    dead: &[u8],
    bridges: bool,
    marks: &[bool],
    roots: &[u32],
) -> Result<Outcome, AllocError>
    requires rows { AreRows (length kinds.now) starts.now targets.now }
    requires few { length kinds.now < u32.MAX }
    requires kept { length kept.now ≡ length kinds.now }
    requires dead { length dead.now ≡ length kinds.now }
    requires held { IsHolding kinds.now starts.now targets.now kept.now marks.now roots.now }
    requires whole { IsWhole (Reaches (LeadsInRow starts.now targets.now)) (IsKept kinds.now kept.now)
        (IsLost kinds.now kept.now) }
    ensures { IfOk result (Says (LeadsInRow starts.now targets.now) (IsKept kinds.now kept.now)
        (IsLost kinds.now kept.now) (IsJudged kinds.now bridges) (IsSet dead.now)) }
{
    if let Some(y) = first_early(kinds, dead, marks, bridges) {
        let x = first_root(alloc, starts, targets, roots, y)?;
        return Ok(Outcome::Early(x, y));
    }
    match first_left(kinds, dead, marks, bridges) {
        Some(y) => Ok(Outcome::Left(y)),
        None => Ok(Outcome::Obeys),
    }
}

// The bridge nodes that were kept.
fn list_kept(alloc: Global, kinds: &[u8], kept: &[u8]) -> Result<Vec<u32>, AllocError>
    requires few { length kinds.now < u32.MAX }
    requires kept { length kept.now ≡ length kinds.now }
    ensures { IfOk result (λ v. (x : ℕ) → Contains v.items x
        ↔ ((x < length kinds.now) × IsKept kinds.now kept.now x)) }
{
    let mut listed = Vec::new(alloc);
    for x in 0..kinds.len() {
        if is_kept(kinds, kept, x) {
            listed.push(x as u32)?;
        }
    }
    Ok(listed)
}

fn is_kept(kinds: &[u8], kept: &[u8], x: usize) -> bool
    requires node { x < length kinds.now }
    requires kept { length kept.now ≡ length kinds.now }
    ensures { MatchBool result (IsKept kinds.now kept.now x) (¬ IsKept kinds.now kept.now x) }
{
    kinds[x] != 0 && kept[x] != 0
}

// The first marked bridge node that wasn't kept.
fn first_torn(kinds: &[u8], kept: &[u8], marks: &[bool]) -> Option<u32>
    requires few { length kinds.now < u32.MAX }
    requires kept { length kept.now ≡ length kinds.now }
    requires marks { length marks.now ≡ length kinds.now }
    ensures { MatchOption result
        ((y : ℕ) → y < length kinds.now → IsTornAt kinds.now kept.now marks.now y → ⊥)
        (λ y. (y < length kinds.now) × IsTornAt kinds.now kept.now marks.now y) }
{
    for y in 0..kinds.len() {
        if is_torn(kinds, kept, marks, y) {
            return Some(y as u32);
        }
    }
    None
}

fn is_torn(kinds: &[u8], kept: &[u8], marks: &[bool], y: usize) -> bool
    requires node { y < length kinds.now }
    requires kept { length kept.now ≡ length kinds.now }
    requires marks { length marks.now ≡ length kinds.now }
    ensures { MatchBool result (IsTornAt kinds.now kept.now marks.now y)
        (¬ IsTornAt kinds.now kept.now marks.now y) }
{
    marks[y] && kinds[y] != 0 && kept[y] == 0
}

// The first marked node that was taken as dead, of those that are judged.
fn first_early(kinds: &[u8], dead: &[u8], marks: &[bool], bridges: bool) -> Option<u32>
    requires few { length kinds.now < u32.MAX }
    requires dead { length dead.now ≡ length kinds.now }
    requires marks { length marks.now ≡ length kinds.now }
    ensures { MatchOption result
        ((y : ℕ) → y < length kinds.now → IsEarlyAt kinds.now dead.now marks.now bridges y → ⊥)
        (λ y. (y < length kinds.now) × IsEarlyAt kinds.now dead.now marks.now bridges y) }
{
    for y in 0..kinds.len() {
        if is_early(kinds, dead, marks, bridges, y) {
            return Some(y as u32);
        }
    }
    None
}

fn is_early(kinds: &[u8], dead: &[u8], marks: &[bool], bridges: bool, y: usize) -> bool
    requires node { y < length kinds.now }
    requires dead { length dead.now ≡ length kinds.now }
    requires marks { length marks.now ≡ length kinds.now }
    ensures { MatchBool result (IsEarlyAt kinds.now dead.now marks.now bridges y)
        (¬ IsEarlyAt kinds.now dead.now marks.now bridges y) }
{
    marks[y] && is_judged(kinds, y, bridges) && dead[y] != 0
}

// The first node without a mark that wasn't taken as dead, of those that are judged.
fn first_left(kinds: &[u8], dead: &[u8], marks: &[bool], bridges: bool) -> Option<u32>
    requires few { length kinds.now < u32.MAX }
    requires dead { length dead.now ≡ length kinds.now }
    requires marks { length marks.now ≡ length kinds.now }
    ensures { MatchOption result
        ((y : ℕ) → y < length kinds.now → IsLeftAt kinds.now dead.now marks.now bridges y → ⊥)
        (λ y. (y < length kinds.now) × IsLeftAt kinds.now dead.now marks.now bridges y) }
{
    for y in 0..kinds.len() {
        if is_left(kinds, dead, marks, bridges, y) {
            return Some(y as u32);
        }
    }
    None
}

fn is_left(kinds: &[u8], dead: &[u8], marks: &[bool], bridges: bool, y: usize) -> bool
    requires node { y < length kinds.now }
    requires dead { length dead.now ≡ length kinds.now }
    requires marks { length marks.now ≡ length kinds.now }
    ensures { MatchBool result (IsLeftAt kinds.now dead.now marks.now bridges y)
        (¬ IsLeftAt kinds.now dead.now marks.now bridges y) }
{
    !marks[y] && is_judged(kinds, y, bridges) && dead[y] == 0
}

// Whether a node is judged.
fn is_judged(kinds: &[u8], y: usize, bridges: bool) -> bool
    requires { y < length kinds.now }
    ensures { MatchBool result (IsJudged kinds.now bridges y) (¬ IsJudged kinds.now bridges y) }
{
    !bridges || kinds[y] != 0
}

// Writes 1 for each node without a mark, and 0 for each with one.
fn write_dead(marks: &[bool], dead: &mut [u8])
    requires { length marks.now ≡ length dead.old }
    ensures held { (y : ℕ) → y < length marks.now → slice_index_or marks.now y false ≡ true
        → slice_index dead.new y ≡ 0 }
    ensures free { (y : ℕ) → y < length marks.now → slice_index_or marks.now y false ≡ false
        → slice_index dead.new y ≡ 1 }
{
    for y in 0..marks.len() {
        dead[y] = flag_of(marks[y]);
    }
}

fn flag_of(held: bool) -> u8
    ensures held { held ≡ true → result ≡ 0 }
    ensures free { held ≡ false → result ≡ 1 }
{
    if held { 0 } else { 1 }
}
