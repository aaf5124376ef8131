// A resolution: the rows of the dead part that no kept candidate reaches are freed.
//
// While a cycle is open, the rows of its dead part are exactly the live rows without a mark: the snapshot's marking has
// left them out, and what is made since has its mark from the start. So a marking that goes on from the kept candidates
// stays within the dead part, and all that it leaves out of it goes.

ghost use Rattle.std.specs.Prelude.{◌≡◌, ℕ, ◌+◌, ◌<◌, ◌≤◌, ◌↔◌, ◌⊎◌, ◌∷◌, [], ◌++◌, Bool, true, false, not, Some, None};
ghost use Rattle.std.specs.Prelude.{IsSome, is_some, Contains, All, IsTrue, length, map, filter, count_by, slice_get};
ghost use Rattle.joint_machine.specs.Cycles.{IsAnsweredAlive};
ghost use Rattle.joint_machine.specs.Heaps.{IsLive};
ghost use Rattle.joint_machine.specs.Histories.{managed_numbers};
ghost use Rattle.joint_model.specs.Listed.{answer_of, answers_of};
ghost use Rattle.joint_machine.specs.Managed.{OpenCycle, abandoned, renewed};
ghost use Rattle.joint_machine.specs.ManagedReplay.{without_twins};
ghost use Rattle.joint_machine.specs.Walks.{Reached};
ghost use Rattle.reachability.specs.Marks.{IsClosed, HasMark, marked, unmarked_of};
ghost use Rattle.row_heap.specs.Marks.{EdgeOf};
ghost use Rattle.managed_heap.specs.Resolving.{AreCleared, HasAnswers, TakesResolution, has_handle, has_peer};
ghost use Rattle.managed_heap.specs.Rows.{RowsInvariant, ArePeers, pairs_of};

use crate::open::OpenParts;
use crate::rows::{Header, ManagedRows};
use finaliser_queue::Notices;
use instance_registry::Registry;
use joint_model::{Alive, HNum, MNum};
use row_heap::RowHeap;

/// What a resolution tells its caller: the number of the cycle that it closed, the rows that it freed, where they stand
/// in the list of freed ones, and how many candidates were kept.
#[derive(Drop)]
pub(crate) struct Resolution {
    pub(crate) cycle: u32,
    pub(crate) freed: Vec<MNum>,
    pub(crate) first: u32,
    pub(crate) kept: u32,
}

impl ManagedRows {
    /// The open cycle's contraction is made; nothing else changes. Answers the cycle's number.
    pub(crate) fn contract(&mut self) -> u32
        requires open { IsSome self.old.managed.cycle }
        ensures number { (c : OpenCycle) → self.old.managed.cycle ≡ Some c → result ≡ c.number }
        ensures state { self.new ≡ record self.old { contracted = true } }
    {
        self.contracted = true;
        self.open_number()
    }

    /// Closes the open cycle; nothing is freed. Answers the cycle's number.
    pub(crate) fn abandon(&mut self) -> u32
        requires open { IsSome self.old.managed.cycle }
        ensures number { (c : OpenCycle) → self.old.managed.cycle ≡ Some c → result ≡ c.number }
        ensures state { self.new ≡ record self.old { managed = abandoned self.old.managed } }
    {
        let number = self.open_number();
        drop(self.cycle.take());
        number
    }

    // The open cycle's number.
    fn open_number(&self) -> u32
        requires { IsSome self.now.managed.cycle }
        ensures { (c : OpenCycle) → self.now.managed.cycle ≡ Some c → result ≡ c.number }
    {
        match &self.cycle {
            None => unreachable!(),
            Some(open) => open.number(),
        }
    }

    /// A resolution: frees the rows of the dead part that no candidate reaches that was answered alive, queues a notice
    /// for each of them that holds a handle, takes their pairs out of the registry, gives each candidate that was
    /// answered alive its new handle, and closes the cycle. It takes no memory. Its time goes by the dead part, and by
    /// the registry's pairs, over which it passes once, where a freed row has one.
    pub(crate) fn resolve(&mut self, alive: &Alive) -> Resolution
        requires kept { RowsInvariant self.old }
        requires open { HasAnswers self.old alive.now.values }
        ensures resolution { TakesResolution self.old self.new alive.now.values
            (managed_numbers result.freed.items) result.cycle result.first result.kept }
        ensures few { length result.freed.items ≤ 65535 }
    {
        let first = self.heap.made() - self.heap.live();
        let open = close(&mut self.cycle);
        let cycle = open.number();
        let (candidates, freed) = settle(open, &mut self.heap, alive);
        self.heap.free(&freed);
        notify(&freed, &self.headers, &mut self.notices);
        forget_pairs(&freed, &mut self.headers, &mut self.registry);
        renew(&candidates, alive, &mut self.headers);
        drop(candidates);
        Resolution {
            cycle,
            freed,
            first,
            kept: count_alive(alive),
        }
    }
}

// Closes the open cycle.
fn close(cycle: &mut Option<OpenParts>) -> OpenParts
    requires { IsSome cycle.old }
    ensures opened { cycle.old ≡ Some result }
    ensures closed { cycle.new ≡ None }
{
    match cycle.take() {
        None => unreachable!(),
        Some(open) => open,
    }
}

// Brings an object back, if it is kept.
fn bring_back_if(heap: &mut RowHeap<MNum>, x: u32, kept: bool)
    requires live { IsLive heap.old.heap x }
    requires shut { IsClosed (EdgeOf heap.old) heap.old.marks }
    ensures marks { (k : ℕ) → HasMark heap.new.marks k
        ↔ (HasMark heap.old.marks k ⊎ Reached (λ z. (kept ≡ true) × (x ≡ z)) (EdgeOf heap.old) k) }
    ensures shut { IsClosed (EdgeOf heap.old) heap.new.marks }
    ensures rest { heap.new ≡ record heap.old { marks = heap.new.marks; links = heap.new.links } }
{
    if kept {
        heap.bring_back(x);
    }
}

// The answer at place `i`.
fn answer_at(alive: &Alive, i: u32) -> Option<HNum>
    requires { i < length alive.now.values }
    ensures { slice_get alive.now.values i ≡ Some result }
{
    alive.at(i).unwrap_or(None)
}

// How many answers are alive.
fn count_alive(alive: &Alive) -> u32
    ensures { result ≡ count_by is_some alive.now.values }
{
    let mut count = 0;
    for i in 0..alive.len() {
        if answer_at(alive, i).is_some() {
            count += 1;
        }
    }
    count
}

// Brings the candidates back that were answered alive. It takes no memory.
fn bring_back_kept(heap: &mut RowHeap<MNum>, candidates: &[u32], alive: &Alive)
    requires live { (m : ℕ) → Contains candidates.now m → IsLive heap.old.heap m }
    requires shut { IsClosed (EdgeOf heap.old) heap.old.marks }
    requires answers { length alive.now.values ≡ length candidates.now }
    ensures marks { (k : ℕ) → HasMark heap.new.marks k
        ↔ (HasMark heap.old.marks k ⊎ Reached
        (IsAnsweredAlive candidates.now (answers_of alive.now.values)) (EdgeOf heap.old) k) }
    ensures shut { IsClosed (EdgeOf heap.old) heap.new.marks }
    ensures rest { heap.new ≡ record heap.old { marks = heap.new.marks; links = heap.new.links } }
{
    for i in 0..alive.len() {
        let kept = answer_at(alive, i).is_some();
        bring_back_if(heap, candidates[i as usize], kept);
    }
}

/// Whether the object has a mark.
pub(crate) fn has_mark(heap: &RowHeap<MNum>, m: MNum) -> bool
    ensures { result ≡ marked heap.now.marks m.0 }
{
    heap.is_marked(m.0)
}

/// Takes the rows with a mark out of a list. It takes no memory.
pub(crate) fn keep_unmarked(heap: &RowHeap<MNum>, rows: &mut Vec<MNum>)
    ensures { rows.new.items ≡ filter (λ m. not (marked heap.now.marks m.0)) rows.old.items }
{
    rows.retain(|m| !has_mark(heap, *m));
}

// Finds the rows of the dead part that no candidate reaches that was answered alive: those that have no mark
// afterwards. Answers the candidates and these rows. It takes no memory.
fn settle(cycle: OpenParts, heap: &mut RowHeap<MNum>, alive: &Alive) -> (Vec<u32>, Vec<MNum>)
    requires live { (m : ℕ) → Contains cycle.candidates m → IsLive heap.old.heap m }
    requires shut { IsClosed (EdgeOf heap.old) heap.old.marks }
    requires answers { length alive.now.values ≡ length cycle.candidates }
    ensures candidates { result.0.items ≡ cycle.candidates }
    ensures freed { managed_numbers result.1.items ≡ unmarked_of heap.new.marks cycle.dead }
    ensures marks { (k : ℕ) → HasMark heap.new.marks k
        ↔ (HasMark heap.old.marks k ⊎ Reached
        (IsAnsweredAlive cycle.candidates (answers_of alive.now.values)) (EdgeOf heap.old) k) }
    ensures shut { IsClosed (EdgeOf heap.old) heap.new.marks }
    ensures rest { heap.new ≡ record heap.old { marks = heap.new.marks; links = heap.new.links } }
{
    let OpenParts {
        number: _,
        candidates,
        mut dead,
    } = cycle;
    bring_back_kept(heap, &candidates, alive);
    keep_unmarked(heap, &mut dead);
    (candidates, dead)
}

/// Whether there is a handle beside the row.
pub(crate) fn holds(headers: &[Header], m: MNum) -> bool
    ensures { result ≡ has_handle (map (λ i. i.handle) headers.now) m.0 }
{
    if m.0 == 0 || m.0 as usize > headers.len() {
        return false;
    }
    headers[m.0 as usize - 1].handle.is_some()
}

// Queues a notice for each row of a list that holds a handle. It takes no memory.
fn notify(rows: &[MNum], headers: &[Header], notices: &mut Notices)
    requires room { length (filter (has_handle (map (λ i. i.handle) headers.now)) (managed_numbers rows.now))
        ≤ notices.old.spare }
    ensures queued { managed_numbers notices.new.queued ≡ managed_numbers notices.old.queued ++ filter
        (has_handle (map (λ i. i.handle) headers.now)) (managed_numbers rows.now) }
    ensures taken { notices.new.taken ≡ notices.old.taken }
{
    for m in rows {
        if holds(headers, *m) {
            notices.push(*m);
        }
    }
}

// Whether there is a peer beside the row.
fn has_peer(headers: &[Header], m: MNum) -> bool
    ensures { result ≡ has_peer (map (λ i. i.peer) headers.now) m.0 }
{
    if m.0 == 0 || m.0 as usize > headers.len() {
        return false;
    }
    headers[m.0 as usize - 1].peer.is_some()
}

// Clears the peer beside a row. Answers false only where there was none.
fn clear_peer(m: MNum, headers: &mut Vec<Header>) -> bool
    requires row { (1 ≤ m.0) × (m.0 ≤ length headers.old.items) }
    ensures cleared { AreCleared (map (λ i. i.peer) headers.old.items)
        (map (λ i. i.peer) headers.new.items) (m.0 ∷ []) }
    ensures none { result ≡ false → headers.new.items ≡ headers.old.items }
    ensures kinds { map (λ i. i.kind) headers.new.items ≡ map (λ i. i.kind) headers.old.items }
    ensures handles { map (λ i. i.handle) headers.new.items ≡ map (λ i. i.handle) headers.old.items }
{
    let at = m.0 as usize - 1;
    match headers[at].peer {
        None => false,
        Some(_) => {
            headers[at].peer = None;
            true
        }
    }
}

// Clears the peers beside the rows of a list. Answers false only where there was none. It takes no memory.
fn clear_peers(rows: &[MNum], headers: &mut Vec<Header>) -> bool
    requires rows { All (λ m. (1 ≤ m.0) × (m.0 ≤ length headers.old.items)) rows.now }
    ensures cleared { AreCleared (map (λ i. i.peer) headers.old.items)
        (map (λ i. i.peer) headers.new.items) (managed_numbers rows.now) }
    ensures none { result ≡ false → headers.new.items ≡ headers.old.items }
    ensures kinds { map (λ i. i.kind) headers.new.items ≡ map (λ i. i.kind) headers.old.items }
    ensures handles { map (λ i. i.handle) headers.new.items ≡ map (λ i. i.handle) headers.old.items }
{
    let mut any = false;
    for m in rows {
        if clear_peer(*m, headers) {
            any = true;
        }
    }
    any
}

// The registry forgets the pairs of the rows of a list, in one pass over its pairs, if one of the rows has a pair at
// all. It takes no memory.
fn forget_pairs(rows: &[MNum], headers: &mut Vec<Header>, registry: &mut Registry)
    requires rows { All (λ m. (1 ≤ m.0) × (m.0 ≤ length headers.old.items)) rows.now }
    requires peers { ArePeers registry.old headers.old.items }
    ensures pairs { pairs_of registry.new ≡ without_twins (pairs_of registry.old) (managed_numbers rows.now) }
    ensures peers { ArePeers registry.new headers.new.items }
    ensures kinds { map (λ i. i.kind) headers.new.items ≡ map (λ i. i.kind) headers.old.items }
    ensures handles { map (λ i. i.handle) headers.new.items ≡ map (λ i. i.handle) headers.old.items }
{
    if clear_peers(rows, headers) {
        let left: &[Header] = headers;
        registry.retain(|_, m| has_peer(left, m));
    }
}

// A candidate holds the handle that its restore gave, if it gave one.
fn renew_row(m: u32, back: Option<HNum>, headers: &mut Vec<Header>)
    requires row { (1 ≤ m) × (m ≤ length headers.old.items) }
    ensures handles { map (λ i. i.handle) headers.new.items ≡ renewed
        (map (λ i. i.handle) headers.old.items) (m ∷ []) (answer_of back ∷ []) }
    ensures kinds { map (λ i. i.kind) headers.new.items ≡ map (λ i. i.kind) headers.old.items }
    ensures peers { map (λ i. i.peer) headers.new.items ≡ map (λ i. i.peer) headers.old.items }
    ensures len { length headers.new.items ≡ length headers.old.items }
{
    if let Some(h) = back {
        headers[m as usize - 1].handle = Some(h.0);
    }
}

// Each candidate that was answered alive holds the handle that its restore gave. It takes no memory.
fn renew(candidates: &[u32], alive: &Alive, headers: &mut Vec<Header>)
    requires rows { All (λ m. (1 ≤ m) × (m ≤ length headers.old.items)) candidates.now }
    requires answers { length alive.now.values ≡ length candidates.now }
    ensures handles { map (λ i. i.handle) headers.new.items ≡ renewed
        (map (λ i. i.handle) headers.old.items) candidates.now (answers_of alive.now.values) }
    ensures kinds { map (λ i. i.kind) headers.new.items ≡ map (λ i. i.kind) headers.old.items }
    ensures peers { map (λ i. i.peer) headers.new.items ≡ map (λ i. i.peer) headers.old.items }
{
    for i in 0..alive.len() {
        renew_row(candidates[i as usize], answer_at(alive, i), headers);
    }
}
