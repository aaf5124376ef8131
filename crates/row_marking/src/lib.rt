// Marking through the rows of a heap: which objects are reached from some roots, with a mark and a link that each row
// has for good. The managed and the peer collector both mark by this one loop. It takes no memory: nothing is copied,
// and no list is made.
//
//     marked and scanned        marked and grey               not marked
//     +---+   +---+         head -> +---+   +---+            +---+   +---+
//     | 3 |-->| 7 |                 | 9 |-->| 4 |--> 0       | 5 |   | 8 |
//     +---+   +---+                 +---+   +---+            +---+   +---+
//
// Rows have the numbers from 1 on, and 0 is no row. What can be marked has the trait [`Traced`]: each row has a mark
// and a link, and marks what it leads to in one call, so that the row is looked up once. Over what it leads there,
// fields or more, is the rows' own matter.
//
// A grey row is marked and isn't scanned yet. The grey rows are a list through the links: `head` is the first, 0 ends
// it. `visit` marks a row, and one that wasn't marked comes first in the list; to scan a row is to visit what it leads
// to; `finish` scans the grey rows until none is left. So a marked row is grey or all that it leads to is marked, and
// once none is grey the marks are closed under the edges. Each row becomes grey at most once, so a marking is linear in
// what it walks.
//
// A collector begins a marking with all marks down, visits each root and calls `finish`; `mark_from` does both for a
// list of roots. While the marking is open it brings a row back by `mark_from` with that one row, and the marks before
// have to be closed under the edges.
//
// Nobody else changes the rows during a call; between the calls of one open marking their owner may. What is promised:
// once no row is grey, marked is exactly what is reached from the roots or was marked before.
#![tactic(auto)]

ghost use Rattle.std.specs.Prelude.{◌≡◌, ℕ, ◌+◌, ◌-◌, ◌<◌, ◌≤◌, ◌⊎◌, ◌↔◌, List, Option, Some, Contains, All, Bool};
ghost use Rattle.std.specs.Prelude.{length, slice_get, slice_set, IfSome, IsTrue, true};
ghost use Rattle.joint_machine.specs.Walks.{Reached};
ghost use Rattle.reachability.specs.Marks.{HasMark, IsClosed};
ghost use Rattle.row_marking.specs.Traces.{BlackensTo, Chained, Greyed, Greying, IsGreyList, IsGreying};

/// Rows that can be marked. Not every number need be a row: what a row leads to is one, and so is what has a mark.
pub trait Traced {
    // All that a marking leaves as it is.
    ghost Kept: { Type 0 };

    ghost kept: { Self → Kept };

    // A row leads to another one.
    ghost leads: { Kept → ℕ → ℕ → Type 0 };

    ghost is_row: { Kept → ℕ → Type 0 };

    ghost marks: { Self → List Bool };

    ghost links: { Self → List ℕ };

    /// Whether row `x` is marked.
    fn is_marked(&self, x: usize) -> bool
        requires { is_row (kept self.now) x }
        ensures { slice_get (marks self.now) x ≡ Some result };

    /// The link of a marked row.
    fn link(&self, x: usize) -> u32
        requires { HasMark (marks self.now) x }
        ensures link { slice_get (links self.now) x ≡ Some result }
        ensures row { is_row (kept self.now) x };

    /// Marks row `x`, and gives it a link.
    fn mark(&mut self, x: usize, link: u32)
        requires { is_row (kept self.old) x }
        ensures kept { kept self.new ≡ kept self.old }
        ensures marks { marks self.new ≡ slice_set (marks self.old) x true }
        ensures links { links self.new ≡ slice_set (links self.old) x link }
        ensures len { x < length (links self.old) };

    /// Marks what row `x` leads to; each row that wasn't marked comes first in the list of grey rows.
    fn scan(&mut self, x: usize, grey: &mut u32)
        requires { is_row (kept self.old) x }
        ensures kept { kept self.new ≡ kept self.old }
        ensures greyed { Greyed (leads (kept self.old) x) (marks self.old)
            (links self.old) grey.old (marks self.new) (links self.new) grey.new };
}

/// Marks row `y`; one that wasn't marked comes first in the list of grey rows.
pub fn visit<G: Traced>(g: &mut G, y: u32, grey: &mut u32)
    requires some { 1 ≤ y }
    requires row { G.is_row (G.kept g.old) y }
    ensures kept { G.kept g.new ≡ G.kept g.old }
    ensures greyed { Greyed (λ z. z ≡ y) (G.marks g.old)
        (G.links g.old) grey.old (G.marks g.new) (G.links g.new) grey.new }
{
    if !g.is_marked(y as usize) {
        g.mark(y as usize, *grey);
        *grey = y;
    }
}

/// Carries a marking to its end: the grey rows are scanned until none is left. It takes no memory.
pub fn finish<G: Traced>(g: &mut G, grey: u32)
    requires { IsGreying (G.leads (G.kept g.old)) (G.marks g.old) (G.links g.old) grey }
    ensures kept { G.kept g.new ≡ G.kept g.old }
    ensures marks { (roots : List ℕ) (before : List Bool)
        → Greying roots (G.leads (G.kept g.old)) before (G.marks g.old) (G.links g.old) grey → (k : ℕ)
        → HasMark (G.marks g.new) k ↔ (HasMark before k ⊎ Reached (Contains roots) (G.leads (G.kept g.old)) k) }
    ensures closed { IsClosed (G.leads (G.kept g.new)) (G.marks g.new) }
{
    let mut head = grey;
    while head != 0 {
        let x = head as usize;
        head = g.link(x);
        g.scan(x, &mut head);
    }
}

/// Scans at most so many grey rows, and answers where the list of grey rows begins then, and how many were scanned;
/// where these are fewer, none is grey. No row is scanned twice. What black rows lead to need not be marked, so the
/// rows may have changed since the marking began. It takes no memory.
pub fn scan_some<G: Traced>(g: &mut G, grey: u32, most: u32) -> (u32, u32)
    requires { IsGreyList (G.marks g.old) (G.links g.old) grey }
    ensures kept { G.kept g.new ≡ G.kept g.old }
    ensures steps { (greys : List ℕ) → Chained (G.marks g.old) (G.links g.old) grey greys
        → BlackensTo (G.leads (G.kept g.old)) result.1 (G.marks g.old) greys (G.marks g.new) (G.links g.new) result.0 }
    ensures most { result.1 ≤ most }
    ensures few { result.1 ≤ length (G.marks g.old) }
    ensures end { result.1 < most → result.0 ≡ 0 }
{
    let mut head = grey;
    let mut scanned = 0;
    while head != 0 && scanned < most {
        let row = head as usize;
        head = g.link(row);
        g.scan(row, &mut head);
        scanned += 1;
    }
    (head, scanned)
}

// Marks the roots of a list, each of which comes into the list of grey rows if it wasn't marked.
fn mark_roots<G: Traced>(g: &mut G, roots: &[u32], grey: &mut u32)
    requires roots { All (λ y. (1 ≤ y) × G.is_row (G.kept g.old) y) roots.now }
    ensures kept { G.kept g.new ≡ G.kept g.old }
    ensures greyed { Greyed (Contains roots.now) (G.marks g.old)
        (G.links g.old) grey.old (G.marks g.new) (G.links g.new) grey.new }
{
    for y in roots {
        visit(g, *y, grey);
    }
}

/// Marks the roots with all that they reach, and keeps what was marked, which has to be closed under the edges. It
/// takes no memory.
pub fn mark_from<G: Traced>(g: &mut G, roots: &[u32])
    requires roots { All (λ y. (1 ≤ y) × G.is_row (G.kept g.old) y) roots.now }
    requires shut { IsClosed (G.leads (G.kept g.old)) (G.marks g.old) }
    ensures kept { G.kept g.new ≡ G.kept g.old }
    ensures marks { (k : ℕ) → HasMark (G.marks g.new) k
        ↔ (HasMark (G.marks g.old) k ⊎ Reached (Contains roots.now) (G.leads (G.kept g.old)) k) }
    ensures closed { IsClosed (G.leads (G.kept g.new)) (G.marks g.new) }
{
    let mut grey = 0;
    mark_roots(g, roots, &mut grey);
    finish(g, grey);
}
