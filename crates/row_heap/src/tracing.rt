// The rows of a heap as the marking loop walks them.
//
// What a row's references lead to is marked before its scan ends: the peers at once, and the temporaries go into a list
// of their own, which is gone through until it is empty. So no temporary is ever grey, and each is gone through once in
// a marking.

ghost use Rattle.std.specs.Prelude.{◌≡◌, ℕ, ◌+◌, ◌≤◌, ◌<◌, Contains, IsTrue, length, map, true, false};
ghost use Rattle.joint_machine.specs.Components as exact;
ghost use Rattle.joint_machine.specs.PeerReplay.{Refers};
ghost use Rattle.reachability.specs.Marks.{HasMark};
ghost use Rattle.row_marking.specs.Traces.{Greyed};
ghost use Rattle.row_heap.specs.Ends.{IsEnd, IsLastBelow, IsTemporary, Raises, Sees, end_of};
ghost use Rattle.row_heap.specs.Places.{bare, links_in, marks_in, row_at};
ghost use Rattle.row_heap.specs.Rows.{AreSightsMarked, IsLedFrom, IsLedTo};

use crate::heap::RowHeap;
use crate::places::Rows;
use crate::references::{End, References};
use heap_rules::Number;
use row_marking::Traced;

// The rows are the live objects. A marking leaves all but marks and links as it is.
impl<N: Number> Traced for RowHeap<N> {
    ghost use Rattle.joint_machine.specs.Heaps.{IsLive};
    ghost use Rattle.row_heap.specs.Rows.{HeapRows};
    ghost use Rattle.row_heap.specs.Marks.{LeadsTo, unmarked_rows};

    ghost Kept = { HeapRows };

    ghost kept = { unmarked_rows };

    ghost leads = { LeadsTo };

    ghost is_row = { λ v. IsLive v.heap };

    ghost marks = { λ v. v.marks };

    ghost links = { λ v. v.links };

    fn is_marked(&self, x: usize) -> bool {
        self.rows.is_marked(x)
    }

    fn link(&self, x: usize) -> u32 {
        self.rows.marked_link(x)
    }

    fn mark(&mut self, x: usize, link: u32) {
        self.rows.mark(x, link);
    }

    fn scan(&mut self, x: usize, grey: &mut u32) {
        self.rows.mark_fields(x, grey);
        if self.follows {
            mark_led(&mut self.references, &mut self.rows, x as u32, grey);
        }
    }
}

/// Marks what the references of all rows that stand lead to, directly and over temporaries.
pub(crate) fn mark_sources(references: &mut References, rows: &mut Rows, grey: &mut u32)
    requires ends { (x y : ℕ) → Refers references.old.refs x y
        → (row_at rows.old x).stands ≡ true → (row_at rows.old y).stands ≡ true }
    requires sights { AreSightsMarked references.old rows.old }
    ensures kept { map bare rows.new ≡ map bare rows.old }
    ensures rest { references.new ≡ record references.old { seen = references.new.seen; links = references.new.links } }
    ensures sights { AreSightsMarked references.new rows.new }
    ensures greyed { Greyed (IsLedTo references.old.refs rows.old) (marks_in rows.old)
        (links_in rows.old) grey.old (marks_in rows.new) (links_in rows.new) grey.new }
{
    references.recall_lasts();
    for i in 0..references.len() {
        let r = i as u32 + 1;
        let reference = references.at(r);
        mark_source(references, rows, reference.from, r, grey);
    }
}

// Marks what the references of a row lead to, if the row stands and its last reference is that of the place.
fn mark_source(references: &mut References, rows: &mut Rows, from: End, r: u32, grey: &mut u32)
    requires ends { (x y : ℕ) → Refers references.old.refs x y
        → (row_at rows.old x).stands ≡ true → (row_at rows.old y).stands ≡ true }
    requires sights { AreSightsMarked references.old rows.old }
    ensures kept { map bare rows.new ≡ map bare rows.old }
    ensures rest { references.new ≡ record references.old { seen = references.new.seen; links = references.new.links } }
    ensures sights { AreSightsMarked references.new rows.new }
    ensures greyed { Greyed (IsLedFrom references.old.refs rows.old (end_of from) r)
        (marks_in rows.old) (links_in rows.old) grey.old (marks_in rows.new) (links_in rows.new) grey.new }
{
    match from {
        End::Temporary(_) => {}
        End::Object(x) => {
            if is_source(references, rows, x, r) {
                mark_references(references, rows, x, grey);
            }
        }
    }
}

// Whether a row stands, and its last reference is that of the place.
fn is_source(references: &References, rows: &Rows, x: u32, r: u32) -> bool
    ensures source { IsTrue result → IsLastBelow references.now.refs (exact.node x) (length references.now.refs) r
        × ((row_at rows.now x).stands ≡ true) }
    ensures other { result ≡ false → IsLastBelow references.now.refs (exact.node x) (length references.now.refs) r
        → (row_at rows.now x).stands ≡ true → ⊥ }
{
    if references.first(End::Object(x)) == r {
        rows.is_standing(x)
    } else {
        false
    }
}

// Marks what the references of row `x` lead to; where it has none, that is seen without a call.
#[inline(always)]
fn mark_led(references: &mut References, rows: &mut Rows, x: u32, grey: &mut u32)
    requires ends { (y : ℕ) → Refers references.old.refs x y → (row_at rows.old y).stands ≡ true }
    requires sights { AreSightsMarked references.old rows.old }
    ensures kept { map bare rows.new ≡ map bare rows.old }
    ensures rest { references.new ≡ record references.old { seen = references.new.seen; links = references.new.links } }
    ensures sights { AreSightsMarked references.new rows.new }
    ensures greyed { Greyed (Refers references.old.refs x) (marks_in rows.old)
        (links_in rows.old) grey.old (marks_in rows.new) (links_in rows.new) grey.new }
{
    if references.lead_from(x) {
        mark_references(references, rows, x, grey);
    }
}

// Marks what the references of row `x` lead to, directly and over temporaries.
fn mark_references(references: &mut References, rows: &mut Rows, x: u32, grey: &mut u32)
    requires ends { (y : ℕ) → Refers references.old.refs x y → (row_at rows.old y).stands ≡ true }
    requires sights { AreSightsMarked references.old rows.old }
    ensures kept { map bare rows.new ≡ map bare rows.old }
    ensures rest { references.new ≡ record references.old { seen = references.new.seen; links = references.new.links } }
    ensures sights { AreSightsMarked references.new rows.new }
    ensures greyed { Greyed (Refers references.old.refs x) (marks_in rows.old)
        (links_in rows.old) grey.old (marks_in rows.new) (links_in rows.new) grey.new }
{
    let mut through = 0;
    visit_ends(references, rows, End::Object(x), &mut through, grey);
    while through != 0 {
        let t = through - 1;
        through = references.link(through);
        visit_ends(references, rows, End::Temporary(t), &mut through, grey);
    }
}

// Marks the rows that the references from one end lead to, and sees the temporaries.
fn visit_ends(
    references: &mut References,
    rows: &mut Rows,
    from: End,
    through: &mut u32,
    grey: &mut u32,
)
    requires { (y : ℕ) → Contains references.old.refs (end_of from, exact.node y) → (row_at rows.old y).stands ≡ true }
    ensures kept { map bare rows.new ≡ map bare rows.old }
    ensures rest { references.new ≡ record references.old { seen = references.new.seen; links = references.new.links } }
    ensures raised { Raises (λ y. Contains references.old.refs (end_of from, exact.node y))
        (marks_in rows.old) (marks_in rows.new) }
    ensures greyed { Greyed (λ y. Contains references.old.refs (end_of from, exact.node y))
        (marks_in rows.old) (links_in rows.old) grey.old (marks_in rows.new) (links_in rows.new) grey.new }
    ensures sees { Greyed (Sees references.old.refs (end_of from)) references.old.seen
        references.old.links through.old references.new.seen references.new.links through.new }
{
    let mut r = references.first(from);
    while r != 0 {
        let reference = references.at(r);
        visit_end(references, rows, reference.to, through, grey);
        r = reference.next;
    }
}

// Marks the row that a reference leads to, or sees the temporary.
fn visit_end(
    references: &mut References,
    rows: &mut Rows,
    to: End,
    through: &mut u32,
    grey: &mut u32,
)
    requires end { IsEnd references.old.temps (end_of to) }
    requires stands { (y : ℕ) → end_of to ≡ exact.node y → (row_at rows.old y).stands ≡ true }
    ensures kept { map bare rows.new ≡ map bare rows.old }
    ensures rest { references.new ≡ record references.old { seen = references.new.seen; links = references.new.links } }
    ensures raised { Raises (λ y. end_of to ≡ exact.node y) (marks_in rows.old) (marks_in rows.new) }
    ensures greyed { Greyed (λ y. end_of to ≡ exact.node y) (marks_in rows.old)
        (links_in rows.old) grey.old (marks_in rows.new) (links_in rows.new) grey.new }
    ensures sees { Greyed (IsTemporary (end_of to)) references.old.seen
        references.old.links through.old references.new.seen references.new.links through.new }
{
    match to {
        End::Object(y) => rows.visit(y, grey),
        End::Temporary(t) => references.see(t, through),
    }
}
