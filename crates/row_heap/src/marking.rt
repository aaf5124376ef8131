// A marking of the heap: its begin, what it marks, and its end.
//
// A collector calls `begin_marking`, marks what slots name by `visit_slots` and each further root by
// `row_marking::visit`, and carries the marking to its end by `finish_marking`. While it is open, `bring_back` marks an
// object with all that it reaches. None of it takes memory.
//
// A marking may also go on in slices, between which others change the heap. Then `mark_some` takes some grey objects at
// a time, and whatever might be missed is shaded, which is to `visit` it: so is what a write takes out of a field
// (`overwritten`, before), and so is, by `shade_references`, what the references lead to before they go.

ghost use Rattle.std.specs.Prelude.{◌≡◌, ℕ, ◌+◌, ◌<◌, ◌≤◌, ◌↔◌, ◌⊎◌, List, [], ◌∷◌, Bool, Contains, IsTrue, Option};
ghost use Rattle.std.specs.Prelude.{Some, length};
ghost use Rattle.joint_machine.specs.Heaps.{InSlot, IsLive};
ghost use Rattle.joint_machine.specs.Walks.{Reached};
ghost use Rattle.reachability.specs.Marks.{IsClosed, HasMark};
ghost use Rattle.row_marking.specs.Traces.{BlackensTo, Chained, Greyed, Greying, IsGreyList, IsGreying};
ghost use Rattle.row_heap.specs.Marks.{AreEndsLive, EdgeOf, IsReferred};

use crate::heap::RowHeap;
use crate::tracing::mark_sources;
use heap_rules::Number;
use joint_model::{STATICS, VARS};
use row_marking::{finish, mark_from, scan_some, visit};

impl<N: Number> RowHeap<N> {
    /// A marked object is live, for the proofs of callers. It does nothing.
    pub fn recall_marked_live(&self)
        ensures { (x : ℕ) → HasMark self.now.marks x → IsLive self.now.heap x }
    {
        self.rows.recall_marked_stand();
    }

    /// There is a place for the mark of each object, and one for the number 0, which is no object's, for the proofs of
    /// callers. It does nothing.
    pub fn recall_marks_len(&self)
        ensures { length self.now.marks ≡ length self.now.heap.fields + 1 }
    {
        let _ = &self.rows;
    }

    /// Whether object `x` has a mark.
    pub fn is_marked(&self, x: u32) -> bool
        ensures { IsTrue result ↔ HasMark self.now.marks x }
    {
        x != 0 && x as usize <= self.rows.made() && self.rows.is_marked(x as usize)
    }

    /// Whether object `x` is live and has no mark.
    pub fn is_white(&self, x: u32) -> bool
        ensures { IsTrue result ↔ (IsLive self.now.heap x × (HasMark self.now.marks x → ⊥)) }
    {
        x != 0 && x as usize <= self.rows.made() && self.rows.is_white(x as usize)
    }

    /// No object has a mark, and a marking follows the references from now on, or doesn't.
    pub fn begin_marking(&mut self, follows: bool)
        requires { IsTrue follows → AreEndsLive self.old }
        ensures marks { (x : ℕ) → HasMark self.new.marks x → ⊥ }
        ensures rest { self.new ≡ record self.old { follows = follows; marks = self.new.marks } }
    {
        self.move_on();
        self.rows.recall_marked_stand();
        self.rows.unmark_from(self.gone as usize);
        self.references.forget();
        self.follows = follows;
    }

    /// Marks what variables and statics name.
    pub fn visit_slots(&mut self, grey: &mut u32)
        ensures greyed { Greyed (InSlot self.old.heap) self.old.marks
            self.old.links grey.old self.new.marks self.new.links grey.new }
        ensures rest { self.new ≡ record self.old { marks = self.new.marks; links = self.new.links } }
    {
        self.visit_vars(grey);
        self.visit_statics(grey);
    }

    /// Carries a marking to its end.
    pub fn finish_marking(&mut self, grey: u32)
        requires { IsGreying (EdgeOf self.old) self.old.marks self.old.links grey }
        ensures marks { (roots : List ℕ) (before : List Bool)
            → Greying roots (EdgeOf self.old) before self.old.marks self.old.links grey → (x : ℕ)
            → HasMark self.new.marks x ↔ (HasMark before x ⊎ Reached (Contains roots) (EdgeOf self.old) x) }
        ensures shut { IsClosed (EdgeOf self.old) self.new.marks }
        ensures rest { self.new ≡ record self.old { marks = self.new.marks; links = self.new.links } }
    {
        self.recall_marked_live();
        self.recall_tidy();
        self.recall_ends_live();
        finish(self, grey);
        self.recall_marked_live();
    }

    /// Makes at most so many grey objects black: each marks what it leads to now. Answers how many; where these are
    /// fewer, none is grey. The heap may have changed since the marking began. It takes no memory.
    pub fn mark_some(&mut self, grey: &mut u32, most: u32) -> u32
        requires { IsGreyList self.old.marks self.old.links grey.old }
        ensures steps { (greys : List ℕ) → Chained self.old.marks self.old.links grey.old greys
            → BlackensTo (EdgeOf self.old) result self.old.marks greys self.new.marks self.new.links grey.new }
        ensures most { result ≤ most }
        ensures few { result ≤ length self.old.marks }
        ensures end { result < most → grey.new ≡ 0 }
        ensures rest { self.new ≡ record self.old { marks = self.new.marks; links = self.new.links } }
    {
        self.recall_tidy();
        self.recall_ends_live();
        let scanned = scan_some(self, *grey, most);
        self.recall_marked_live();
        *grey = scanned.0;
        scanned.1
    }

    /// Marks what the references of live objects lead to, directly or over temporaries; each that wasn't marked comes
    /// first in the list of grey objects. Whether the marking follows references isn't asked. It takes no memory, and
    /// its time goes by the references.
    pub fn shade_references(&mut self, grey: &mut u32)
        requires { AreEndsLive self.old }
        ensures greyed { Greyed (IsReferred self.old) self.old.marks
            self.old.links grey.old self.new.marks self.new.links grey.new }
        ensures rest { self.new ≡ record self.old { marks = self.new.marks; links = self.new.links } }
    {
        self.references.forget();
        mark_sources(&mut self.references, &mut self.rows, grey);
    }

    /// Brings an object back: it is marked, with all that it reaches. One that has its mark takes no time.
    pub fn bring_back(&mut self, x: u32)
        requires live { IsLive self.old.heap x }
        requires shut { IsClosed (EdgeOf self.old) self.old.marks }
        ensures marks { (k : ℕ) → HasMark self.new.marks k
            ↔ (HasMark self.old.marks k ⊎ Reached (Contains (x ∷ [])) (EdgeOf self.old) k) }
        ensures shut { IsClosed (EdgeOf self.old) self.new.marks }
        ensures rest { self.new ≡ record self.old { marks = self.new.marks; links = self.new.links } }
    {
        if self.rows.is_marked(x as usize) {
            return;
        }
        self.recall_marked_live();
        self.recall_tidy();
        self.recall_ends_live();
        mark_from(self, &[x]);
        self.recall_marked_live();
    }

    // What a live object's reference leads to is live, if a marking follows it. It does nothing.
    fn recall_ends_live(&self)
        ensures { IsTrue self.now.follows → AreEndsLive self.now }
    {
        let _ = &self.references;
    }

    // Marks what variables name.
    fn visit_vars(&mut self, grey: &mut u32)
        ensures greyed { Greyed (λ x. Contains self.old.heap.vars (Some x))
            self.old.marks self.old.links grey.old self.new.marks self.new.links grey.new }
        ensures rest { self.new ≡ record self.old { marks = self.new.marks; links = self.new.links } }
    {
        self.recall_tidy();
        for place in 0..VARS {
            if let Some(x) = self.var(place) {
                visit(self, x, grey);
            }
        }
    }

    // Marks what statics hold.
    fn visit_statics(&mut self, grey: &mut u32)
        ensures greyed { Greyed (λ x. Contains self.old.heap.statics (Some x))
            self.old.marks self.old.links grey.old self.new.marks self.new.links grey.new }
        ensures rest { self.new ≡ record self.old { marks = self.new.marks; links = self.new.links } }
    {
        self.recall_tidy();
        for s in 0..STATICS {
            if let Some(x) = self.static_at(s) {
                visit(self, x, grey);
            }
        }
    }
}
