// The references of a heap: room for them, a further one, and none any more.
//
// The peer side keeps in them what a cycle mirrors. A marking that is open doesn't follow references that come to stand
// in the meantime.

ghost use Rattle.std.specs.Prelude.{◌≡◌, ◌-◌, ◌≤◌, ◌++◌, [], All, OnOk, OnErr, length, map, max, false};
ghost use Rattle.row_heap.specs.Ends.{AreEnds, ends_of};
ghost use Rattle.row_heap.specs.Rows.{MayReferBoth};

use crate::heap::RowHeap;
use crate::references::{End, References};
use heap_rules::Number;
use std::alloc::AllocError;

impl<N: Number> RowHeap<N> {
    /// Takes room for so many more references, and for so many temporaries, if there is room for fewer. Answers
    /// `AllocError`, with nothing changed, where there is no memory, where the list of references would pass
    /// 4,294,967,295, or for more than 4,294,901,760 temporaries.
    pub fn reserve_references(&mut self, additional: u32, temps: u32) -> Result<(), AllocError>
        ensures ok { OnOk result (self.new ≡ record self.old { room = additional; temps = max self.old.temps temps }) }
        ensures err { OnErr result (self.new ≡ self.old) }
    {
        self.references.reserve(additional, temps)
    }

    /// How many references there are.
    pub fn references_len(&self) -> usize
        ensures { result ≡ length self.now.refs }
    {
        self.references.len()
    }

    /// Adds references, each from a live object or a temporary to another one, after those that there are. A marking
    /// that is open follows none from then on. It takes no memory.
    pub fn add_references(&mut self, refs: &[(End, End)])
        requires ends { All (MayReferBoth self.old) (map ends_of refs.now) }
        requires room { length refs.now ≤ self.old.room }
        ensures { self.new ≡ record self.old
            { refs = self.old.refs ++ map ends_of refs.now; follows = false; room = self.old.room - length refs.now } }
    {
        push_all(&mut self.references, refs);
        self.follows = false;
    }

    /// No reference is left, and there is room for as many more as before. It takes no memory, and its time goes by the
    /// references.
    pub fn clear_references(&mut self)
        ensures { self.new ≡ record self.old { refs = [] } }
    {
        self.references.clear();
    }
}

// Adds references, for which there is room.
fn push_all(references: &mut References, refs: &[(End, End)])
    requires ends { All (AreEnds references.old.temps) (map ends_of refs.now) }
    requires room { length refs.now ≤ references.old.room }
    ensures { references.new ≡ record references.old
        { refs = references.old.refs ++ map ends_of refs.now; room = references.old.room - length refs.now } }
{
    for reference in refs {
        references.push(reference.0, reference.1);
    }
}
