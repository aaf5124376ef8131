// The heap of one side: objects as rows on a slab, with marks, and references beside their fields.
//
// A collection of a heap whose roots are its variables and statics:
//
//     heap.begin_marking(false);
//     let mut grey = 0;
//     heap.visit_slots(&mut grey);
//     heap.finish_marking(grey);
//     heap.sweep();
//
// A side makes a [`RowHeap`] once. `add_object` makes an object, which `set_var` then gives a name; `copy`, `set`,
// `get`, `drop`, `load` and `store` are the operations of a script, each of which answers a [`heap_rules::Done`], and
// each call is one of the definitions of the joint model's `Heap`. No call looks at more than the rows that it names.
//
// A marking stands in the rows and in two lists beside them, of marks and links. `begin_marking` takes all marks down,
// `visit_slots` marks what variables and statics name, the collector marks its further roots by `row_marking::visit`,
// and `finish_marking` marks what these reach; while the marking is open `bring_back` marks one more object with what
// it reaches, and a new object has its mark from the start. A marking follows fields, and references if its begin says
// so, until further ones are added. `free` then frees objects that a collector found dead, and `sweep` all those
// without a mark. From the begin to here nothing takes memory.
//
// References are a list of their own: `reserve_references` takes room, `add_references` adds some, `clear_references`
// drops all. An end of one is an object, or a temporary, over which references lead on; a temporary is no object, and
// is in no count. The peer side keeps in them what a cycle mirrors; the managed side has none.
//
// Objects have the numbers 1, 2, 3 and so on for ever, and their rows are in a slab, which uses the memory of freed
// rows again: `places.rt` has the index between them. A row has up to two fields in itself, and more in a vector of its
// own, as `fields.rt` says: so a read of a field is a load from the index and one from the slab, and one more where
// they are many. The list of freed objects has room for each object. What `heap_rules` proves of a heap with flags is
// used as it stands: its flags are which rows stand.
//
// A heap is a part of its side, which alone changes it. What is promised: each operation is the definition's own, a
// finished marking has marked exactly what its roots reach, and a sweep frees exactly the live rows without a mark.
#![tactic(auto)]

mod fields;
mod freeing;
mod heap;
mod marking;
mod operations;
mod places;
mod references;
mod referring;
mod sweeping;
mod tracing;

pub use heap::{MOST_OBJECTS, RowHeap};
pub use references::End;
