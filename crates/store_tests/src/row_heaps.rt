// A table of a small heap's operations, with what each answers; references, and a sweep.

ghost use Rattle.std.specs.Prelude.{◌≡◌, [], OnOk};
ghost use Rattle.joint_machine.specs.Heaps.{IsLive};
ghost use Rattle.row_heap.specs.Marks.{AreEndsLive};
ghost use Rattle.row_heap.specs.Rows.{opening_rows};

use heap_rules::Done::{self, Empty, Null, Object, Range};
use joint_model::{PNum, VARS};
use row_heap::{End, RowHeap};
use row_marking::visit;
use std::alloc::AllocError;

// An operation, by places of variables, fields and statics. `Add` makes an object with so many fields, which the
// variable then names.
#[derive(Clone, Copy)]
enum Call {
    Add(u8, usize),
    Copy(usize, usize),
    Set(usize, usize, Option<usize>),
    Get(usize, usize, usize),
    Store(usize, usize),
    Load(usize, usize),
    Drop(usize),
}

const CALLS: [(Call, Done); 20] = [
    (Call::Add(2, 0), Object(1)),
    (Call::Copy(1, 3), Empty),
    (Call::Load(1, 0), Null),
    (Call::Copy(1, 0), Object(1)),
    (Call::Set(0, 1, Some(1)), Done::Ok),
    (Call::Set(0, 2, None), Range),
    (Call::Get(71, 1, 1), Object(1)),
    (Call::Get(2, 1, 0), Null),
    (Call::Store(15, 0), Done::Ok),
    (Call::Store(15, 3), Empty),
    (Call::Load(3, 15), Object(1)),
    (Call::Drop(0), Done::Ok),
    (Call::Copy(2, 0), Empty),
    // more than two fields stand in a vector
    (Call::Add(3, 4), Object(2)),
    (Call::Set(4, 2, Some(4)), Done::Ok),
    (Call::Set(4, 3, None), Range),
    (Call::Get(5, 4, 2), Object(2)),
    (Call::Get(6, 5, 1), Null),
    (Call::Set(5, 2, None), Done::Ok),
    (Call::Get(5, 4, 2), Null),
];

// What the heap answers; None where a place is none.
fn answer(heap: &mut RowHeap<PNum>, call: &Call) -> Result<Option<Done>, AllocError> {
    Ok(match *call {
        Call::Add(fields, v) if v < VARS && !heap.is_full() => {
            let x = heap.add_object(fields)?;
            heap.set_var(v, Some(x));
            Some(Object(x))
        }
        Call::Copy(v, w) if v < VARS && w < VARS => Some(heap.copy(v, w)),
        Call::Set(v, i, Some(w)) if v < VARS && w < VARS => Some(heap.set(v, i, Some(w))),
        Call::Set(v, i, None) if v < VARS => Some(heap.set(v, i, None)),
        Call::Get(v, w, i) if v < VARS && w < VARS => Some(heap.get(v, w, i)),
        Call::Store(s, v) if s < 16 && v < VARS => Some(heap.store(s, Some(v))),
        Call::Load(v, s) if v < VARS && s < 16 => Some(heap.load(v, s)),
        Call::Drop(v) if v < VARS => Some(heap.drop(v)),
        _ => None,
    })
}

// The place of the first call that answers otherwise.
fn miss(heap: &mut RowHeap<PNum>) -> Result<Option<usize>, AllocError> {
    for (i, (call, wanted)) in CALLS.as_slice().iter().enumerate() {
        if answer(heap, call)? != Some(*wanted) {
            return Ok(Some(i));
        }
    }
    Ok(None)
}

// Whether two objects were made and are there, of which the last static names the first, and the first variable none.
fn has_two(heap: &RowHeap<PNum>) -> bool {
    heap.var(0).is_none()
        && heap.static_at(15) == Some(1)
        && (heap.made(), heap.live(), heap.is_full()) == (2, 2, false)
}

// The place of the first call that a heap answers otherwise, and whether it is then as it should be.
fn plays(heap: &mut RowHeap<PNum>) -> Result<(Option<usize>, bool), AllocError> {
    let missed = miss(heap)?;
    Ok((missed, has_two(heap)))
}

// A test makes a new heap, gives it to a function that has it by reference, and lets it go by a call: what goes out of
// scope at a `?` is dropped there field by field, which is dear to prove.

#[test]
fn operations_answer_as_the_table_says(rt: HostRuntime) -> Result<(), AllocError> {
    let mut heap: RowHeap<PNum> = RowHeap::new(rt.alloc());
    let seen = plays(&mut heap);
    drop(heap);
    assert_eq!(rt; seen?, (None, true));
    Ok(())
}

// A reference of the first object over a temporary to the second; there was none before.
fn refer_over(heap: &mut RowHeap<PNum>, first: u32, second: u32) -> Result<(), AllocError>
    requires none { heap.old.refs ≡ [] }
    requires first { IsLive heap.old.heap first }
    requires second { IsLive heap.old.heap second }
    ensures heap { OnOk result (heap.new.heap ≡ heap.old.heap) }
    ensures ends { OnOk result (AreEndsLive heap.new) }
{
    heap.reserve_references(2, 1)?;
    let over = End::Temporary(0);
    heap.add_references(&[(End::Object(first), over), (over, End::Object(second))]);
    Ok(())
}

// How many references there are, and once they are cleared.
fn takes(heap: &mut RowHeap<PNum>) -> Result<(usize, usize), AllocError>
    requires { heap.old ≡ opening_rows }
{
    let first = heap.add_object(0)?;
    let second = heap.add_object(0)?;
    refer_over(heap, first, second)?;
    let taken = heap.references_len();
    heap.clear_references();
    Ok((taken, heap.references_len()))
}

#[test]
fn takes_references(rt: HostRuntime) -> Result<(), AllocError> {
    let mut heap: RowHeap<PNum> = RowHeap::new(rt.alloc());
    let seen = takes(&mut heap);
    drop(heap);
    assert_eq!(rt; seen?, (2, 0));
    Ok(())
}

// Whether a scan of the object that refers to a temporary makes the one grey that the temporary leads to, and no other.
fn marks(heap: &mut RowHeap<PNum>) -> Result<bool, AllocError>
    requires { heap.old ≡ opening_rows }
{
    let first = heap.add_object(0)?;
    let second = heap.add_object(0)?;
    let third = heap.add_object(0)?;
    refer_over(heap, first, second)?;
    heap.begin_marking(true);
    let mut grey = 0;
    visit(heap, first, &mut grey);
    let before = grey == first && !heap.is_marked(second);
    let scanned = heap.mark_some(&mut grey, 1);
    let after = grey == second && heap.is_marked(second) && !heap.is_marked(third);
    Ok(before && scanned == 1 && after)
}

#[test]
fn marks_over_a_temporary(rt: HostRuntime) -> Result<(), AllocError> {
    let mut heap: RowHeap<PNum> = RowHeap::new(rt.alloc());
    let held = marks(&mut heap);
    drop(heap);
    assert!(rt; held?);
    Ok(())
}

// Whether what references lead to is shaded though the object that they lead from has no mark, and the marking follows
// none.
fn shades(heap: &mut RowHeap<PNum>) -> Result<bool, AllocError>
    requires { heap.old ≡ opening_rows }
{
    let first = heap.add_object(0)?;
    let second = heap.add_object(0)?;
    refer_over(heap, first, second)?;
    heap.begin_marking(false);
    let mut grey = 0;
    heap.shade_references(&mut grey);
    Ok(grey == second && heap.is_marked(second) && !heap.is_marked(first))
}

#[test]
fn shades_references(rt: HostRuntime) -> Result<(), AllocError> {
    let mut heap: RowHeap<PNum> = RowHeap::new(rt.alloc());
    let held = shades(&mut heap);
    drop(heap);
    assert!(rt; held?);
    Ok(())
}

// Whether the one object is freed, which has no mark once a marking began.
fn sweeps(heap: &mut RowHeap<PNum>) -> Result<bool, AllocError>
    requires { heap.old ≡ opening_rows }
{
    let first = heap.add_object(0)?;
    let made = heap.is_marked(first);
    heap.begin_marking(false);
    let white = !heap.is_marked(first);
    heap.sweep();
    let gone = !heap.is_live(first) && heap.live() == 0 && heap.freed().len() == 1;
    Ok(made && white && gone)
}

#[test]
fn sweeps_what_has_no_mark(rt: HostRuntime) -> Result<(), AllocError> {
    let mut heap: RowHeap<PNum> = RowHeap::new(rt.alloc());
    let held = sweeps(&mut heap);
    drop(heap);
    assert!(rt; held?);
    Ok(())
}
