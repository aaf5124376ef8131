// The heap of one side: its objects as rows, and the operations that both sides have.

ghost use Rattle.std.specs.Prelude.{◌≡◌, ℕ, ◌+◌, ◌<◌, ◌≤◌, ◌↔◌, ◌++◌, [], ◌∷◌, List, map, Contains, All, Option, Some};
ghost use Rattle.std.specs.Prelude.{None, IsTrue, true, IfOk, OnOk, OnErr, IfSome, length, sum, vec_capacity};
ghost use Rattle.std.specs.Option.{ForSome};
ghost use Rattle.joint_machine.specs.Heaps.{Heap, MOST, IsMade, IsLive, InSlot, slot, fields_of, is_full, opening_heap};
ghost use Rattle.joint_machine.specs.Heaps.{next_number, with_object, with_var, with_static, with_field, with_freed};
ghost use Rattle.heap_rules.specs.Tidy.{IsTidy, CanFree};
ghost use Rattle.row_heap.specs.Rows.{HeapRows, opening_rows};

use crate::places::Rows;
use crate::references::References;
use heap_rules::Number;
use joint_model::{STATICS, VARS, list_with_room};
use std::alloc::{AllocError, Global};
use std::marker::Model;

/// The most objects that a heap makes.
pub const MOST_OBJECTS: usize = 65_535;

/// The objects of one heap as rows, the variables and statics that name them, the objects that were freed, and the
/// references between rows.
#[derive(Drop)]
pub struct RowHeap<N: Number> {
    pub(crate) alloc: Global,
    pub(crate) rows: Rows,
    pub(crate) freed: Vec<N>,
    pub(crate) vars: [Option<u32>; VARS],
    pub(crate) statics: [Option<u32>; STATICS],
    pub(crate) references: References,
    pub(crate) follows: bool,
    // How many of the first objects are freed, so that no pass looks at them again.
    pub(crate) gone: u32,
    // How many fields all objects that were made have together.
    pub(crate) fields: u32,
}

impl<N: Number> Model for RowHeap<N> {
    ghost use Rattle.std.specs.Prelude.{map, vec_capacity};
    ghost use Rattle.row_heap.specs.Rows.{HeapRows, rows_of, AreGone, IsFieldCount, IsRowHeap};

    ghost Value = { HeapRows };

    ghost view = { λ s. rows_of s.rows (map N.number s.freed.items) s.vars s.statics s.references s.follows };

    ghost invariant = { λ s. IsRowHeap s.rows (map N.number s.freed.items) s.vars s.statics s.references s.follows
        (vec_capacity s.freed) × AreGone s.gone (map N.number s.freed.items) × IsFieldCount s.fields s.rows };
}

impl<N: Number> RowHeap<N> {
    /// A heap without objects, in which every variable and static is empty. It asks for room for all objects that it
    /// will ever make, and goes without where there is no memory for that.
    pub fn new(alloc: Global) -> RowHeap<N>
        ensures { result ≡ opening_rows }
    {
        RowHeap {
            alloc,
            rows: Rows::new(alloc),
            freed: list_with_room(alloc, MOST_OBJECTS),
            vars: [None; VARS],
            statics: [None; STATICS],
            references: References::new(alloc),
            follows: false,
            gone: 0,
            fields: 0,
        }
    }

    /// What holds of every heap, for the proofs of callers. It does nothing.
    pub fn recall_tidy(&self)
        ensures { IsTidy self.now.heap }
    {
        let _ = &self.rows;
    }

    /// How many objects were made: the number of the last one.
    pub fn made(&self) -> u32
        ensures made { result ≡ length self.now.heap.fields }
        ensures most { result ≤ MOST }
    {
        self.rows.made() as u32
    }

    /// How many objects are live.
    pub fn live(&self) -> u32
        ensures { result + length self.now.heap.freed ≡ length self.now.heap.fields }
    {
        (self.rows.made() - self.freed.len()) as u32
    }

    /// How many fields all objects have together that were ever made, freed ones too.
    pub fn fields_made(&self) -> u32
        ensures { result ≡ sum (map length self.now.heap.fields) }
    {
        self.fields
    }

    /// Whether object `x` was made and isn't freed.
    pub fn is_live(&self, x: u32) -> bool
        ensures { IsTrue result ↔ IsLive self.now.heap x }
    {
        if x == 0 || x as usize > self.rows.made() {
            return false;
        }
        self.rows.stands(x as usize)
    }

    /// A number below which no object is live. The begin of a marking moves it on; how near it comes to the oldest live
    /// object is no promise.
    pub fn oldest(&self) -> u32
        ensures below { (x : ℕ) → x < result → IsLive self.now.heap x → ⊥ }
        ensures most { result ≤ MOST + 1 }
    {
        self.gone + 1
    }

    // Moves on past the objects that are freed: each is passed once for good.
    pub(crate) fn move_on(&mut self)
        ensures { self.new ≡ self.old }
    {
        let mut gone = self.gone;
        while gone < self.made() && !self.is_live(gone + 1) {
            gone += 1;
        }
        self.gone = gone;
    }

    /// Whether no further object can be made.
    pub fn is_full(&self) -> bool
        ensures { result ≡ is_full self.now.heap.fields }
    {
        self.rows.made() >= MOST_OBJECTS
    }

    /// What the variable at a place names.
    pub fn var(&self, place: usize) -> Option<u32>
        requires { place < VARS }
        ensures value { slot self.now.heap.vars place ≡ result }
        ensures live { IfSome result (IsLive self.now.heap) }
    {
        self.vars[place]
    }

    /// What a static holds.
    pub fn static_at(&self, s: usize) -> Option<u32>
        requires { s < 16 }
        ensures value { slot self.now.heap.statics s ≡ result }
        ensures live { IfSome result (IsLive self.now.heap) }
    {
        self.statics[s]
    }

    /// How many fields a live object has.
    pub fn fields_len(&self, x: u32) -> usize
        requires { IsLive self.now.heap x }
        ensures { result ≡ length (fields_of self.now.heap x) }
    {
        self.rows.fields(x as usize).len()
    }

    /// The fields of a live object.
    pub fn row_fields(&self, x: u32) -> &[Option<u32>]
        requires { IsLive self.now.heap x }
        ensures { result.now ≡ fields_of self.now.heap x }
    {
        self.rows.fields(x as usize)
    }

    /// What field `i` of a live object holds.
    pub fn field(&self, x: u32, i: usize) -> Option<u32>
        requires live { IsLive self.now.heap x }
        requires index { i < length (fields_of self.now.heap x) }
        ensures value { slot (fields_of self.now.heap x) i ≡ result }
        ensures live { IfSome result (IsLive self.now.heap) }
    {
        self.rows.fields(x as usize)[i]
    }

    /// Makes an object with so many empty fields, and answers its number. It has a mark. Answers `AllocError` where
    /// there is no memory; the heap is then as before.
    pub fn add_object(&mut self, fields: u8) -> Result<u32, AllocError>
        requires { length self.old.heap.fields < MOST }
        ensures number { IfOk result (λ x. x ≡ next_number self.old.heap) }
        ensures ok { OnOk result (self.new ≡ record self.old {
          heap = with_object self.old.heap fields;
          marks = self.old.marks ++ true ∷ [];
          links = self.old.links ++ 0 ∷ [];
        }) }
        ensures live { IfOk result (IsLive self.new.heap) }
        ensures err { OnErr result (self.new ≡ self.old) }
    {
        let made = self.rows.made();
        self.freed.reserve(made + 1 - self.freed.len())?;
        self.rows.add(self.alloc, fields)?;
        self.fields += fields as u32;
        Ok(made as u32 + 1)
    }

    /// The objects that were freed, in the order of freeing.
    pub fn freed(&self) -> &[N]
        ensures { map N.number result.now ≡ self.now.heap.freed }
    {
        self.freed.as_slice()
    }

    /// Gives up the heap for the list of its freed objects. It takes no memory.
    pub fn into_freed(self) -> Vec<N>
        ensures { map N.number result.items ≡ self.heap.freed }
    {
        self.freed
    }

    /// The variable at a place names object `x`, or nothing.
    pub fn set_var(&mut self, place: usize, x: Option<u32>)
        requires place { place < VARS }
        requires live { ForSome x (IsLive self.old.heap) }
        ensures { self.new ≡ record self.old { heap = with_var self.old.heap place x } }
    {
        self.vars[place] = x;
    }

    /// A static holds object `x`, or nothing.
    pub fn set_static(&mut self, s: usize, x: Option<u32>)
        requires number { s < 16 }
        requires live { ForSome x (IsLive self.old.heap) }
        ensures { self.new ≡ record self.old { heap = with_static self.old.heap s x } }
    {
        self.statics[s] = x;
    }

    /// Field `i` of object `x` holds object `y`, or nothing.
    pub fn set_field(&mut self, x: u32, i: usize, y: Option<u32>)
        requires live { IsLive self.old.heap x }
        requires index { i < length (fields_of self.old.heap x) }
        requires target { ForSome y (IsLive self.old.heap) }
        ensures { self.new ≡ record self.old { heap = with_field self.old.heap x i y } }
    {
        self.rows.set_field(x as usize, i, y);
    }
}
