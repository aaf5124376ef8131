// The operations of a script that both heaps have, each of which is the definition's own.

ghost use Rattle.std.specs.Prelude.{◌≡◌, ◌<◌, IfSome, length};
ghost use Rattle.std.specs.Option.{ForSome};
ghost use Rattle.joint_machine.specs.Heaps.{IsLive, fields_of, copied, field_set, field_stored, field_got, read_into};
ghost use Rattle.joint_machine.specs.Heaps.{dropped, loaded, stored};
ghost use Rattle.heap_rules.specs.Done.{Did};
ghost use Rattle.row_heap.specs.Marks.{is_given, overwritten};

use crate::heap::RowHeap;
use heap_rules::{Done, Number};
use joint_machine::VARS;

impl<N: Number> RowHeap<N> {
    /// `copy V W`: V names the object of W.
    pub fn copy(&mut self, v: usize, w: usize) -> Done
        requires v { v < VARS }
        requires w { w < VARS }
        ensures done { Did (λ name. copied name self.old.heap v w) result self.new.heap }
        ensures rest { self.new ≡ record self.old { heap = self.new.heap } }
    {
        match self.var(w) {
            None => Done::Empty,
            Some(x) => {
                self.set_var(v, Some(x));
                Done::Object(x)
            }
        }
    }

    /// `set V I W`: field I of V's object holds W's object; with no W it holds nothing.
    pub fn set(&mut self, v: usize, i: usize, w: Option<usize>) -> Done
        requires v { v < VARS }
        requires w { ForSome w (λ place. place < VARS) }
        ensures done { Did (λ name. field_set self.old.heap v i w) result self.new.heap }
        ensures rest { self.new ≡ record self.old { heap = self.new.heap } }
    {
        match self.var(v) {
            None => Done::Empty,
            Some(x) => {
                if self.fields_len(x) <= i {
                    Done::Range
                } else {
                    self.store_field(x, i, w)
                }
            }
        }
    }

    /// What `set V I W` would take out of its field: nothing where it writes no field, or where the field is empty.
    pub fn overwritten(&self, v: usize, i: usize, w: Option<usize>) -> Option<u32>
        requires v { v < VARS }
        requires w { ForSome w (λ place. place < VARS) }
        ensures value { result ≡ overwritten self.now.heap v i w }
        ensures live { IfSome result (IsLive self.now.heap) }
    {
        match self.var(v) {
            None => None,
            Some(x) => {
                if self.fields_len(x) <= i {
                    None
                } else if self.is_given(w) {
                    self.field(x, i)
                } else {
                    None
                }
            }
        }
    }

    // Whether a variable names an object; where no variable is given nothing is asked.
    fn is_given(&self, w: Option<usize>) -> bool
        requires { ForSome w (λ place. place < VARS) }
        ensures { result ≡ is_given self.now.heap w }
    {
        match w {
            None => true,
            Some(place) => self.var(place).is_some(),
        }
    }

    // Field `i` of object `x` holds the object of the variable `w`, or nothing.
    fn store_field(&mut self, x: u32, i: usize, w: Option<usize>) -> Done
        requires live { IsLive self.old.heap x }
        requires index { i < length (fields_of self.old.heap x) }
        requires w { ForSome w (λ place. place < VARS) }
        ensures done { Did (λ name. field_stored self.old.heap x i w) result self.new.heap }
        ensures rest { self.new ≡ record self.old { heap = self.new.heap } }
    {
        match w {
            None => {
                self.set_field(x, i, None);
                Done::Ok
            }
            Some(place) => match self.var(place) {
                None => Done::Empty,
                Some(y) => {
                    self.set_field(x, i, Some(y));
                    Done::Ok
                }
            },
        }
    }

    // The variable at a place names what was read.
    fn read(&mut self, v: usize, x: Option<u32>) -> Done
        requires v { v < VARS }
        requires live { ForSome x (IsLive self.old.heap) }
        ensures done { Did (λ name. read_into name self.old.heap v x) result self.new.heap }
        ensures rest { self.new ≡ record self.old { heap = self.new.heap } }
    {
        self.set_var(v, x);
        match x {
            None => Done::Null,
            Some(y) => Done::Object(y),
        }
    }

    /// `get V W I`: V names the object in field I of W's object.
    pub fn get(&mut self, v: usize, w: usize, i: usize) -> Done
        requires v { v < VARS }
        requires w { w < VARS }
        ensures done { Did (λ name. field_got name self.old.heap v w i) result self.new.heap }
        ensures rest { self.new ≡ record self.old { heap = self.new.heap } }
    {
        match self.var(w) {
            None => Done::Empty,
            Some(x) => {
                if self.fields_len(x) <= i {
                    Done::Range
                } else {
                    let y = self.field(x, i);
                    self.read(v, y)
                }
            }
        }
    }

    /// `drop V`: V names nothing.
    pub fn drop(&mut self, v: usize) -> Done
        requires { v < VARS }
        ensures done { Did (λ name. dropped self.old.heap v) result self.new.heap }
        ensures rest { self.new ≡ record self.old { heap = self.new.heap } }
    {
        self.set_var(v, None);
        Done::Ok
    }

    /// `load V x`: V names the object of static `s`.
    pub fn load(&mut self, v: usize, s: usize) -> Done
        requires v { v < VARS }
        requires number { s < 16 }
        ensures done { Did (λ name. loaded name self.old.heap v s) result self.new.heap }
        ensures rest { self.new ≡ record self.old { heap = self.new.heap } }
    {
        let x = self.static_at(s);
        self.read(v, x)
    }

    /// `store x V`: static `s` holds V's object; with no V it holds nothing.
    pub fn store(&mut self, s: usize, v: Option<usize>) -> Done
        requires number { s < 16 }
        requires v { ForSome v (λ place. place < VARS) }
        ensures done { Did (λ name. stored self.old.heap s v) result self.new.heap }
        ensures rest { self.new ≡ record self.old { heap = self.new.heap } }
    {
        match v {
            None => {
                self.set_static(s, None);
                Done::Ok
            }
            Some(place) => match self.var(place) {
                None => Done::Empty,
                Some(x) => {
                    self.set_static(s, Some(x));
                    Done::Ok
                }
            },
        }
    }
}
