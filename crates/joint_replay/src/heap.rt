// One heap in plain lists.

ghost use Rattle.std.specs.Prelude.{◌≡◌, ℕ, ◌+◌, ◌<◌, ◌≤◌, ◌↔◌, ◌++◌, List, Contains, All, Some, None, IsTrue, IfOk};
ghost use Rattle.std.specs.Prelude.{OnOk, OnErr, MatchResult, IfSome, length, take, vec_capacity};
ghost use Rattle.std.specs.Option.{ForSome};
ghost use Rattle.joint_machine.specs.Heaps.{Heap, MOST, IsMade, IsLive, is_freed, answer, slot, fields_of, is_full};
ghost use Rattle.joint_machine.specs.Heaps.{opening_heap, with_object, with_var, with_static, with_field, with_freed};
ghost use Rattle.joint_machine.specs.Heaps.{field_set, next_number};
ghost use Rattle.heap_rules.specs.Tidy.{live_fields};
ghost use Rattle.joint_replay.specs.Plain.{refusal_reply, is_live, kept_target, cleaned, Lowers};

use crate::replies::Refusal;
use joint_model::{Reply, STATICS, VARS};
use reachability::Walked;
use std::alloc::{AllocError, Global};
use std::marker::Model;

// The most objects that a heap makes.
const MOST_OBJECTS: usize = 65_535;

/// A field of an object, and what it is to hold.
#[derive(Clone, Copy)]
pub(crate) struct FieldWrite {
    pub(crate) object: u32,
    pub(crate) field: usize,
    pub(crate) value: Option<u32>,
}

/// The objects of one heap with their fields and a flag that is up while they aren't freed, the variables and statics,
/// and the freed objects in the order of freeing. A field may hold a freed object.
#[derive(Drop)]
pub struct PlainHeap {
    alloc: Global,
    fields: Vec<Vec<Option<u32>>>,
    flags: Vec<bool>,
    freed: Vec<u32>,
    vars: [Option<u32>; VARS],
    statics: [Option<u32>; STATICS],
}

impl Model for PlainHeap {
    ghost use Rattle.std.specs.Prelude.{map};
    ghost use Rattle.joint_machine.specs.Heaps.{Heap};
    ghost use Rattle.joint_replay.specs.Plain.{IsFlagged};

    ghost Value = { Heap };

    ghost view = { λ s. record {
      fields = map (λ r. r.items) s.fields.items;
      freed = s.freed.items;
      vars = s.vars;
      statics = s.statics;
    } };

    ghost invariant = { λ s. let h : Heap =
        record { fields = map (λ r. r.items) s.fields.items; freed = s.freed.items; vars = s.vars; statics = s.statics }
        in IsFlagged h s.flags.items };
}

impl PlainHeap {
    /// A heap without objects, in which every variable and static is empty.
    pub(crate) fn new(alloc: Global) -> PlainHeap
        ensures { result ≡ opening_heap }
    {
        PlainHeap {
            alloc,
            fields: Vec::new(alloc),
            flags: Vec::new(alloc),
            freed: Vec::new(alloc),
            vars: [None; VARS],
            statics: [None; STATICS],
        }
    }

    /// How many objects were made: the number of the last one.
    pub fn made(&self) -> u32
        ensures made { result ≡ length self.now.fields }
        ensures most { result ≤ MOST }
    {
        self.fields.len() as u32
    }

    /// Whether no further object can be made.
    pub(crate) fn is_full(&self) -> bool
        ensures { result ≡ is_full self.now.fields }
    {
        self.fields.len() >= MOST_OBJECTS
    }

    /// Whether object `x` was freed.
    pub(crate) fn is_freed(&self, x: u32) -> bool
        ensures freed { IsTrue result ↔ Contains self.now.freed x }
        ensures test { result ≡ is_freed self.now x }
    {
        if x == 0 || x as usize > self.flags.len() {
            return false;
        }
        !self.flags[x as usize - 1]
    }

    /// Whether object `x` was made and isn't freed.
    pub fn is_live(&self, x: u32) -> bool
        ensures live { IsTrue result ↔ IsLive self.now x }
        ensures test { result ≡ is_live self.now x }
    {
        if x == 0 || x as usize > self.flags.len() {
            return false;
        }
        self.flags[x as usize - 1]
    }

    /// How many objects were freed.
    pub(crate) fn freed_len(&self) -> usize
        ensures { result ≡ length self.now.freed }
    {
        self.freed.len()
    }

    /// The variables.
    pub fn vars(&self) -> &[Option<u32>]
        ensures slots { result.now ≡ self.now.vars }
        ensures count { length result.now ≡ VARS }
    {
        &self.vars
    }

    /// The statics.
    pub fn statics(&self) -> &[Option<u32>]
        ensures slots { result.now ≡ self.now.statics }
        ensures count { length result.now ≡ 16 }
    {
        &self.statics
    }

    /// What field `i` of object `x` holds.
    pub fn field(&self, x: u32, i: usize) -> Option<u32>
        requires { i < length (fields_of self.now x) }
        ensures { slot (fields_of self.now x) i ≡ result }
    {
        self.fields[x as usize - 1][i]
    }

    /// What field `i` of object `x` leads to: the object that it holds, where that is live.
    pub fn open_field(&self, x: u32, i: usize) -> Option<u32>
        requires { i < length (fields_of self.now x) }
        ensures target { result ≡ kept_target self.now (slot (fields_of self.now x) i) }
        ensures live { IfSome result (IsLive self.now) }
    {
        match self.field(x, i) {
            None => None,
            Some(y) => { if self.is_live(y) { Some(y) } else { None } }
        }
    }

    /// How many objects the clean heap has.
    pub(crate) fn clean_made(&self) -> u32
        ensures made { result ≡ length (cleaned self.now).fields }
        ensures most { result ≤ MOST }
    {
        self.made()
    }

    /// Whether object `x` of the clean heap was made and isn't freed.
    pub(crate) fn clean_live(&self, x: u32) -> bool
        ensures { IsTrue result ↔ IsLive (cleaned self.now) x }
    {
        self.is_live(x)
    }

    /// How many fields object `x` of the clean heap has.
    pub(crate) fn clean_len(&self, x: u32) -> usize
        ensures { result ≡ length (fields_of (cleaned self.now) x) }
    {
        self.fields_len(x)
    }

    /// What field `i` of object `x` of the clean heap holds: a live object, or nothing.
    pub(crate) fn clean_field(&self, x: u32, i: usize) -> Option<u32>
        requires { i < length (fields_of (cleaned self.now) x) }
        ensures value { slot (fields_of (cleaned self.now) x) i ≡ result }
        ensures live { IfSome result (IsLive (cleaned self.now)) }
    {
        self.open_field(x, i)
    }

    // Node `x` of the graph as the number of an object.
    fn node(&self, x: usize) -> u32
        requires { x < length self.now.fields + 1 }
        ensures { result ≡ x }
    {
        let _ = &self.fields;
        x as u32
    }

    /// Frees the objects of a list. Answers `AllocError` where there is no memory; the heap is then as before.
    pub(crate) fn free(&mut self, xs: &[u32]) -> Result<(), AllocError>
        requires { All (IsMade self.old) xs.now }
        ensures ok { OnOk result (self.new ≡ with_freed self.old xs.now) }
        ensures err { OnErr result (self.new ≡ self.old) }
    {
        self.freed.reserve(xs.len())?;
        lower(xs, &mut self.flags, &mut self.freed);
        Ok(())
    }

    /// What the variable at a place names.
    pub(crate) fn var(&self, place: usize) -> Option<u32>
        requires { place < VARS }
        ensures { slot self.now.vars place ≡ result }
    {
        self.vars[place]
    }

    /// How many fields object `x` has; none where there is no such object.
    pub fn fields_len(&self, x: u32) -> usize
        ensures { result ≡ length (fields_of self.now x) }
    {
        if x == 0 || x as usize > self.fields.len() {
            return 0;
        }
        self.fields[x as usize - 1].len()
    }

    /// Makes an object with so many empty fields. Answers `AllocError` where there is no memory; the heap is then as
    /// before.
    pub(crate) fn add_object(&mut self, fields: u8) -> Result<(), AllocError>
        requires { length self.old.fields < MOST }
        ensures ok { OnOk result (self.new ≡ with_object self.old fields) }
        ensures err { OnErr result (self.new ≡ self.old) }
    {
        let row = vec![in self.alloc; None; fields as usize]?;
        self.fields.reserve(1)?;
        self.flags.reserve(1)?;
        self.fields.push_reserved(row);
        self.flags.push_reserved(true);
        Ok(())
    }

    /// Makes an object with so many empty fields, which the variable at a place names. Answers `AllocError` where there
    /// is no memory; the heap is then as before.
    pub(crate) fn add_named(&mut self, place: usize, fields: u8) -> Result<(), AllocError>
        requires place { place < VARS }
        requires few { length self.old.fields < MOST }
        ensures ok { OnOk result (self.new ≡ with_var
            (with_object self.old fields) place (Some (next_number self.old))) }
        ensures err { OnErr result (self.new ≡ self.old) }
    {
        let x = self.made() + 1;
        self.add_object(fields)?;
        self.set_var(place, Some(x));
        Ok(())
    }

    /// The variable at a place names object `x`, or nothing.
    pub(crate) fn set_var(&mut self, place: usize, x: Option<u32>)
        requires { place < VARS }
        ensures { self.new ≡ with_var self.old place x }
    {
        self.vars[place] = x;
    }

    /// What a static holds.
    pub(crate) fn static_at(&self, x: usize) -> Option<u32>
        requires { x < 16 }
        ensures { slot self.now.statics x ≡ result }
    {
        self.statics[x]
    }

    /// The static holds object `y`, or nothing.
    pub(crate) fn set_static(&mut self, x: usize, y: Option<u32>)
        requires { x < 16 }
        ensures { self.new ≡ with_static self.old x y }
    {
        self.statics[x] = y;
    }

    /// What `set V I W` is to write, by the places of its variables, or why it writes nothing.
    pub(crate) fn target(&self, v: usize, i: usize, w: Option<usize>) -> Result<FieldWrite, Refusal>
        requires v { v < VARS }
        requires w { ForSome w (λ place. place < VARS) }
        ensures ok { IfOk result (λ p. (field_set self.now v i w ≡ answer Reply.Ok
            (with_field self.now p.object p.field p.value)) × (p.field < length (fields_of self.now p.object))) }
        ensures err { MatchResult result (λ p. Unit {0})
            (λ r. field_set self.now v i w ≡ answer (refusal_reply r) self.now) }
    {
        let Some(x) = self.var(v) else {
            return Err(Refusal::Empty);
        };
        if self.fields_len(x) <= i {
            return Err(Refusal::Range);
        }
        let value = match w {
            None => None,
            Some(place) => {
                let y = self.var(place);
                if y.is_none() {
                    return Err(Refusal::Empty);
                }
                y
            }
        };
        Ok(FieldWrite {
            object: x,
            field: i,
            value,
        })
    }

    /// Writes a field of an object.
    pub(crate) fn write(&mut self, place: &FieldWrite)
        requires { place.now.field < length (fields_of self.old place.now.object) }
        ensures { self.new ≡ with_field self.old place.now.object place.now.field place.now.value }
    {
        self.fields[place.object as usize - 1][place.field] = place.value;
    }
}

/// Puts the numbers of a list last. It takes no memory.
pub(crate) fn put_all(xs: &[u32], to: &mut Vec<u32>)
    requires { length to.old.items + length xs.now ≤ vec_capacity to.old }
    ensures { to.new.items ≡ to.old.items ++ xs.now }
{
    for x in xs {
        to.push_reserved(*x);
    }
}

// Takes down the flags of the objects of a list, and puts them on the list of freed ones.
fn lower(xs: &[u32], flags: &mut Vec<bool>, freed: &mut Vec<u32>)
    requires made { All (λ x. (1 ≤ x) × (x ≤ length flags.old.items)) xs.now }
    requires room { length freed.old.items + length xs.now ≤ vec_capacity freed.old }
    ensures flags { Lowers xs.now flags.old.items flags.new.items }
    ensures freed { freed.new.items ≡ freed.old.items ++ xs.now }
{
    for x in xs {
        flags[*x as usize - 1] = false;
        freed.push_reserved(*x);
    }
}

// The nodes are the objects' numbers; a live object leads to the live ones in its fields, and all else nowhere.
impl Walked for PlainHeap {
    ghost nodes = { λ h. length h.fields + 1 };

    ghost targets = { λ h. live_fields (cleaned h) };

    fn len(&self) -> usize {
        self.made() as usize + 1
    }

    fn degree(&self, x: usize) -> usize {
        let object = self.node(x);
        if self.is_live(object) {
            self.fields_len(object)
        } else {
            0
        }
    }

    fn target(&self, x: usize, i: usize) -> Option<u32> {
        self.open_field(self.node(x), i)
    }
}
