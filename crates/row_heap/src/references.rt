// References from an end to an end, in one list that a marking reads in place.
//
// An end is an object or a temporary. A temporary is no object: it has a number from 0 on, and references alone lead to
// it and from it. So what an object refers to is what its references lead to, directly or over temporaries.
//
// The references of one end are linked, the last one first, and a list by the number of the object or of the temporary
// says where the last one stands. So a push is one step, and no end's references are looked for. The list by objects
// has room for each of them, and is as long as the objects that references led from need: a push makes it longer within
// its room, so the memory behind it isn't written.
//
// A marking goes through a temporary once: it keeps a flag for each that it has seen, and a link in the list of those
// that it still has to go through.

ghost use Rattle.std.specs.Prelude.{◌≡◌, ◌≢◌, ℕ, ◌+◌, ◌-◌, ◌≤◌, ◌<◌, ◌++◌, [], ◌∷◌, List, Option, Some, Contains};
ghost use Rattle.std.specs.Prelude.{false, OnOk, OnErr, All, nat_le, length, map, max, slice_get, slice_index_or};
ghost use Rattle.std.specs.Prelude.{vec_capacity};
ghost use Rattle.joint_machine.specs.Components as exact;
ghost use Rattle.reachability.specs.Marks.{HasMark};
ghost use Rattle.row_marking.specs.Traces.{Greyed};
ghost use Rattle.row_heap.specs.Packed.{IsSmall, unpacked};
ghost use Rattle.row_heap.specs.Ends.{FirstsCleared, HasPlace, IsEnd, IsLastBelow, end_of, first_in, no_references};

use crate::places::{lower, visit_row};
use std::alloc::{AllocError, Global};
use std::marker::Model;

// How many numbers an object may have, from 0 on.
const PLACES: usize = 65_536;

// How many temporaries there may be, so that the numbers of objects and temporaries together fit four bytes.
const MOST_TEMPORARIES: u32 = 4_294_901_760;

/// An end of a reference: an object, or a temporary.
#[derive(Clone, Copy, PartialEq, Eq, Debug)]
pub enum End {
    Object(u32),
    Temporary(u32),
}

/// A reference, and the place of the one before it from the same end, counted from 1; 0 where it is the end's first.
#[derive(Clone, Copy)]
pub(crate) struct Reference {
    pub(crate) from: End,
    pub(crate) to: End,
    pub(crate) next: u32,
}

/// A reference in fewer bytes, as the list keeps it: an end is one number, below 65,536 an object's, and from there on
/// a temporary's.
#[derive(Drop)]
pub(crate) struct PackedReference {
    from: u32,
    to: u32,
    next: u32,
}

const _: () = prove!(size_of::<PackedReference>() <= 12);

impl Model for PackedReference {
    ghost use Rattle.row_heap.specs.declared.references.Reference.{Reference};
    ghost use Rattle.row_heap.specs.Packed.{unpacked};

    ghost Value = { Reference };

    ghost view = { λ p. record { from = unpacked p.from; to = unpacked p.to; next = p.next } };
}

impl PackedReference {
    /// The reference in fewer bytes.
    #[inline(always)]
    pub(crate) fn pack(reference: Reference) -> PackedReference
        requires from { IsSmall reference.from }
        requires to { IsSmall reference.to }
        ensures { result ≡ reference }
    {
        let from = pack_end(reference.from);
        let to = pack_end(reference.to);
        PackedReference {
            from,
            to,
            next: reference.next,
        }
    }

    /// The reference itself.
    #[inline(always)]
    pub(crate) fn unpack(&self) -> Reference
        ensures { result ≡ self.now }
    {
        Reference {
            from: unpack_end(self.from),
            to: unpack_end(self.to),
            next: self.next,
        }
    }
}

// An end as one number.
#[inline(always)]
fn pack_end(e: End) -> u32
    requires { IsSmall e }
    ensures { unpacked result ≡ e }
{
    match e {
        End::Object(x) => x,
        End::Temporary(t) => t + 65_536,
    }
}

// The end of a number.
#[inline(always)]
fn unpack_end(n: u32) -> End
    ensures { result ≡ unpacked n }
{
    if is_temporary(n) {
        End::Temporary(n - 65_536)
    } else {
        End::Object(n)
    }
}

// Whether a number is that of a temporary.
#[inline(always)]
fn is_temporary(n: u32) -> bool
    ensures { result ≡ nat_le 65536 n }
{
    n >= 65_536
}

/// References, and which temporaries a marking has seen.
#[derive(Drop)]
pub(crate) struct References {
    list: Vec<PackedReference>,
    // Where the references from an object begin, and those from a temporary: the place of the last one, counted from 1;
    // 0 where there is none.
    objects: Vec<u32>,
    temporaries: Vec<u32>,
    seen: Vec<bool>,
    links: Vec<u32>,
    ready: u32,
}

impl Model for References {
    ghost use Rattle.std.specs.Prelude.{vec_capacity};
    ghost use Rattle.row_heap.specs.Ends.{Linked, linked_of, AreLinked};

    ghost Value = { Linked };

    ghost view = { λ s. linked_of s.list.items s.temporaries.items s.seen.items s.links.items s.ready };

    ghost invariant = { λ s. AreLinked s.list.items s.objects.items s.temporaries.items
        s.seen.items s.links.items s.ready (vec_capacity s.list) (vec_capacity s.objects) };
}

impl References {
    /// No reference, and room for none.
    pub(crate) fn new(alloc: Global) -> References
        ensures { result ≡ no_references }
    {
        References {
            list: Vec::new(alloc),
            objects: Vec::new(alloc),
            temporaries: Vec::new(alloc),
            seen: Vec::new(alloc),
            links: Vec::new(alloc),
            ready: 0,
        }
    }

    /// How many references there are.
    pub(crate) fn len(&self) -> usize
        ensures len { result ≡ length self.now.refs }
        ensures most { result ≤ u32.MAX }
    {
        self.list.len()
    }

    /// Takes room for so many more references, and for so many temporaries, if there is room for fewer. Answers
    /// `AllocError`, with nothing changed, where there is no memory, where the list would pass 4,294,967,295, or for
    /// more than 4,294,901,760 temporaries.
    pub(crate) fn reserve(&mut self, additional: u32, temps: u32) -> Result<(), AllocError>
        ensures refs { self.new.refs ≡ self.old.refs }
        ensures temps { OnOk result (self.new.temps ≡ max self.old.temps temps) }
        ensures room { OnOk result (self.new.room ≡ additional) }
        ensures seen { (k : ℕ) → HasMark self.new.seen k → HasMark self.old.seen k }
        ensures err { OnErr result (self.new ≡ self.old) }
    {
        let len = self.list.len();
        if additional as usize > u32::MAX as usize - len {
            return Err(AllocError);
        }
        self.list.reserve(additional as usize)?;
        reach(&mut self.objects)?;
        make_temporaries(
            &mut self.temporaries,
            &mut self.seen,
            &mut self.links,
            temps,
        )?;
        self.ready = additional;
        Ok(())
    }

    /// Adds a reference. It takes no memory.
    pub(crate) fn push(&mut self, from: End, to: End)
        requires room { 1 ≤ self.old.room }
        requires from { IsEnd self.old.temps (end_of from) }
        requires to { IsEnd self.old.temps (end_of to) }
        ensures { self.new ≡ record self.old
            { refs = self.old.refs ++ (end_of from, end_of to) ∷ []; room = self.old.room - 1 } }
    {
        let next = self.first(from);
        make_place(&mut self.objects, from);
        let packed = PackedReference::pack(Reference { from, to, next });
        self.list.push_reserved(packed);
        let first = self.list.len() as u32;
        set_first(&mut self.objects, &mut self.temporaries, from, first);
        self.ready -= 1;
    }

    /// No reference is left. It takes no memory, and its time goes by the references.
    pub(crate) fn clear(&mut self)
        ensures { self.new ≡ record self.old { refs = [] } }
    {
        clear_firsts(
            self.list.as_slice(),
            &mut self.objects,
            &mut self.temporaries,
        );
        self.list.clear();
    }

    /// Where the references from an end begin, counted from 1; 0 where it has none.
    pub(crate) fn first(&self, e: End) -> u32
        ensures { IsLastBelow self.now.refs (end_of e) (length self.now.refs) result }
    {
        match e {
            End::Object(x) => first_at(self.objects.as_slice(), x),
            End::Temporary(t) => first_at(self.temporaries.as_slice(), t),
        }
    }

    /// The references of an end have a last one, or there are none, for the proofs of callers. It does nothing.
    pub(crate) fn recall_lasts(&self)
        ensures { (e : exact.End) → (r : ℕ) × IsLastBelow self.now.refs e (length self.now.refs) r }
    {
        let _ = &self.list;
    }

    /// Whether an object has references.
    #[inline(always)]
    pub(crate) fn lead_from(&self, x: u32) -> bool
        ensures { result ≡ false → (f : exact.End) → Contains self.now.refs (exact.node x, f) → ⊥ }
    {
        if self.list.is_empty() {
            return false;
        }
        self.first(End::Object(x)) != 0
    }

    /// The reference at a place, counted from 1.
    pub(crate) fn at(&self, r: u32) -> Reference
        requires { (1 ≤ r) × (r ≤ length self.now.refs) }
        ensures ends { slice_get self.now.refs (r - 1) ≡ Some (end_of result.from, end_of result.to) }
        ensures next { IsLastBelow self.now.refs (end_of result.from) (r - 1) result.next }
        ensures to { IsEnd self.now.temps (end_of result.to) }
    {
        self.list[r as usize - 1].unpack()
    }

    /// A marking sees a temporary, which comes first in the list of those that it has to go through, if it hadn't seen
    /// it.
    pub(crate) fn see(&mut self, t: u32, through: &mut u32)
        requires { t < self.old.temps }
        ensures rest { self.new ≡ record self.old { seen = self.new.seen; links = self.new.links } }
        ensures greyed { Greyed (λ n. n ≡ t + 1) self.old.seen self.old.links
            through.old self.new.seen self.new.links through.new }
    {
        let seen = &mut self.seen;
        visit_row(t + 1, seen, &mut self.links, through);
    }

    /// The link of a temporary that was seen, by its number, where 1 is that of the first.
    pub(crate) fn link(&self, n: u32) -> u32
        requires { HasMark self.now.seen n }
        ensures { slice_get self.now.links n ≡ Some result }
    {
        self.links[n as usize - 1]
    }

    /// No temporary was seen.
    pub(crate) fn forget(&mut self)
        ensures rest { self.new ≡ record self.old { seen = self.new.seen } }
        ensures none { (k : ℕ) → HasMark self.new.seen k → ⊥ }
    {
        lower(&mut self.seen, 0);
    }
}

// Takes room for a place for each number of an object. It makes no place.
fn reach(objects: &mut Vec<u32>) -> Result<(), AllocError>
    ensures items { objects.new.items ≡ objects.old.items }
    ensures room { vec_capacity objects.old ≤ vec_capacity objects.new }
    ensures reach { OnOk result (65536 ≤ vec_capacity objects.new) }
{
    let len = objects.len();
    if len < PLACES {
        objects.reserve(PLACES - len)?;
    }
    Ok(())
}

// Makes a place for where the references from an end begin, if it hasn't one. It takes no memory.
#[inline(always)]
fn make_place(objects: &mut Vec<u32>, e: End)
    requires room { 65536 ≤ vec_capacity objects.old }
    requires small { IsSmall e }
    ensures firsts { (x : ℕ) → slice_index_or objects.new.items x 0 ≡ slice_index_or objects.old.items x 0 }
    ensures longer { length objects.old.items ≤ length objects.new.items }
    ensures room { vec_capacity objects.old ≤ vec_capacity objects.new }
    ensures place { (temps : ℕ) → IsEnd temps (end_of e) → HasPlace (length objects.new.items) temps (end_of e) }
{
    if let End::Object(x) = e {
        let x = x as usize;
        if x >= objects.len() {
            lengthen(objects, x);
        }
    }
}

// Makes the places up to a number, within the room that there is. What the list has in a place stays, and it has 0 in
// the further ones.
#[inline(never)]
fn lengthen(objects: &mut Vec<u32>, x: usize)
    requires past { length objects.old.items ≤ x }
    requires room { x < vec_capacity objects.old }
    ensures firsts { (y : ℕ) → slice_index_or objects.new.items y 0 ≡ slice_index_or objects.old.items y 0 }
    ensures len { length objects.new.items ≡ x + 1 }
    ensures room { vec_capacity objects.old ≤ vec_capacity objects.new }
{
    let _ = objects.resize(x + 1, 0);
}

// Makes so many temporaries, if there are fewer. The further ones weren't seen, and have no references.
fn make_temporaries(
    temporaries: &mut Vec<u32>,
    seen: &mut Vec<bool>,
    links: &mut Vec<u32>,
    temps: u32,
) -> Result<(), AllocError>
    requires flags { length seen.old.items ≡ length temporaries.old.items }
    requires chains { length links.old.items ≡ length temporaries.old.items }
    ensures count { OnOk result (length temporaries.new.items ≡ max (length temporaries.old.items) temps) }
    ensures flags { length seen.new.items ≡ length temporaries.new.items }
    ensures chains { length links.new.items ≡ length temporaries.new.items }
    ensures firsts { (t : ℕ) → slice_index_or temporaries.new.items t 0 ≡ slice_index_or temporaries.old.items t 0 }
    ensures seen { (k : ℕ) → HasMark seen.new.items k → HasMark seen.old.items k }
    ensures few { length temporaries.old.items ≤ 4294901760 → length temporaries.new.items ≤ 4294901760 }
    ensures err { OnErr result ((temporaries.new.items ≡ temporaries.old.items)
        × (seen.new.items ≡ seen.old.items) × (links.new.items ≡ links.old.items)) }
{
    let len = temporaries.len();
    if temps as usize <= len {
        return Ok(());
    }
    if temps > MOST_TEMPORARIES {
        return Err(AllocError);
    }
    let temps = temps as usize;
    seen.reserve(temps - len)?;
    links.reserve(temps - len)?;
    temporaries.resize(temps, 0)?;
    let _ = seen.resize(temps, false);
    let _ = links.resize(temps, 0);
    Ok(())
}

// Where the references begin whose end has that number; 0 past the end of the list.
fn first_at(firsts: &[u32], i: u32) -> u32
    ensures { result ≡ slice_index_or firsts.now i 0 }
{
    match firsts.get(i as usize) {
        Some(first) => *first,
        None => 0,
    }
}

// The references from an end begin at another place.
fn set_first(objects: &mut Vec<u32>, temporaries: &mut Vec<u32>, e: End, first: u32)
    requires { HasPlace (length objects.old.items) (length temporaries.old.items) (end_of e) }
    ensures len { (length objects.new.items ≡ length objects.old.items)
        × (length temporaries.new.items ≡ length temporaries.old.items) }
    ensures room { vec_capacity objects.new ≡ vec_capacity objects.old }
    ensures here { first_in objects.new.items temporaries.new.items (end_of e) ≡ first }
    ensures others { (f : exact.End) → f ≢ end_of e
        → first_in objects.new.items temporaries.new.items f ≡ first_in objects.old.items temporaries.old.items f }
{
    match e {
        End::Object(x) => objects[x as usize] = first,
        End::Temporary(t) => temporaries[t as usize] = first,
    }
}

// The ends that references lead from have none.
fn clear_firsts(list: &[PackedReference], objects: &mut Vec<u32>, temporaries: &mut Vec<u32>)
    requires { All (λ r. HasPlace (length objects.old.items) (length temporaries.old.items) (end_of r.from)) list.now }
    ensures len { (length objects.new.items ≡ length objects.old.items)
        × (length temporaries.new.items ≡ length temporaries.old.items) }
    ensures room { vec_capacity objects.new ≡ vec_capacity objects.old }
    ensures cleared { FirstsCleared (map (λ r. end_of r.from) list.now)
        (first_in objects.old.items temporaries.old.items) (first_in objects.new.items temporaries.new.items) }
{
    for packed in list {
        let reference = packed.unpack();
        set_first(objects, temporaries, reference.from, 0);
    }
}
