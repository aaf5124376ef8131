// Rows by number, in a slab.
//
// The slab picks its keys and gives a removed row's key out again, so a key is no number of an object. The index has
// for each number ever made the key of its row, in four bytes beside a tag. A row without fields has no key: the tag
// says all of it, so a marking looks no further, and it takes nothing of the slab. Others have their fields in
// themselves where they are few (`fields.rt`). Marks and links stand beside the rows, in lists of their own: a marking
// looks at them far more often than at a row, and all marks are taken down by one fill. A row that is freed gives its
// memory back, and the index keeps its fields for proofs alone, in no bytes: so the heap of the definition, which never
// forgets the fields of a freed object, is still what contracts see.

ghost use Rattle.std.specs.Prelude.{All, take, replicate, ◌≡◌, ℕ, ◌≤◌, ◌<◌, ◌⊎◌, ◌++◌, [], ◌∷◌, Some, None, Contains};
ghost use Rattle.std.specs.Prelude.{MatchBool, true, false, length, map, slice_set, vec_len, vec_capacity, OnOk, OnErr};
ghost use Rattle.joint_machine.specs.Heaps.{numbered_set};
ghost use Rattle.reachability.specs.Marks.{HasMark};
ghost use Rattle.row_marking.specs.Traces.{Greyed};
ghost use Rattle.slab.specs.Slab.{HasRoomFor};
ghost use Rattle.row_heap.specs.Ends.{Raises};
ghost use Rattle.row_heap.specs.Places.{row_at, is_white, gone, bare, marks_in, links_in, unmarked_row};

use crate::fields::Fields;
use crate::heap::MOST_OBJECTS;
use joint_model::list_with_room;
use slab::Slab;
use std::alloc::{AllocError, Global};
use std::marker::Model;
use std::snapshot::Snapshot;

/// An object: its fields.
#[derive(Drop)]
pub(crate) struct Row {
    pub(crate) fields: Fields,
}

/// Where the row of a number is: under a key of the slab; nowhere else, since it has no fields; or nowhere, with the
/// fields that it had.
#[derive(Drop)]
pub(crate) enum RowPlace {
    At(u32),
    Leaf,
    Gone(Snapshot<Fields>),
}

/// The rows with the numbers 1, 2, 3 and so on, in the order in which they were made. What a list has of row x stands
/// at x - 1.
#[derive(Drop)]
pub(crate) struct Rows {
    places: Vec<RowPlace>,
    slab: Slab<Row>,
    // Whether a row has a mark, which a removed one hasn't.
    marks: Vec<bool>,
    // A row's link in the list of grey rows.
    links: Vec<u32>,
}

impl Model for Rows {
    ghost use Rattle.std.specs.Prelude.{List, map};
    ghost use Rattle.row_heap.specs.Places.{Seen, seen_at, with_marks, AreRows};

    ghost Value = { List Seen };

    ghost view = { λ s. with_marks (map (seen_at s.slab) s.places.items) s.marks.items s.links.items };

    ghost invariant = { λ s. AreRows s.slab s.places.items s.marks.items s.links.items };
}

impl Rows {
    /// No row was made. There is room for all rows of a heap where there is memory for it.
    pub(crate) fn new(alloc: Global) -> Rows
        ensures { result ≡ [] }
    {
        let mut slab = Slab::new(alloc);
        let _ = slab.reserve(MOST_OBJECTS);
        Rows {
            places: list_with_room(alloc, MOST_OBJECTS),
            slab,
            marks: list_with_room(alloc, MOST_OBJECTS),
            links: list_with_room(alloc, MOST_OBJECTS),
        }
    }

    /// How many rows were made.
    pub(crate) fn made(&self) -> usize
        ensures { result ≡ length self.now }
    {
        self.places.len()
    }

    /// Whether row `x` stands.
    pub(crate) fn stands(&self, x: usize) -> bool
        requires { (1 ≤ x) × (x ≤ length self.now) }
        ensures { result ≡ (row_at self.now x).stands }
    {
        match self.places[x - 1] {
            RowPlace::At(_) => true,
            RowPlace::Leaf => true,
            RowPlace::Gone(_) => false,
        }
    }

    /// Whether there is a row `x`, and it stands.
    pub(crate) fn is_standing(&self, x: u32) -> bool
        ensures { result ≡ (row_at self.now x).stands }
    {
        if self.has(x) {
            self.stands(x as usize)
        } else {
            false
        }
    }

    // Whether there is a row `x`.
    fn has(&self, x: u32) -> bool
        ensures { MatchBool result ((1 ≤ x) × (x ≤ length self.now)) (¬ ((1 ≤ x) × (x ≤ length self.now))) }
    {
        x != 0 && x as usize <= self.made()
    }

    /// Whether row `x` stands without a mark.
    pub(crate) fn is_white(&self, x: usize) -> bool
        requires { (1 ≤ x) × (x ≤ length self.now) }
        ensures { result ≡ is_white (row_at self.now x) }
    {
        !self.is_marked(x) && self.stands(x)
    }

    /// Whether row `x` has a mark.
    pub(crate) fn is_marked(&self, x: usize) -> bool
        requires { (1 ≤ x) × (x ≤ length self.now) }
        ensures { result ≡ (row_at self.now x).marked }
    {
        self.marks[x - 1]
    }

    /// The fields of row `x`.
    pub(crate) fn fields(&self, x: usize) -> &[Option<u32>]
        requires { (row_at self.now x).stands ≡ true }
        ensures { result.now ≡ (row_at self.now x).fields }
    {
        match self.places[x - 1] {
            RowPlace::At(key) => self.slab[key as usize].fields.as_slice(),
            RowPlace::Leaf => &[],
            RowPlace::Gone(_) => unreachable!(),
        }
    }

    /// Field `i` of row `x` holds another row, or none.
    pub(crate) fn set_field(&mut self, x: usize, i: usize, y: Option<u32>)
        requires stands { (row_at self.old x).stands ≡ true }
        requires index { i < length (row_at self.old x).fields }
        ensures { self.new ≡ numbered_set self.old x
            (record (row_at self.old x) { fields = slice_set (row_at self.old x).fields i y }) }
    {
        match self.places[x - 1] {
            RowPlace::At(key) => self.slab[key as usize].fields.set(i, y),
            RowPlace::Leaf => unreachable!(),
            RowPlace::Gone(_) => unreachable!(),
        }
    }

    /// Row `x` has a mark, and another link.
    pub(crate) fn mark(&mut self, x: usize, link: u32)
        requires { (row_at self.old x).stands ≡ true }
        ensures { self.new ≡ numbered_set self.old x (record (row_at self.old x) { marked = true; link = link }) }
    {
        self.marks[x - 1] = true;
        self.links[x - 1] = link;
    }

    /// Marks what the fields of row `x` hold; each row that wasn't marked comes first in the list of grey rows.
    #[inline(always)]
    pub(crate) fn mark_fields(&mut self, x: usize, grey: &mut u32)
        requires stands { (row_at self.old x).stands ≡ true }
        requires held { (y : ℕ) → Contains (row_at self.old x).fields (Some y) → (row_at self.old y).stands ≡ true }
        ensures kept { map bare self.new ≡ map bare self.old }
        ensures raised { (k : ℕ) → HasMark (marks_in self.old) k → HasMark (marks_in self.new) k }
        ensures greyed { Greyed (λ y. Contains (row_at self.old x).fields (Some y)) (marks_in self.old)
            (links_in self.old) grey.old (marks_in self.new) (links_in self.new) grey.new }
    {
        match self.places[x - 1] {
            RowPlace::At(key) => {
                let fields = &self.slab[key as usize].fields;
                fields.visit(&mut self.marks, &mut self.links, grey);
            }
            RowPlace::Leaf => {}
            RowPlace::Gone(_) => unreachable!(),
        }
    }

    /// Marks row `y`; if it wasn't marked, it comes first in the list of grey rows.
    #[inline(always)]
    pub(crate) fn visit(&mut self, y: u32, grey: &mut u32)
        requires { (row_at self.old y).stands ≡ true }
        ensures kept { map bare self.new ≡ map bare self.old }
        ensures raised { Raises (λ z. z ≡ y) (marks_in self.old) (marks_in self.new) }
        ensures greyed { Greyed (λ z. z ≡ y) (marks_in self.old)
            (links_in self.old) grey.old (marks_in self.new) (links_in self.new) grey.new }
    {
        visit_row(y, &mut self.marks, &mut self.links, grey);
    }

    /// The link of row `x`, which has a mark.
    pub(crate) fn marked_link(&self, x: usize) -> u32
        requires { (row_at self.now x).marked ≡ true }
        ensures link { result ≡ (row_at self.now x).link }
        ensures stands { (row_at self.now x).stands ≡ true }
    {
        self.recall_marked_stand();
        self.links[x - 1]
    }

    /// No row has a mark. None of the first rows up to a number has one.
    pub(crate) fn unmark_from(&mut self, from: usize)
        requires { (x : ℕ) → x ≤ from → (row_at self.old x).marked ≡ true → ⊥ }
        ensures { self.new ≡ map unmarked_row self.old }
    {
        lower(&mut self.marks, from);
    }

    /// A row with a mark stands, for the proofs of callers. It does nothing.
    pub(crate) fn recall_marked_stand(&self)
        ensures { (x : ℕ) → (row_at self.now x).marked ≡ true → (row_at self.now x).stands ≡ true }
    {
        let _ = &self.places;
    }

    /// Makes a row with so many empty fields under the next number, with a mark. Answers `AllocError`, with the rows as
    /// before, where there is no memory.
    #[inline(always)]
    pub(crate) fn add(&mut self, alloc: Global, fields: u8) -> Result<(), AllocError>
        ensures ok { OnOk result (self.new ≡ self.old ++
            record { fields = replicate fields None; marked = true; link = 0; stands = true } ∷ []) }
        ensures err { OnErr result (self.new ≡ self.old) }
    {
        take_room(
            &mut self.slab,
            &mut self.places,
            &mut self.marks,
            &mut self.links,
        )?;
        if fields == 0 {
            push_place(
                RowPlace::Leaf,
                &mut self.places,
                &mut self.marks,
                &mut self.links,
            );
            return Ok(());
        }
        let fields = Fields::empty(alloc, fields)?;
        let key = self.slab.insert_reserved(Row { fields });
        push_place(
            RowPlace::At(key as u32),
            &mut self.places,
            &mut self.marks,
            &mut self.links,
        );
        Ok(())
    }

    /// Removes row `x`. Its memory serves the next row.
    pub(crate) fn free(&mut self, x: usize)
        requires { (row_at self.old x).stands ≡ true }
        ensures { self.new ≡ numbered_set self.old x (gone (row_at self.old x).fields) }
    {
        let left = match self.places[x - 1] {
            RowPlace::At(key) => kept(self.slab.remove(key as usize)),
            RowPlace::Leaf => none_kept(),
            RowPlace::Gone(_) => unreachable!(),
        };
        self.places[x - 1] = RowPlace::Gone(left);
        self.marks[x - 1] = false;
        self.links[x - 1] = 0;
    }
}

// Takes room for one more row, whose key fits the index. Answers `AllocError` where there is no memory for it. The rows
// stay as they are.
#[inline(always)]
fn take_room(
    slab: &mut Slab<Row>,
    places: &mut Vec<RowPlace>,
    marks: &mut Vec<bool>,
    links: &mut Vec<u32>,
) -> Result<(), AllocError>
    ensures kept { (slab.new.slots ≡ slab.old.slots) × (places.new.items ≡ places.old.items)
        × (marks.new.items ≡ marks.old.items) × (links.new.items ≡ links.old.items) }
    ensures room { OnOk result (HasRoomFor slab.new 1 × (vec_len places.new < vec_capacity places.new)
        × (vec_len marks.new < vec_capacity marks.new) × (vec_len links.new < vec_capacity links.new)) }
    ensures key { OnOk result (slab.new.vacant_key ≤ u32.MAX) }
{
    if slab.vacant_key() > u32::MAX as usize {
        return Err(AllocError);
    }
    places.reserve(1)?;
    marks.reserve(1)?;
    links.reserve(1)?;
    slab.reserve(1)
}

// A further row is at that place, with a mark. There is room for it.
#[inline(always)]
fn push_place(
    place: RowPlace,
    places: &mut Vec<RowPlace>,
    marks: &mut Vec<bool>,
    links: &mut Vec<u32>,
)
    requires places { vec_len places.old < vec_capacity places.old }
    requires marks { vec_len marks.old < vec_capacity marks.old }
    requires links { vec_len links.old < vec_capacity links.old }
    ensures places { places.new.items ≡ places.old.items ++ place ∷ [] }
    ensures marks { marks.new.items ≡ marks.old.items ++ true ∷ [] }
    ensures links { links.new.items ≡ links.old.items ++ 0 ∷ [] }
{
    places.push_reserved(place);
    marks.push_reserved(true);
    links.push_reserved(0);
}

/// Takes all marks down, of which the first ones up to a number are down.
pub(crate) fn lower(marks: &mut Vec<bool>, from: usize)
    requires { All (λ m. m ≡ false) (take from marks.old.items) }
    ensures { marks.new.items ≡ replicate (length marks.old.items) false }
{
    for i in from..marks.len() {
        marks[i] = false;
    }
}

// Lets a removed row go, but for its fields, which are kept for proofs alone.
fn kept(row: Row) -> Snapshot<Fields>
    ensures { result.value ≡ row.fields }
{
    Snapshot::of(&row.fields)
}

// No fields, kept for proofs alone.
fn none_kept() -> Snapshot<Fields>
    ensures { result.value ≡ [] }
{
    Snapshot::of(&Fields::none())
}

/// Marks what fields hold, by the lists of marks and links.
pub(crate) fn visit_fields(
    fields: &[Option<u32>],
    marks: &mut [bool],
    links: &mut [u32],
    grey: &mut u32,
)
    requires held { (y : ℕ) → Contains fields.now (Some y) → (1 ≤ y) × (y ≤ length marks.old) }
    requires len { length links.old ≡ length marks.old }
    ensures len { (length marks.new ≡ length marks.old) × (length links.new ≡ length links.old) }
    ensures fresh { (k : ℕ) → HasMark (false ∷ marks.new) k
        → HasMark (false ∷ marks.old) k ⊎ Contains fields.now (Some k) }
    ensures raised { (k : ℕ) → HasMark (false ∷ marks.old) k → HasMark (false ∷ marks.new) k }
    ensures greyed { Greyed (λ y. Contains fields.now (Some y)) (false ∷ marks.old)
        (0 ∷ links.old) grey.old (false ∷ marks.new) (0 ∷ links.new) grey.new }
{
    for field in fields {
        visit_field(*field, marks, links, grey);
    }
}

/// Marks the row that a field holds, if it holds one, by the lists of marks and links.
pub(crate) fn visit_field(field: Option<u32>, marks: &mut [bool], links: &mut [u32], grey: &mut u32)
    requires held { (y : ℕ) → field ≡ Some y → (1 ≤ y) × (y ≤ length marks.old) }
    requires len { length links.old ≡ length marks.old }
    ensures len { (length marks.new ≡ length marks.old) × (length links.new ≡ length links.old) }
    ensures fresh { (k : ℕ) → HasMark (false ∷ marks.new) k → HasMark (false ∷ marks.old) k ⊎ (field ≡ Some k) }
    ensures raised { (k : ℕ) → HasMark (false ∷ marks.old) k → HasMark (false ∷ marks.new) k }
    ensures greyed { Greyed (λ y. field ≡ Some y) (false ∷ marks.old)
        (0 ∷ links.old) grey.old (false ∷ marks.new) (0 ∷ links.new) grey.new }
{
    if let Some(y) = field {
        visit_row(y, marks, links, grey);
    }
}

/// Marks row `y` by the lists of marks and links; one that wasn't marked comes first in the list of grey rows.
pub(crate) fn visit_row(y: u32, marks: &mut [bool], links: &mut [u32], grey: &mut u32)
    requires row { (1 ≤ y) × (y ≤ length marks.old) }
    requires len { length links.old ≡ length marks.old }
    ensures len { (length marks.new ≡ length marks.old) × (length links.new ≡ length links.old) }
    ensures fresh { (k : ℕ) → HasMark (false ∷ marks.new) k → HasMark (false ∷ marks.old) k ⊎ (k ≡ y) }
    ensures raised { Raises (λ z. z ≡ y) (false ∷ marks.old) (false ∷ marks.new) }
    ensures greyed { Greyed (λ z. z ≡ y) (false ∷ marks.old)
        (0 ∷ links.old) grey.old (false ∷ marks.new) (0 ∷ links.new) grey.new }
{
    let place = y as usize - 1;
    if !marks[place] {
        marks[place] = true;
        links[place] = *grey;
        *grey = y;
    }
}
