// Lists of numbers, one behind the other in one flat list.

ghost use Rattle.std.specs.Prelude.{◌≡◌, ◌+◌, ◌<◌, ◌≤◌, [], ◌∷◌, ◌++◌, length, vec_len, vec_capacity, IfOk, OnOk};
ghost use Rattle.std.specs.Prelude.{OnErr};
ghost use Rattle.bridge_graph.specs.Packing.{packed_row, IsCut};
ghost use Rattle.bridge_graph.specs.Parts.{row_at};

use std::alloc::{AllocError, Global};
use std::marker::Model;
use xref_list::ListingFault;

// The most elements that stand before a list.
const MOST_ELEMENTS: usize = 4_294_967_295;

// Past so many elements room is made for a block of them, where there is memory for it. Room that nothing is put into
// takes no memory, and so large a piece lies outside of the allocator's heap: where it grows, its pages are moved, and
// no element is copied.
const SHORT: usize = 16_384;

const BLOCK: usize = 524_288;

/// A list of lists, each of which is put last and is then only read.
#[derive(Drop)]
pub(crate) struct Lists {
    starts: Vec<u32>,
    items: Vec<u32>,
}

impl Model for Lists {
    ghost use Rattle.std.specs.Prelude.{ℕ, List, length};

    ghost Value = { List (List ℕ) };

    ghost use Rattle.bridge_graph.specs.Packing.{packed_rows, IsCut};

    ghost view = { λ l. packed_rows l.starts.items l.items.items (length l.starts.items) };

    ghost invariant = { λ l. IsCut l.starts.items l.items.items };
}

impl Lists {
    /// No list.
    pub fn new(alloc: Global) -> Lists
        ensures { result ≡ [] }
    {
        Lists {
            starts: Vec::new(alloc),
            items: Vec::new(alloc),
        }
    }

    /// The empty list alone.
    pub fn of_empty(alloc: Global) -> Result<Lists, ListingFault>
        ensures { IfOk result (λ l. l ≡ [] ∷ []) }
    {
        let mut lists = Lists::new(alloc);
        lists.push(&[])?;
        Ok(lists)
    }

    /// No list, with room for so many lists, which have so many elements in all.
    pub fn with_capacity(alloc: Global, lists: usize, elements: usize) -> Result<Lists, AllocError>
        ensures { IfOk result (λ l. l ≡ []) }
    {
        Ok(Lists {
            starts: Vec::with_capacity(alloc, lists)?,
            items: Vec::with_capacity(alloc, elements)?,
        })
    }

    /// The number of lists.
    pub fn len(&self) -> usize
        ensures { result ≡ length self.now }
    {
        self.starts.len()
    }

    /// The list with index `i`.
    pub fn row(&self, i: usize) -> &[u32]
        requires { i < length self.now }
        ensures { result.now ≡ row_at self.now i }
    {
        cut_row(&self.starts, &self.items, i)
    }

    /// Puts a list last. Answers `TooMany` where more than 4,294,967,295 elements stand before it.
    #[inline(always)]
    pub fn push(&mut self, row: &[u32]) -> Result<(), ListingFault>
        ensures lists { OnOk result (self.new ≡ self.old ++ row.now ∷ []) }
        ensures err { OnErr result (self.new ≡ self.old) }
    {
        self.starts.reserve(1)?;
        make_room(&mut self.items, row.len())?;
        let start = self.items.len();
        if start > MOST_ELEMENTS {
            return Err(ListingFault::TooMany);
        }
        append(&mut self.items, row);
        self.starts.push_reserved(start as u32);
        Ok(())
    }
}

// Makes room for `n` more elements. Answers `AllocError` where there is no memory for them.
#[inline(always)]
fn make_room(items: &mut Vec<u32>, n: usize) -> Result<(), AllocError>
    ensures room { OnOk result (vec_len items.new + n ≤ vec_capacity items.new) }
    ensures items { items.new.items ≡ items.old.items }
{
    if n <= items.capacity() - items.len() {
        return Ok(());
    }
    grow(items, n)
}

// Makes room as `make_room` does, where there isn't enough yet.
#[inline(never)]
fn grow(items: &mut Vec<u32>, n: usize) -> Result<(), AllocError>
    ensures room { OnOk result (vec_len items.new + n ≤ vec_capacity items.new) }
    ensures items { items.new.items ≡ items.old.items }
{
    if items.len() >= SHORT && items.reserve(n.max(BLOCK)).is_ok() {
        return Ok(());
    }
    items.reserve(n)
}

// The list that begins at start `i` and ends at the next one's, or at the end.
fn cut_row<'a>(starts: &[u32], items: &'a [u32], i: usize) -> &'a [u32]
    requires cut { IsCut starts.now items.now }
    requires index { i < length starts.now }
    ensures { result.now ≡ packed_row starts.now items.now i }
{
    let start = starts[i] as usize;
    let end = if i + 1 < starts.len() {
        starts[i + 1] as usize
    } else {
        items.len()
    };
    &items[start..end]
}

// Puts a list last, for which there is room. Most lists have one element, so it is a loop, and no copy.
fn append(items: &mut Vec<u32>, row: &[u32])
    requires { vec_len items.old + length row.now ≤ vec_capacity items.old }
    ensures { items.new.items ≡ items.old.items ++ row.now }
{
    for x in row {
        items.push_reserved(*x);
    }
}
