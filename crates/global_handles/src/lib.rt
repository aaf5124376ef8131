// The global handles: the table through which one heap names objects of the other, as in the Java Native Interface's
// global and weak global references.
//
// A handle on a peer, through a cycle in which the peer is freed:
//
//     let h = table.make(p, Hold::Held, Strength::Strong)?;
//     table.weaken(h);
//     table.clear_target(p);
//     match table.restore(h).0 { Back::Alive { h } => .., Back::Cleared => .. }
//
// A row has a number, the peer that it names, whether a managed object holds it or a raw global name does, and whether
// it is strong or weak. A strong row keeps its peer alive; a weak one doesn't, and is cleared when its peer is freed.
//
// The life of a row: `make` puts it into the table under the next number; numbers are never used again. `target` reads
// the peer. While a bridge cycle asks the peer heap which objects live, `weaken` makes the strong rows of the cycle
// weak; the peer heap marks and sweeps, and calls `clear_target` for each peer that it frees; `restore` then removes
// the row, and where it wasn't cleared a held strong row on the same peer comes under the next number. `release`
// removes a row. None of these but `make` takes memory, and it takes none where `reserve` left room for its row: so a
// caller can take all memory first.
//
// So numbers grow up to the last of their type, by one for each `make` and for each row that `restore` gives, while a
// row more comes by `make` alone. A row stands in a place, one for each `make`, which are at most 65,535; a restored
// row stays in its place and takes the new number. The list of names leads from a number to its place. It only grows at
// its end, so it stays sorted, and a look-up is one step where no number was left out, and goes by halves else, in 17
// steps at most. A name whose place has no row of its number is a hole. The list has at most two names for each place:
// where it is full, at least half of it are holes, and `restore` first lets go of those at the front where they are
// half of it, as they are where each handle was restored, and of all else. So what that reads is owed to the names that
// came since, and on average a restore takes the same time however many there were before.
//
// Else each call reads and writes a few rows, however many there are, and `clear_target` just those that it clears. A
// pass over all rows drops the holes by `settle` and then reads the rows in turn by `nth`.
//
// Where the chain of a peer's handles begins is kept in a list by the peer's number, which is at most 65,535; the list
// reaches as far as a handle was made, and room for the whole of it is taken by the first `reserve`.
//
// The table is a part of the peer side, which alone changes it. What is promised: the rows after each call are those of
// the definition; `release` refuses exactly a number that isn't in the table, and `make` all after its 65,535th row.
#![tactic(auto)]

ghost use Rattle.std.specs.Prelude.{◌≡◌, ◌==◌, ◌+◌, ◌*◌, ◌<◌, ◌≤◌, ◌↔◌, max, List, [], ◌∷◌, ◌++◌, true, length, map};
ghost use Rattle.std.specs.Prelude.{drop, filter, slice_get, All, ok_or, ℕ, ◌-◌, ◌≢◌, if◌then◌else◌, Ok, Err, None};
ghost use Rattle.std.specs.Prelude.{Some};
ghost use Rattle.std.specs.Prelude.{OnOk, OnErr, IfOk, IfSome, IsOk};
ghost use Rattle.std.specs.Option.{option_map};
ghost use Rattle.std.specs.Vec.{vec_capacity, vec_len};
ghost use Rattle.global_handles.specs.Slots.{name_in, named_row, is_named, rows_of, with_row, with_next, with_previous};
ghost use Rattle.global_handles.specs.Slots.{head_in, cleared_slot, NamesRise, ArePlaced, AreLinkedSlots, IsLastOpen};
ghost use Rattle.global_handles.specs.Slots.{AreHoles, DiffersByStrength, IsChained};
ghost use Rattle.global_handles.specs.Rows.{row_in, peer_in, target_in, strength_in, cleared_in, fresh_row, renewed};
ghost use Rattle.global_handles.specs.Rows.{with_strength, changed, cleared_for, without, not_live, is_alive, back_of};
ghost use Rattle.global_handles.specs.Rows.{IsWeakFor, IsRising};

use joint_model::{HNum, PNum, list_with_room};
use std::alloc::{AllocError, Global};
use std::marker::Model;
use std::mem;

/// The most handles that `make` ever makes in one [`HandleTable`].
pub const MOST_HANDLES: usize = 65_535;

// How many numbers a peer may have, from 0 on: those of the objects of a heap, which are at most 65,535.
const PEERS: usize = 65_536;

/// Who names the peer by a row: a managed object that holds it, or a raw global name.
#[derive(Clone, Copy, PartialEq, Eq, Debug)]
pub enum Hold {
    Held,
    Raw,
}

/// Whether a row keeps its peer alive.
#[derive(Clone, Copy, PartialEq, Eq, Debug)]
pub enum Strength {
    Strong,
    Weak,
}

/// A row of the table. A row that is cleared leads to no peer any more, but still tells which one it named.
#[derive(Clone, Copy, PartialEq, Eq, Debug)]
pub struct HandleRow {
    pub number: HNum,
    pub peer: PNum,
    pub hold: Hold,
    pub strength: Strength,
    pub cleared: bool,
}

/// What a row came back as: its peer lives, and the handle on it is `h` from now on; or the row was cleared.
#[derive(Clone, Copy, PartialEq, Eq, Debug)]
pub enum Back {
    Alive { h: HNum },
    Cleared,
}

impl Back {
    /// Whether the peer is there.
    pub fn is_alive(self) -> bool
        ensures { result ≡ is_alive self }
    {
        match self {
            Back::Alive { .. } => true,
            Back::Cleared => false,
        }
    }

    /// The handle that the restore gave; None where the peer isn't there.
    pub fn given(self) -> Option<HNum>
        ensures { back_of result ≡ self }
    {
        match self {
            Back::Alive { h } => Some(h),
            Back::Cleared => None,
        }
    }
}

/// Why a handle wasn't made.
#[derive(Clone, Copy, PartialEq, Eq, Debug)]
pub enum HandleFault {
    /// There is no memory for one more row.
    OutOfMemory,
    /// 65,535 handles were made by `make`, and places are never used again.
    HandlesFull,
}

impl From<AllocError> for HandleFault {
    ghost use Rattle.std.specs.Prelude.{◌≡◌};
    ghost use Rattle.global_handles.specs.declared.HandleFault.TheVariants.{OutOfMemory};

    ghost from_gives = { λ _ fault. fault ≡ OutOfMemory };

    fn from(_: AllocError) -> HandleFault {
        HandleFault::OutOfMemory
    }
}

/// The handle `h` isn't in the table.
#[derive(Clone, Copy, PartialEq, Eq, Debug)]
pub struct NotLive {
    pub h: HNum,
}

// What is kept of a row: all but its peer.
#[derive(Clone, Copy)]
struct Kept {
    number: u32,
    hold: Hold,
    strength: Strength,
    cleared: bool,
}

impl Kept {
    ghost use Rattle.global_handles.specs.Slots.{row_at};

    // The row of a number, with its peer.
    #[inline(always)]
    fn row(self, h: HNum, peer: PNum) -> HandleRow
        ensures { result ≡ row_at h.0 peer self }
    {
        HandleRow {
            number: h,
            peer,
            hold: self.hold,
            strength: self.strength,
            cleared: self.cleared,
        }
    }
}

// A place: the peer that its handle was made on, and its row until that is removed.
//
// While it has a row that isn't cleared, it is on the chain of its peer, which has just these slots, the last made
// first: `next` and `previous` are one more than the places of the slots after and before it there, 0 where there is
// none. The links of a slot that has no such row mean nothing, and none leads to it.
#[derive(Clone, Copy)]
struct Slot {
    peer: PNum,
    next: u32,
    previous: u32,
    row: Option<Kept>,
}

impl Slot {
    ghost use Rattle.global_handles.specs.Slots.{row_of, cleared_kept, is_open};

    // The slot's row, if it has one of this number.
    #[inline(always)]
    fn row(self, number: u32) -> Option<HandleRow>
        ensures { result ≡ row_of number self }
    {
        let kept = self.row?;
        if kept.number != number {
            return None;
        }
        Some(kept.row(HNum(number), self.peer))
    }

    // Whether the slot has a row that isn't cleared.
    fn is_open(self) -> bool
        ensures { result ≡ is_open self.row }
    {
        match self.row {
            Some(kept) => !kept.cleared,
            None => false,
        }
    }

    // The slot, with its row cleared.
    fn cleared(self) -> Slot
        ensures { result ≡ record {
          peer = self.peer;
          next = self.next;
          previous = self.previous;
          row = option_map cleared_kept self.row;
        } }
    {
        let row = match self.row {
            Some(kept) => Some(Kept {
                cleared: true,
                ..kept
            }),
            None => None,
        };
        Slot { row, ..self }
    }
}

// A number that was given, and its place. It leads to the row of that place while that row has the number.
#[derive(Clone, Copy, Drop)]
struct Name {
    number: u32,
    place: u32,
}

/// The handles from one heap into the other: rows in rising number. At most 65,535 are ever made by `make`.
#[derive(Drop)]
pub struct HandleTable {
    slots: Vec<Slot>,
    names: Vec<Name>,
    heads: Vec<u32>,
    live: u32,
    ready: u32,
    // The greatest number that was given.
    last: u32,
}

impl Model for HandleTable {
    ghost use Rattle.global_handles.specs.Rows.{Table};

    ghost Value = { Table };

    ghost use Rattle.global_handles.specs.Slots.{table_of, IsTable};

    ghost view = { table_of };

    ghost invariant = { IsTable };
}

impl HandleTable {
    /// An empty table. It asks for room for all handles that it will ever make, and goes without where there is no
    /// memory for that.
    pub fn new(alloc: Global) -> HandleTable
        ensures rows { result.rows ≡ [] }
        ensures made { result.made ≡ 0 }
        ensures last { result.last ≡ 0 }
        ensures room { result.room ≡ 0 }
    {
        HandleTable {
            slots: list_with_room(alloc, MOST_HANDLES),
            names: list_with_room(alloc, 2 * MOST_HANDLES),
            heads: list_with_room(alloc, PEERS),
            live: 0,
            ready: 0,
            last: 0,
        }
    }

    /// Takes room for so many more handles, whatever peers they are made on. Answers `AllocError`, with nothing
    /// changed, where there is no memory.
    pub fn reserve(&mut self, additional: u32) -> Result<(), AllocError>
        ensures ok { OnOk result (self.new ≡ record self.old { room = additional }) }
        ensures err { OnErr result (self.new ≡ self.old) }
    {
        self.slots.reserve(additional as usize)?;
        reserve_names(&mut self.names, self.slots.len() + additional as usize)?;
        self.heads.reserve(PEERS - self.heads.len())?;
        self.ready = additional;
        Ok(())
    }

    /// Makes a handle on `p`, whose number is the greatest one given plus 1. The new row isn't cleared. The number of
    /// `p` is at most 65,535, and the greatest number given isn't the last of its type.
    ///
    /// Answers `HandlesFull` exactly where 65,535 were made by this call, which is tested before memory is asked for,
    /// and `OutOfMemory` where there is no memory for the row. After either the table is as before. Where there is room
    /// for a further handle, it takes no memory and uses the room of one.
    pub fn make(&mut self, p: PNum, hold: Hold, strength: Strength) -> Result<HNum, HandleFault>
        requires peer { p.0 ≤ 65535 }
        requires last { self.old.last < u32.MAX }
        ensures number { IfOk result (λ h. h.0 ≡ self.old.last + 1) }
        ensures rows { IfOk result (λ h. self.new.rows ≡ self.old.rows ++ fresh_row h p hold strength ∷ []) }
        ensures made { OnOk result (self.new.made ≡ self.old.made + 1) }
        ensures last { OnOk result (self.new.last ≡ self.old.last + 1) }
        ensures room { OnOk result (self.new.room ≡ self.old.room - 1) }
        ensures full { (result ≡ Err HandleFault.HandlesFull) ↔ (self.old.made ≡ 65535) }
        ensures reserved { 1 ≤ self.old.room → result ≢ Err HandleFault.OutOfMemory }
        ensures err { OnErr result (self.new ≡ self.old) }
        ensures rising { IsRising self.new }
    {
        if self.slots.len() == MOST_HANDLES {
            return Err(HandleFault::HandlesFull);
        }
        self.slots.reserve(1)?;
        reserve_names(&mut self.names, self.slots.len() + 1)?;
        make_head(&mut self.heads, p)?;
        let place = self.slots.len() as u32;
        let next = set_head(&mut self.heads, p, place + 1);
        set_previous(&mut self.slots, next, place + 1);
        let number = self.last + 1;
        let kept = Kept {
            number,
            hold,
            strength,
            cleared: false,
        };
        self.slots.push_reserved(Slot {
            peer: p,
            next,
            previous: 0,
            row: Some(kept),
        });
        self.names.push_reserved(Name { number, place });
        self.last = number;
        self.live += 1;
        self.ready = self.ready.saturating_sub(1);
        Ok(HNum(number))
    }

    /// The peer that `h` leads to; None exactly where `h` isn't in the table or is cleared.
    #[inline(always)]
    pub fn target(&self, h: HNum) -> Option<PNum>
        ensures { result ≡ target_in self.now.rows h }
    {
        let row = self.row(h)?;
        if row.cleared { None } else { Some(row.peer) }
    }

    /// The row of `h`; None exactly where `h` isn't in the table.
    #[inline(always)]
    pub fn row(&self, h: HNum) -> Option<HandleRow>
        ensures row { result ≡ row_in self.now.rows h }
        ensures rising { IsRising self.now }
    {
        let (_, row) = look_up(self.names.as_slice(), self.slots.as_slice(), h)?;
        Some(row)
    }

    /// Makes a strong row weak. It takes no memory.
    pub fn weaken(&mut self, h: HNum)
        requires { strength_in self.old.rows h ≡ Some Strength.Strong }
        ensures rows { self.new.rows ≡ changed (with_strength Strength.Weak) h self.old.rows }
        ensures made { self.new.made ≡ self.old.made }
        ensures last { self.new.last ≡ self.old.last }
        ensures room { self.new.room ≡ self.old.room }
        ensures rising { IsRising self.new }
    {
        self.set_strength(h, Strength::Weak);
    }

    /// Removes a row, strong or weak, and answers its peer beside what it came back as. Where it is cleared that is
    /// `Cleared`. Else a held strong row on the same peer comes under the next number, and it is `Alive` with it. The
    /// greatest number given isn't the last of its type. It takes no memory.
    #[inline(always)]
    pub fn restore(&mut self, h: HNum) -> (Back, PNum)
        requires there { row_in self.old.rows h ≢ None }
        requires last { self.old.last < u32.MAX }
        ensures peer { peer_in self.old.rows h ≡ Some result.1 }
        ensures cleared { (result.0 ≡ Back.Cleared) ↔ (cleared_in self.old.rows h ≡ Some true) }
        ensures gone { result.0 ≡ Back.Cleared
            → (self.new.rows ≡ without h self.old.rows) × (self.new.last ≡ self.old.last) }
        ensures anew { (g : HNum) → result.0 ≡ Back.Alive g → (self.new.rows ≡ renewed h g self.old.rows)
            × (g.0 ≡ self.old.last + 1) × (self.new.last ≡ self.old.last + 1) }
        ensures made { self.new.made ≡ self.old.made }
        ensures room { self.new.room ≡ self.old.room }
        ensures rising { IsRising self.new }
    {
        let (name, row) = look_up_there(self.names.as_slice(), self.slots.as_slice(), h);
        if row.cleared {
            let _ = self.release(h);
            return (Back::Cleared, row.peer);
        }
        make_gap(&mut self.names, self.slots.as_slice());
        let number = self.last + 1;
        let kept = Kept {
            number,
            hold: Hold::Held,
            strength: Strength::Strong,
            cleared: false,
        };
        set_row(&mut self.slots, name.place, Some(kept));
        self.names.push_reserved(Name {
            number,
            place: name.place,
        });
        self.last = number;
        (Back::Alive { h: HNum(number) }, row.peer)
    }

    // Changes the strength of a row.
    fn set_strength(&mut self, h: HNum, strength: Strength)
        requires { row_in self.old.rows h ≢ None }
        ensures rows { self.new.rows ≡ changed (with_strength strength) h self.old.rows }
        ensures made { self.new.made ≡ self.old.made }
        ensures last { self.new.last ≡ self.old.last }
        ensures room { self.new.room ≡ self.old.room }
        ensures rising { IsRising self.new }
    {
        let (name, row) = look_up_there(self.names.as_slice(), self.slots.as_slice(), h);
        let kept = Kept {
            number: h.0,
            hold: row.hold,
            strength,
            cleared: row.cleared,
        };
        put_strength(&mut self.slots, name.place, kept);
    }

    /// Clears each row of `p`, whose object is freed. It takes no memory.
    ///
    /// It visits just the rows of `p` that aren't cleared yet, and no others: neither rows of other peers, nor
    /// handles that were released. So in the whole life of a table each place is visited at most once.
    pub fn clear_target(&mut self, p: PNum)
        requires { All (IsWeakFor p) self.old.rows }
        ensures rows { self.new.rows ≡ cleared_for p self.old.rows }
        ensures made { self.new.made ≡ self.old.made }
        ensures last { self.new.last ≡ self.old.last }
        ensures room { self.new.room ≡ self.old.room }
        ensures rising { IsRising self.new }
    {
        let from = take_head(&mut self.heads, p);
        clear_chain(&mut self.slots, p, from);
    }

    /// Removes the row of `h` and answers it, as it stood. It takes no memory.
    ///
    /// Answers `NotLive`, with nothing changed, exactly where `h` isn't in the table.
    pub fn release(&mut self, h: HNum) -> Result<HandleRow, NotLive>
        ensures row { result ≡ ok_or (row_in self.old.rows h) (not_live h) }
        ensures rows { self.new.rows ≡ without h self.old.rows }
        ensures made { self.new.made ≡ self.old.made }
        ensures last { self.new.last ≡ self.old.last }
        ensures room { self.new.room ≡ self.old.room }
        ensures err { OnErr result (self.new ≡ self.old) }
        ensures rising { IsRising self.new }
    {
        let Some((name, row)) = look_up(self.names.as_slice(), self.slots.as_slice(), h) else {
            return Err(NotLive { h });
        };
        remove_row(&mut self.slots, &mut self.heads, name.place);
        self.live -= 1;
        Ok(row)
    }

    /// The number of rows in the table. At most 65,535.
    pub fn len(&self) -> u32
        ensures len { result ≡ length self.now.rows }
        ensures most { result ≤ 65535 }
    {
        self.live
    }

    /// Whether the table has no row.
    pub fn is_empty(&self) -> bool
        ensures { result ≡ (length self.now.rows == 0) }
    {
        self.live == 0
    }

    /// Drops the holes from the list of names, so that [`HandleTable::nth`] may be called: in the life of a table each
    /// number is dropped once. It takes no memory, and what it reads beside the holes is the rows.
    pub fn settle(&mut self)
        ensures { self.new ≡ record self.old { holes = 0 } }
    {
        drop_holes(&mut self.names, self.slots.as_slice());
    }

    /// The row at a place of the list of all rows, which is sorted by number. No hole is left in the table.
    pub fn nth(&self, i: u32) -> HandleRow
        requires settled { self.now.holes ≡ 0 }
        requires within { i < length self.now.rows }
        ensures { slice_get self.now.rows i ≡ Some result }
    {
        let name = self.names[i as usize];
        let Some(row) = named(self.slots.as_slice(), name) else {
            unreachable!();
        };
        row
    }

    /// How many handles `make` made. At most 65,535.
    pub fn made(&self) -> u32
        ensures made { result ≡ self.now.made }
        ensures most { result ≤ 65535 }
    {
        self.slots.len() as u32
    }

    /// The greatest number that was given, 0 if none.
    pub fn last(&self) -> u32
        ensures last { result ≡ self.now.last }
        ensures rising { IsRising self.now }
    {
        self.last
    }
}

// The name and the row of a number, if it is in the table.
#[inline(always)]
fn look_up(names: &[Name], slots: &[Slot], h: HNum) -> Option<(Name, HandleRow)>
    requires { (high : ℕ) × NamesRise 0 high names.now }
    ensures some { (e : Name) (r : HandleRow) → result ≡ Some (e, r)
        → (name_in names.now h ≡ Some e) × (row_in (rows_of slots.now names.now) h ≡ Some r) }
    ensures none { result ≡ None → row_in (rows_of slots.now names.now) h ≡ None }
{
    let name = find(names, h)?;
    let row = named(slots, name)?;
    Some((name, row))
}

// The name and the row of a number that is in the table.
#[inline(always)]
fn look_up_there(names: &[Name], slots: &[Slot], h: HNum) -> (Name, HandleRow)
    requires rise { (high : ℕ) × NamesRise 0 high names.now }
    requires there { row_in (rows_of slots.now names.now) h ≢ None }
    ensures name { name_in names.now h ≡ Some result.0 }
    ensures row { row_in (rows_of slots.now names.now) h ≡ Some result.1 }
{
    let name = find_there(names, h);
    let slot = slots[name.place as usize];
    let Some(kept) = slot.row else {
        unreachable!();
    };
    (name, kept.row(h, slot.peer))
}

// The name of a number that is among these, which are sorted by number. Where no number is left out before it, it
// stands as far behind the first as its number is greater.
#[inline(always)]
fn find_there(names: &[Name], h: HNum) -> Name
    requires rise { (high : ℕ) × NamesRise 0 high names.now }
    requires there { name_in names.now h ≢ None }
    ensures { name_in names.now h ≡ Some result }
{
    let behind = (h.0 - names[0].number) as usize;
    if behind < names.len() {
        let name = names[behind];
        if name.number == h.0 {
            return name;
        }
    }
    names[far(names, h)]
}

// The name of a number, if it is among these, which are sorted by number.
#[inline(always)]
fn find(names: &[Name], h: HNum) -> Option<Name>
    requires { (high : ℕ) × NamesRise 0 high names.now }
    ensures { result ≡ name_in names.now h }
{
    match straight(names, h) {
        Some(name) => Some(name),
        None => names.get(far(names, h)).copied(),
    }
}

// The place of the name of a number among these, which are sorted by number, where it isn't as far behind the first as
// its number is greater; a place behind all of them where it isn't among them.
#[inline(never)]
fn far(names: &[Name], h: HNum) -> usize
    requires { (high : ℕ) × NamesRise 0 high names.now }
    ensures { slice_get names.now result ≡ name_in names.now h }
{
    match straight_back(names, h) {
        Some(place) => place,
        None => search(names, h),
    }
}

// The name of a number that stands as far behind the first as its number is greater: there it is where no number is
// left out before it.
#[inline(always)]
fn straight(names: &[Name], h: HNum) -> Option<Name>
    requires { (high : ℕ) × NamesRise 0 high names.now }
    ensures { (e : Name) → result ≡ Some e → name_in names.now h ≡ Some e }
{
    let first = names.first()?;
    let behind = h.0.checked_sub(first.number)?;
    let name = names.get(behind as usize)?;
    if name.number == h.0 {
        Some(*name)
    } else {
        None
    }
}

// The place of a number's name that stands as far before the last as its number is less: there it is where no number is
// left out behind it.
#[inline(always)]
fn straight_back(names: &[Name], h: HNum) -> Option<usize>
    requires { (high : ℕ) × NamesRise 0 high names.now }
    ensures { IfSome result (λ i. slice_get names.now i ≡ name_in names.now h) }
{
    let last = names.last()?;
    let before = last.number.checked_sub(h.0)?;
    let behind = (names.len() - 1).checked_sub(before as usize)?;
    let name = names.get(behind)?;
    if name.number == h.0 {
        Some(behind)
    } else {
        None
    }
}

// The place of the name of a number among these, which are sorted by number; a place behind all of them where it isn't
// among them. It goes by halves, from the span where the number can stand.
fn search(names: &[Name], h: HNum) -> usize
    requires { (high : ℕ) × NamesRise 0 high names.now }
    ensures { slice_get names.now result ≡ name_in names.now h }
{
    let (mut low, mut high) = span(names, h);
    while low < high {
        let middle = low + (high - low) / 2;
        let name = names[middle];
        if name.number == h.0 {
            return middle;
        }
        if name.number < h.0 {
            low = middle + 1;
        } else {
            high = middle;
        }
    }
    names.len()
}

// The span where the name of a number can stand, from this place on and below that one: numbers rise by one at least
// from name to name, so it stands neither further from the first name than its number, nor further from the last. Where
// no number is left out between the first and the last, that is one place, and else one more for each that is.
fn span(names: &[Name], h: HNum) -> (usize, usize)
    requires { (high : ℕ) × NamesRise 0 high names.now }
    ensures order { result.0 ≤ result.1 }
    ensures within { result.1 ≤ length names.now }
    ensures below { (i : ℕ) (e : Name) → i < result.0 → slice_get names.now i ≡ Some e → e.number < h.0 }
    ensures above { (i : ℕ) (e : Name) → result.1 ≤ i → slice_get names.now i ≡ Some e → h.0 < e.number }
{
    let len = names.len();
    if len == 0 {
        return (0, 0);
    }
    let first = names[0].number;
    if h.0 < first {
        return (0, 0);
    }
    let last = names[len - 1].number;
    if last < h.0 {
        return (len, len);
    }
    let behind = (h.0 - first) as usize;
    let before = (last - h.0) as usize;
    let low = (len - 1).saturating_sub(before);
    let high = len - (len - 1).saturating_sub(behind);
    (low, high)
}

// The row that a name leads to.
#[inline(always)]
fn named(slots: &[Slot], name: Name) -> Option<HandleRow>
    ensures { result ≡ named_row slots.now name }
{
    let slot = slots.get(name.place as usize).copied()?;
    slot.row(name.number)
}

// Takes room for two names for each of so many places.
fn reserve_names(names: &mut Vec<Name>, places: usize) -> Result<(), AllocError>
    requires few { length names.old.items ≤ 2 * places }
    requires places { places ≤ 4295032830 }
    ensures items { names.new.items ≡ names.old.items }
    ensures room { OnOk result (2 * places ≤ vec_capacity names.new) }
    ensures capacity { vec_capacity names.old ≤ vec_capacity names.new }
    ensures reserved { 2 * places ≤ vec_capacity names.old → IsOk result }
{
    names.reserve(2 * places - names.len())
}

// Whether a name leads to a row.
#[inline(always)]
fn leads(slots: &[Slot], name: Name) -> bool
    ensures { result ≡ is_named slots.now name }
{
    match slots.get(name.place as usize) {
        None => false,
        Some(slot) => match slot.row {
            Some(kept) => kept.number == name.number,
            None => false,
        },
    }
}

// How many names there are before the first that leads to a row.
fn front_holes(names: &[Name], slots: &[Slot]) -> usize
    ensures within { result ≤ length names.now }
    ensures holes { AreHoles slots.now result names.now }
{
    let mut holes = 0;
    while holes < names.len() && !leads(slots, names[holes]) {
        holes += 1;
    }
    holes
}

// Takes the first so many names off.
fn drop_front(names: &mut Vec<Name>, n: usize)
    requires { n ≤ vec_len names.old }
    ensures items { names.new.items ≡ drop n names.old.items }
    ensures capacity { vec_capacity names.new ≡ vec_capacity names.old }
{
    let len = names.len();
    names.as_mut_slice().copy_within(n..len, 0);
    names.truncate(len - n);
}

// Leaves just the names that lead to a row.
#[inline(never)]
fn drop_holes(names: &mut Vec<Name>, slots: &[Slot])
    ensures items { names.new.items ≡ filter (is_named slots.now) names.old.items }
    ensures capacity { vec_capacity names.new ≡ vec_capacity names.old }
{
    names.retain(|name| leads(slots, *name));
}

// Lets go of holes: those at the front, where they are half of all names, as they are where each handle was restored;
// else each one.
#[inline(never)]
fn let_holes_go(names: &mut Vec<Name>, slots: &[Slot])
    requires some { 1 ≤ length names.old.items }
    requires rows { length (rows_of slots.now names.old.items) < length names.old.items }
    ensures fewer { length names.new.items < length names.old.items }
    ensures rows { rows_of slots.now names.new.items ≡ rows_of slots.now names.old.items }
    ensures rise { (high : ℕ) → NamesRise 0 high names.old.items → NamesRise 0 high names.new.items }
    ensures found { (h : HNum) (e : Name) → name_in names.old.items h ≡ Some e
        → is_named slots.now e ≡ true → name_in names.new.items h ≡ Some e }
    ensures placed { (n : ℕ) → ArePlaced n names.old.items → ArePlaced n names.new.items }
    ensures capacity { vec_capacity names.new ≡ vec_capacity names.old }
{
    let holes = front_holes(names.as_slice(), slots);
    if names.len() <= 2 * holes {
        drop_front(names, holes);
    } else {
        drop_holes(names, slots);
    }
}

// Makes sure that one more name is within two for each place: where it isn't, holes go.
fn make_gap(names: &mut Vec<Name>, slots: &[Slot])
    requires few { length names.old.items ≤ 2 * length slots.now }
    requires rows { length (rows_of slots.now names.old.items) < 2 * length slots.now }
    ensures gap { length names.new.items < 2 * length slots.now }
    ensures rows { rows_of slots.now names.new.items ≡ rows_of slots.now names.old.items }
    ensures rise { (high : ℕ) → NamesRise 0 high names.old.items → NamesRise 0 high names.new.items }
    ensures found { (h : HNum) (e : Name) → name_in names.old.items h ≡ Some e
        → is_named slots.now e ≡ true → name_in names.new.items h ≡ Some e }
    ensures placed { (n : ℕ) → ArePlaced n names.old.items → ArePlaced n names.new.items }
    ensures capacity { vec_capacity names.new ≡ vec_capacity names.old }
{
    if names.len() == 2 * slots.len() {
        let_holes_go(names, slots);
    }
}

// Changes the row of a place to this one, which differs from it by its strength alone.
#[inline(always)]
fn put_strength(slots: &mut Vec<Slot>, place: u32, kept: Kept)
    requires within { place < length slots.old.items }
    requires same { DiffersByStrength slots.old.items place kept }
    ensures items { slots.new.items ≡ with_row slots.old.items place (Some kept) }
    ensures capacity { vec_capacity slots.new ≡ vec_capacity slots.old }
{
    let Some(row) = &mut slots[place as usize].row else {
        unreachable!();
    };
    row.strength = kept.strength;
}

// Changes or removes the row of a place.
fn set_row(slots: &mut Vec<Slot>, place: u32, row: Option<Kept>)
    requires { place < length slots.old.items }
    ensures items { slots.new.items ≡ with_row slots.old.items place row }
    ensures capacity { vec_capacity slots.new ≡ vec_capacity slots.old }
{
    slots[place as usize].row = row;
}

// Lets the slot of a number lead on to this one; at 0 there is no slot, and nothing is done.
fn set_next(slots: &mut Vec<Slot>, at: u32, next: u32)
    requires { at ≤ length slots.old.items }
    ensures items { slots.new.items ≡ with_next slots.old.items at next }
    ensures capacity { vec_capacity slots.new ≡ vec_capacity slots.old }
{
    if at == 0 {
        return;
    }
    slots[at as usize - 1].next = next;
}

// Lets the slot of a number lead back to this one; at 0 there is no slot, and nothing is done.
fn set_previous(slots: &mut Vec<Slot>, at: u32, previous: u32)
    requires { at ≤ length slots.old.items }
    ensures items { slots.new.items ≡ with_previous slots.old.items at previous }
    ensures len { vec_len slots.new ≡ vec_len slots.old }
    ensures capacity { vec_capacity slots.new ≡ vec_capacity slots.old }
{
    if at == 0 {
        return;
    }
    slots[at as usize - 1].previous = previous;
}

// Removes the row of a place, and takes its slot off its chain, if it is on one. It takes no memory.
fn remove_row(slots: &mut Vec<Slot>, heads: &mut Vec<u32>, place: u32)
    requires within { place < length slots.old.items }
    requires chained { IsChained slots.old.items (head_in heads.old.items) }
    ensures chained { IsChained slots.new.items (head_in heads.new.items) }
    ensures rows { (names : List Name) → rows_of slots.new.items names ≡ rows_of
        (with_row slots.old.items place None) names }
    ensures len { length slots.new.items ≡ length slots.old.items }
    ensures capacity { vec_capacity slots.new ≡ vec_capacity slots.old }
    ensures heads_len { length heads.new.items ≡ length heads.old.items }
    ensures heads_capacity { vec_capacity heads.new ≡ vec_capacity heads.old }
{
    let slot = slots[place as usize];
    set_row(slots, place, None);
    if !slot.is_open() {
        return;
    }
    set_next(slots, slot.previous, slot.next);
    set_previous(slots, slot.next, slot.previous);
    if slot.previous == 0 {
        let _ = set_head(heads, slot.peer, slot.next);
    }
}

// Makes a place for the head of a peer's chain, and of all peers' before it, if there is none.
fn make_head(heads: &mut Vec<u32>, p: PNum) -> Result<(), AllocError>
    ensures place { OnOk result (length heads.new.items ≡ max (length heads.old.items) (p.0 + 1)) }
    ensures heads { (q : PNum) → head_in heads.new.items q ≡ head_in heads.old.items q }
    ensures capacity { vec_capacity heads.old ≤ vec_capacity heads.new }
    ensures reserved { p.0 < vec_capacity heads.old → IsOk result }
    ensures err { OnErr result (heads.new.items ≡ heads.old.items) }
{
    let place = p.0 as usize;
    if place >= heads.len() {
        heads.resize(place + 1, 0)?;
    }
    Ok(())
}

// Lets the chain of a peer that has a place begin at this number, and answers where it began before; 0 stands for no
// chain. It takes no memory.
fn set_head(heads: &mut Vec<u32>, p: PNum, number: u32) -> u32
    requires { p.0 < length heads.old.items }
    ensures before { result ≡ head_in heads.old.items p }
    ensures head { (q : PNum) → head_in heads.new.items q ≡ (if p.0 == q.0 then number else head_in heads.old.items q) }
    ensures len { length heads.new.items ≡ length heads.old.items }
    ensures capacity { vec_capacity heads.new ≡ vec_capacity heads.old }
{
    mem::replace(&mut heads[p.0 as usize], number)
}

// Ends the chain of a peer, and answers where it began; 0 where there was none. It takes no memory.
fn take_head(heads: &mut Vec<u32>, p: PNum) -> u32
    ensures before { result ≡ head_in heads.old.items p }
    ensures head { (q : PNum) → head_in heads.new.items q ≡ (if p.0 == q.0 then 0 else head_in heads.old.items q) }
    ensures len { length heads.new.items ≡ length heads.old.items }
    ensures capacity { vec_capacity heads.new ≡ vec_capacity heads.old }
{
    if p.0 as usize >= heads.len() {
        return 0;
    }
    set_head(heads, p, 0)
}

// Clears each row of a peer, from the slot of this number on to the earlier ones. Each slot that it visits has a row
// of the peer that isn't cleared.
fn clear_chain(slots: &mut Vec<Slot>, p: PNum, from: u32)
    requires linked { AreLinkedSlots slots.old.items }
    requires leads { IsLastOpen slots.old.items p from (length slots.old.items) }
    ensures items { slots.new.items ≡ map (cleared_slot p) slots.old.items }
    ensures capacity { vec_capacity slots.new ≡ vec_capacity slots.old }
{
    let mut at = from;
    while at > 0 {
        let slot = slots[at as usize - 1];
        slots[at as usize - 1] = slot.cleared();
        at = slot.next;
    }
}
