// Lists with room that is known: the entries of one side or one reader, and the answers of a cycle's
// candidates.

ghost use Rattle.std.specs.Prelude.{◌≡◌, ◌+◌, ◌<◌, ◌≤◌, ◌==◌, [], ◌∷◌, ◌++◌, length, slice_get, IfOk, IfSome};
ghost use Rattle.std.specs.Prelude.{MatchOption, OnErr};
ghost use Rattle.joint_model.specs.declared.lists.Holding.TheVariants.{Every, Last};

use crate::kept::{BLOCK, Kept, MOST};
use joint_machine::{Entry, HNum};
use std::alloc::{AllocError, Global};
use std::marker::Model;
use std::snapshot::Snapshot;

// The same where entries are let go: so few that they stay near.
const PASSING: usize = 512;

/// Which entries a list holds.
#[derive(Clone, Copy, PartialEq, Eq, Debug)]
pub enum Holding {
    /// Every one, for a history that is read.
    Every,
    /// The last ones, where none is read again: the list lets the others go when it needs their room.
    Last,
}

/// The entries of one side or one reader, in the order in which they were made. It holds at most
/// 4,294,967,295; a growth past that is refused as a growth. An entry takes 44 bytes, and 20 more where entries follow
/// it that are kept by their handles, or where its number or the one that it cites is 2^32 or more; or it takes four:
/// see [`Entries::push_handle`]. What a list lets go it has for proofs alone, in no bytes.
#[derive(Drop)]
pub struct Entries {
    kept: Kept,
    // What was let go, in no bytes, and how many entries that were.
    past: Vec<Snapshot<Kept>>,
    gone: u32,
    holding: Holding,
}

impl Model for Entries {
    ghost use Rattle.std.specs.Prelude.{◌≡◌, ◌+◌, ◌≤◌, ◌++◌, length};
    ghost use Rattle.joint_model.specs.declared.lists.Holding.TheVariants.{Every};
    ghost use Rattle.joint_model.specs.Listed.{Stock, passed};
    ghost use Rattle.joint_machine.specs.Numbers.{u32_max};

    ghost Value = { Stock };

    ghost view = { λ s. record {
      entries = passed s.past.items ++ s.kept.entries;
      spare = s.kept.spare;
      holding = s.holding;
    } };

    ghost invariant = { λ s. (s.gone ≡ length (passed s.past.items))
        × (s.gone + length s.kept.entries + s.kept.spare ≤ u32_max) × (s.holding ≡ Every → s.gone ≡ 0) };
}

/// An empty list, with room for `n` items where there is memory for it; else it grows as it needs. Room that nothing is
/// put into takes no memory, and a list that never grows is never copied.
pub fn list_with_room<T>(alloc: Global, n: usize) -> Vec<T>
    ensures { result.items ≡ [] }
{
    let mut list = Vec::new(alloc);
    let _ = list.reserve(n);
    list
}

impl Entries {
    /// The empty list, which keeps the allocator.
    pub fn new(alloc: Global, holding: Holding) -> Entries
        ensures entries { result.entries ≡ [] }
        ensures spare { result.spare ≤ u32.MAX }
        ensures holding { result.holding ≡ holding }
    {
        Entries {
            kept: Kept::new(alloc),
            past: Vec::new(alloc),
            gone: 0,
            holding,
        }
    }

    // Lets all entries go that are kept. It takes no memory, since what is kept of them for proofs takes no bytes.
    fn let_go(&mut self) -> Result<(), AllocError>
        requires { self.old.holding ≡ Last }
        ensures entries { self.new.entries ≡ self.old.entries }
        ensures spare { self.new.spare ≡ self.old.spare }
        ensures holding { self.new.holding ≡ self.old.holding }
        ensures err { OnErr result (self.new ≡ self.old) }
    {
        self.past.push(Snapshot::of(&self.kept))?;
        self.gone += self.kept.len();
        self.kept.clear();
        Ok(())
    }

    // Makes room as `reserve` does, where there isn't enough yet.
    #[inline(never)]
    fn grow(&mut self, n: u32) -> Result<(), AllocError>
        ensures room { IfOk result (λ _. n ≤ self.new.spare) }
        ensures kept { self.old.spare ≤ self.new.spare }
        ensures entries { self.new.entries ≡ self.old.entries }
        ensures holding { self.new.holding ≡ self.old.holding }
        ensures limit { length self.new.entries + self.new.spare ≤ u32.MAX }
        ensures err { OnErr result (self.new ≡ self.old) }
    {
        let block = match self.holding {
            Holding::Every => BLOCK,
            Holding::Last => {
                self.let_go()?;
                PASSING
            }
        };
        self.kept.grow(n, MOST - self.gone, block)
    }

    /// Makes room: afterwards `spare` is at least `n`, and never less than it was. It is made for many entries at once,
    /// so most calls find it there. Answers `AllocError` where there is no memory for `n` entries, or where the list
    /// would hold more than 4,294,967,295 entries; the list is then as before. Where it holds the last entries alone,
    /// this call may let the others go.
    pub fn reserve(&mut self, n: u32) -> Result<(), AllocError>
        ensures room { IfOk result (λ _. n ≤ self.new.spare) }
        ensures kept { self.old.spare ≤ self.new.spare }
        ensures entries { self.new.entries ≡ self.old.entries }
        ensures holding { self.new.holding ≡ self.old.holding }
        ensures limit { length self.new.entries + self.new.spare ≤ u32.MAX }
        ensures err { OnErr result (self.new ≡ self.old) }
    {
        if n <= self.kept.spare() {
            return Ok(());
        }
        self.grow(n)
    }

    /// Puts an entry last. It takes no memory.
    #[inline(always)]
    pub fn push(&mut self, entry: Entry)
        requires { 1 ≤ self.old.spare }
        ensures entries { self.new.entries ≡ self.old.entries ++ entry ∷ [] }
        ensures spare { self.new.spare + 1 ≡ self.old.spare }
        ensures holding { self.new.holding ≡ self.old.holding }
    {
        self.kept.push(entry);
    }

    /// Puts an entry last as `push` does. Where it differs from the one before it by its number, one higher, and the
    /// handle that it weakens or restores, it takes four bytes.
    #[inline(always)]
    pub fn push_handle(&mut self, entry: Entry)
        requires { 1 ≤ self.old.spare }
        ensures entries { self.new.entries ≡ self.old.entries ++ entry ∷ [] }
        ensures spare { self.new.spare + 1 ≡ self.old.spare }
        ensures holding { self.new.holding ≡ self.old.holding }
    {
        self.kept.push_handle(entry);
    }

    /// For how many more entries there is room.
    pub fn spare(&self) -> u32
        ensures spare { result ≡ self.now.spare }
        ensures limit { length self.now.entries + result ≤ u32.MAX }
    {
        self.kept.spare()
    }

    /// The number of entries.
    pub fn len(&self) -> u32
        ensures { result ≡ length self.now.entries }
    {
        self.gone + self.kept.len()
    }

    /// Whether there is no entry.
    pub fn is_empty(&self) -> bool
        ensures { result ≡ (length self.now.entries == 0) }
    {
        self.len() == 0
    }

    /// The entry at place `i`, from 0. Of a list that holds every entry, None exactly where `i` isn't below the length;
    /// of one that holds the last ones, None also where it has let that entry go. It is searched for, in a time that
    /// goes by the square of the logarithm of the number of entries.
    pub fn at(&self, i: u32) -> Option<Entry>
        ensures every { self.now.holding ≡ Every → result ≡ slice_get self.now.entries i }
        ensures entry { IfSome result (λ entry. slice_get self.now.entries i ≡ Some entry) }
    {
        if i < self.gone {
            return None;
        }
        self.kept.at(i - self.gone)
    }

    /// All entries; None where some were let go.
    pub(crate) fn into_kept(self) -> Option<Kept>
        ensures { MatchOption result (self.holding ≡ Last) (λ kept. kept.entries ≡ self.entries) }
    {
        if self.gone > 0 { None } else { Some(self.kept) }
    }
}

/// One value for each candidate of a cycle, in rising managed number: the handle that its restore gave, or None where
/// it answered cleared.
#[derive(Drop)]
pub struct Alive {
    values: Vec<Option<HNum>>,
}

impl Model for Alive {
    ghost use Rattle.std.specs.Prelude.{◌-◌, ◌≤◌, vec_len, vec_capacity};
    ghost use Rattle.joint_model.specs.Listed.{Answers};
    ghost use Rattle.joint_machine.specs.Numbers.{u32_max};

    ghost Value = { Answers };

    ghost view = { λ s. record { values = s.values.items; room = vec_capacity s.values - vec_len s.values } };

    ghost invariant = { λ s. vec_capacity s.values ≤ u32_max };
}

impl Alive {
    /// The empty list with room for `room` values; `AllocError` where there is no memory for it.
    pub fn new(alloc: Global, room: u32) -> Result<Alive, AllocError>
        ensures values { IfOk result (λ a. a.values ≡ []) }
        ensures room { IfOk result (λ a. a.room ≡ room) }
    {
        Ok(Alive {
            values: Vec::with_capacity(alloc, room as usize)?,
        })
    }

    /// Puts a value last. It takes no memory.
    pub fn push(&mut self, back: Option<HNum>)
        requires { 1 ≤ self.old.room }
        ensures values { self.new.values ≡ self.old.values ++ back ∷ [] }
        ensures room { self.new.room + 1 ≡ self.old.room }
    {
        self.values.push_reserved(back);
    }

    /// The value at place `i`, from 0; None exactly where `i` isn't below the length.
    pub fn at(&self, i: u32) -> Option<Option<HNum>>
        ensures { result ≡ slice_get self.now.values i }
    {
        self.values.as_slice().get(i as usize).copied()
    }

    /// The number of values.
    pub fn len(&self) -> u32
        ensures { result ≡ length self.now.values }
    {
        self.values.len() as u32
    }

    /// Whether there is no value.
    pub fn is_empty(&self) -> bool
        ensures { result ≡ (length self.now.values == 0) }
    {
        self.values.is_empty()
    }
}
