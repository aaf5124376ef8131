// Entries as they are kept: most of a large cycle as their handles alone.

ghost use Rattle.std.specs.Prelude.{◌≡◌, ◌≢◌, All, Contains, MatchOption, ◌+◌, ◌≤◌, ◌<◌, ◌==◌, [], ◌∷◌, ◌++◌, length};
ghost use Rattle.std.specs.Prelude.{slice_get, IfOk, OnErr};
ghost use Rattle.joint_model.specs.Merged.{Ascends};

use crate::leaders::{Rest, entry_at, entry_with, put_follower};
use crate::marks::{Leaders, make_room};
use joint_machine::{Entry, HNum};
use std::alloc::{AllocError, Global};
use std::marker::Model;

/// The most entries that a list holds.
pub(crate) const MOST: u32 = 4_294_967_295;

/// For how many entries room is made at least, where there is memory for them: 22 MiB, 10 MiB for the marks of those
/// that have followers or high numbers, and 2 MiB for those that are kept by their handles. Room that nothing is put
/// into takes no memory, and so large a piece lies outside of the allocator's heap: where it grows, its pages are moved
/// and no entry is copied.
pub(crate) const BLOCK: usize = 524_288;

/// Entries in the order in which they were put, and room for more of them. An entry takes 44 bytes, and 20 more where
/// it has followers or high numbers; or four: see [`Kept::push_handle`].
#[derive(Drop)]
pub(crate) struct Kept {
    leaders: Leaders,
    followers: Vec<HNum>,
    spare: u32,
}

impl Model for Kept {
    ghost use Rattle.std.specs.Prelude.{◌+◌, ◌≤◌, length, vec_len, vec_capacity};
    ghost use Rattle.joint_model.specs.Leaders.{spelled, AreFollowed, Starts};
    ghost use Rattle.joint_model.specs.Listed.{Shelf};
    ghost use Rattle.joint_machine.specs.Numbers.{u32_max};

    ghost Value = { Shelf };

    ghost view = { λ s. record { entries = spelled s.leaders.all s.followers.items; spare = s.spare } };

    ghost invariant = { λ s. AreFollowed s.leaders.all s.followers.items × Starts 0 s.leaders.all
        × (length s.leaders.all + vec_len s.followers + s.spare ≤ u32_max)
        × (s.spare ≤ s.leaders.room) × (s.spare ≤ s.leaders.room_of_marks)
        × (vec_len s.followers + s.spare ≤ vec_capacity s.followers) };
}

impl Kept {
    /// No entry, and the allocator.
    pub(crate) fn new(alloc: Global) -> Kept
        ensures { result ≡ record { entries = []; spare = 0 } }
    {
        Kept {
            leaders: Leaders::new(alloc),
            followers: Vec::new(alloc),
            spare: 0,
        }
    }

    /// Makes room for `n` more entries at least, of at most `most` in all, and for a block of them where there is
    /// memory for it. Answers `AllocError`, with nothing changed, where there is no memory for `n`, or where they would
    /// be more than `most`.
    #[tactic(auto, using(crate::proofs::Spelling::spelled_length))]
    pub(crate) fn grow(&mut self, n: u32, most: u32, block: usize) -> Result<(), AllocError>
        requires { length self.old.entries + self.old.spare ≤ most }
        ensures room { IfOk result (λ _. n ≤ self.new.spare) }
        ensures kept { self.old.spare ≤ self.new.spare }
        ensures entries { self.new.entries ≡ self.old.entries }
        ensures limit { length self.new.entries + self.new.spare ≤ most }
        ensures err { OnErr result (self.new ≡ self.old) }
    {
        let n = n as usize;
        let most = most as usize - (self.leaders.len() + self.followers.len());
        if n > most {
            return Err(AllocError);
        }
        self.leaders.grow(n, block)?;
        make_room(&mut self.followers, n, block)?;
        let room = self.leaders.room().min(self.leaders.room_of_marks());
        let room_of_followers = self.followers.capacity() - self.followers.len();
        self.spare = room.min(room_of_followers).min(most) as u32;
        Ok(())
    }

    /// Puts an entry last. It takes no memory.
    #[inline(always)]
    pub(crate) fn push(&mut self, entry: Entry)
        requires { 1 ≤ self.old.spare }
        ensures entries { self.new.entries ≡ self.old.entries ++ entry ∷ [] }
        ensures spare { self.new.spare + 1 ≡ self.old.spare }
    {
        self.leaders.push(entry, self.followers.len());
        self.spare -= 1;
    }

    /// Puts an entry last as `push` does. Where it differs from the one before it by its number, one higher, and the
    /// handle that it weakens or restores, it takes four bytes.
    #[inline(always)]
    pub(crate) fn push_handle(&mut self, entry: Entry)
        requires { 1 ≤ self.old.spare }
        ensures entries { self.new.entries ≡ self.old.entries ++ entry ∷ [] }
        ensures spare { self.new.spare + 1 ≡ self.old.spare }
    {
        put_follower(&mut self.leaders, &mut self.followers, entry);
        self.spare -= 1;
    }

    /// Lets all entries go, and keeps the room.
    pub(crate) fn clear(&mut self)
        ensures entries { self.new.entries ≡ [] }
        ensures spare { self.new.spare ≡ self.old.spare }
    {
        self.leaders.clear();
        self.followers.clear();
    }

    /// For how many more entries there is room.
    #[tactic(auto, using(crate::proofs::Spelling::spelled_length))]
    #[inline(always)]
    pub(crate) fn spare(&self) -> u32
        ensures spare { result ≡ self.now.spare }
        ensures limit { length self.now.entries + result ≤ u32.MAX }
    {
        self.spare
    }

    /// The number of entries.
    #[tactic(auto, using(crate::proofs::Spelling::spelled_length))]
    pub(crate) fn len(&self) -> u32
        ensures { result ≡ length self.now.entries }
    {
        (self.leaders.len() + self.followers.len()) as u32
    }

    /// Whether there is no entry.
    pub(crate) fn is_empty(&self) -> bool
        ensures { result ≡ (length self.now.entries == 0) }
    {
        self.len() == 0
    }

    /// The entry at place `i`, from 0; None exactly where `i` isn't below the length. It is searched for among the
    /// leaders, in a time that goes by the square of the logarithm of their number.
    pub(crate) fn at(&self, i: u32) -> Option<Entry>
        ensures { result ≡ slice_get self.now.entries i }
    {
        entry_at(&self.leaders, self.followers.as_slice(), i as usize)
    }

    /// The entry with the number, where the numbers rise; None where none has it.
    pub(crate) fn with_number(&self, number: u64) -> Option<Entry>
        requires { Ascends self.now.entries }
        ensures { MatchOption result (All (λ e. e.number ≢ number) self.now.entries)
            (λ e. Contains self.now.entries e × (e.number ≡ number)) }
    {
        entry_with(&self.leaders, self.followers.as_slice(), number)
    }

    /// All leaders, with their followers.
    #[tactic(auto, using(crate::proofs::Spelling::spelled_length))]
    pub(crate) fn rest(&self) -> Rest<'_>
        ensures all { result ≡ self.now.entries }
        ensures limit { length result ≤ u32.MAX }
    {
        Rest::new(&self.leaders, self.followers.as_slice())
    }
}
