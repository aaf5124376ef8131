// The leaders of a list: a packed entry for each, and a mark for those few that have followers or high numbers.

ghost use Rattle.std.specs.Prelude.{◌≡◌, ◌+◌, ◌-◌, ◌<◌, ◌≤◌, ◌^◌, [], ◌∷◌, ◌++◌, List, length, vec_len, vec_capacity};
ghost use Rattle.std.specs.Prelude.{slice_index_or, sum_by, IfSome, IfOk, OnOk, MatchOption, IsTrue, false};
ghost use Rattle.joint_model.specs.Following.{follower_of, reply_after};
ghost use Rattle.joint_model.specs.Marks.{leaders_of, Follows};

use crate::packed::PackedEntry;
use joint_machine::{Entry, HNum, Op, Reply};
use std::alloc::{AllocError, Global};
use std::marker::Model;

/// An entry, and how many after it differ from it by their numbers and handles alone. The handles of those stand from
/// place `from` on.
#[derive(Clone, Copy)]
pub(crate) struct Leader {
    pub(crate) entry: Entry,
    pub(crate) from: usize,
    pub(crate) followers: u32,
}

// What a list has of a marked leader beside its entry: its place among the leaders, where its followers' handles start
// and how many there are, and the high halves of its number and of the one that it cites.
#[derive(Clone, Copy)]
pub(crate) struct Mark {
    at: u32,
    from: u32,
    pub(crate) followers: u32,
    pub(crate) number_high: u32,
    pub(crate) cited_high: u32,
}

const _: () = prove!(size_of::<Mark>() <= 20);

/// The leaders of a list. Only those that have followers, or of which the number or the cited one is 2^32 or more, have
/// a mark.
#[derive(Drop)]
pub(crate) struct Leaders {
    entries: Vec<PackedEntry>,
    marks: Vec<Mark>,
}

impl Model for Leaders {
    ghost use Rattle.std.specs.Prelude.{◌-◌, vec_len, vec_capacity};
    ghost use Rattle.joint_model.specs.Marks.{leaders_of, Fits, Row};

    ghost Value = { Row };

    ghost view = { λ s. record {
      all = leaders_of 0 s.entries.items s.marks.items;
      room = vec_capacity s.entries - vec_len s.entries;
      room_of_marks = vec_capacity s.marks - vec_len s.marks;
    } };

    ghost invariant = { λ s. Fits 0 0 s.entries.items s.marks.items };
}

// Makes room for at least `n` more items, and for a whole block of them where there is memory for it. Answers
// `AllocError` where there is no memory for `n`.
pub(crate) fn make_room<T>(list: &mut Vec<T>, n: usize, block: usize) -> Result<(), AllocError>
    ensures room { OnOk result (vec_len list.new + n ≤ vec_capacity list.new) }
    ensures kept { vec_capacity list.old ≤ vec_capacity list.new }
    ensures items { list.new.items ≡ list.old.items }
{
    if list.reserve(n.max(block)).is_ok() {
        return Ok(());
    }
    list.reserve(n)
}

// How many marks stand before that of a leader at the place, or before where it would stand.
fn marks_before(marks: &[Mark], place: usize) -> usize
    ensures within { result ≤ length marks.now }
    ensures before { (d : _) → 0 < result → (slice_index_or marks.now (result - 1) d).at < place }
    ensures after { (d : _) → result < length marks.now → place ≤ (slice_index_or marks.now result d).at }
{
    let mut low = 0;
    let mut high = marks.len();
    while low < high {
        let middle = low + (high - low) / 2;
        if (marks[middle].at as usize) < place {
            low = middle + 1;
        } else {
            high = middle;
        }
    }
    low
}

impl Leaders {
    // No leader, and the allocator.
    pub(crate) fn new(alloc: Global) -> Leaders
        ensures { result.all ≡ [] }
    {
        Leaders {
            entries: Vec::new(alloc),
            marks: Vec::new(alloc),
        }
    }

    // Makes room for at least `n` more entries and marks, and for a block of them where there is memory for it. Answers
    // `AllocError` where there is no memory for `n`.
    pub(crate) fn grow(&mut self, n: usize, block: usize) -> Result<(), AllocError>
        ensures room { IfOk result (λ _. (n ≤ self.new.room) × (n ≤ self.new.room_of_marks)) }
        ensures kept { (self.old.room ≤ self.new.room) × (self.old.room_of_marks ≤ self.new.room_of_marks) }
        ensures all { self.new.all ≡ self.old.all }
    {
        make_room(&mut self.entries, n, block)?;
        make_room(&mut self.marks, n, block)
    }

    // For how many more entries there is room.
    pub(crate) fn room(&self) -> usize
        ensures { result ≡ self.now.room }
    {
        self.entries.capacity() - self.entries.len()
    }

    // For how many more marks there is room.
    pub(crate) fn room_of_marks(&self) -> usize
        ensures { result ≡ self.now.room_of_marks }
    {
        self.marks.capacity() - self.marks.len()
    }

    // How many leaders there are.
    #[inline(always)]
    #[tactic(auto, using(crate::proofs::Places::length_leaders))]
    pub(crate) fn len(&self) -> usize
        ensures { result ≡ length self.now.all }
    {
        self.entries.len()
    }

    // Lets all go, and keeps the room.
    pub(crate) fn clear(&mut self)
        ensures all { self.new.all ≡ [] }
        ensures room { (self.old.room ≤ self.new.room) × (self.old.room_of_marks ≤ self.new.room_of_marks) }
    {
        self.entries.clear();
        self.marks.clear();
    }

    // Puts an entry last, as a leader with no follower yet. The handles of those will stand from place `from` on. It
    // takes no memory.
    #[inline(always)]
    pub(crate) fn push(&mut self, entry: Entry, from: usize)
        requires from { sum_by (λ l. l.followers) self.old.all ≡ from }
        requires limit { length self.old.all + from ≤ u32.MAX }
        requires room { (1 ≤ self.old.room) × (1 ≤ self.old.room_of_marks) }
        ensures all { self.new.all ≡ self.old.all ++ record { entry = entry; from = from; followers = 0 } ∷ [] }
        ensures room { (self.old.room ≤ self.new.room + 1) × (self.old.room_of_marks ≤ self.new.room_of_marks + 1) }
    {
        let (packed, number_high, cited_high) = PackedEntry::pack(entry);
        if !packed.marked {
            self.entries.push_reserved(packed);
            return;
        }
        let at = self.entries.len() as u32;
        self.marks.push_reserved(Mark {
            at,
            from: from as u32,
            followers: 0,
            number_high,
            cited_high,
        });
        self.entries.push_reserved(packed);
    }

    // Lets the last leader have one more follower, where the entry is that, and answers its handle; None where it
    // isn't, and nothing has changed then. It takes no memory.
    #[inline(always)]
    pub(crate) fn follow(&mut self, entry: &Entry, from: usize) -> Option<HNum>
        requires from { sum_by (λ l. l.followers) self.old.all ≡ from }
        requires limit { length self.old.all + from ≤ u32.MAX }
        requires room { 1 ≤ self.old.room_of_marks }
        ensures { MatchOption result (self.new ≡ self.old) (λ h. Follows self.old.all self.new.all entry.now h
            × (self.new.room ≡ self.old.room) × (self.old.room_of_marks ≤ self.new.room_of_marks + 1)) }
    {
        let n = self.entries.len();
        if n == 0 {
            return None;
        }
        if !self.entries[n - 1].marked {
            let h = next_handle(&self.entries[n - 1].unpack(), 0, entry)?;
            self.entries[n - 1].marked = true;
            self.marks.push_reserved(Mark {
                at: (n - 1) as u32,
                from: from as u32,
                followers: 1,
                number_high: 0,
                cited_high: 0,
            });
            return Some(h);
        }
        let k = self.marks.len() - 1;
        let mark = self.marks[k];
        let last = self.entries[n - 1].unpack_high(mark.number_high, mark.cited_high);
        let h = next_handle(&last, mark.followers, entry)?;
        self.marks[k].followers = mark.followers + 1;
        Some(h)
    }

    // The leader at the place. Its mark, where it has one, is searched for.
    pub(crate) fn at(&self, i: usize) -> Leader
        requires { i < length self.now.all }
        ensures leader { (d : Leader) → slice_index_or self.now.all i d ≡ result }
        ensures from { result.from ≤ 2 ^ 33 }
    {
        let entry = &self.entries[i];
        let before = marks_before(self.marks.as_slice(), i);
        if entry.marked {
            let mark = self.marks[before];
            return Leader {
                entry: entry.unpack_high(mark.number_high, mark.cited_high),
                from: mark.from as usize,
                followers: mark.followers,
            };
        }
        let from = if before == 0 {
            0
        } else {
            let last = self.marks[before - 1];
            last.from as usize + last.followers as usize
        };
        Leader {
            entry: entry.unpack(),
            from,
            followers: 0,
        }
    }

    // The entries and the marks.
    pub(crate) fn parts(&self) -> (&[PackedEntry], &[Mark])
        ensures { leaders_of 0 result.0.now result.1.now ≡ self.now.all }
    {
        (self.entries.as_slice(), self.marks.as_slice())
    }
}

// The handle of an entry that is the next follower of a leader's entry, which has so many; None where it isn't.
#[inline(always)]
fn next_handle(first: &Entry, followers: u32, entry: &Entry) -> Option<HNum>
    ensures { IfSome result (λ h. (followers < u32.MAX) × (entry.now ≡ follower_of first.now (followers + 1) h)) }
{
    if followers == u32::MAX {
        return None;
    }
    let (made, own) = (&entry.made, &first.made);
    let h = match (&made.op, &own.op) {
        (Op::Weaken { h }, Op::Weaken { .. }) | (Op::Restore { h }, Op::Restore { .. }) => *h,
        _ => return None,
    };
    let next = followers + 1;
    if is_reply_after(&own.reply, next, &made.reply)
        && entry.number == first.number.wrapping_add(next as u64)
        && made.caller == own.caller
        && made.index == own.index
        && made.cites == own.cites
    {
        Some(h)
    } else {
        None
    }
}

// Whether a reply is that of follower `i`: the same, or the handle that a restore gave is `i` higher. Other replies
// than those of a weakening and a restore don't count.
#[inline(always)]
fn is_reply_after(own: &Reply, i: u32, reply: &Reply) -> bool
    ensures { IsTrue result → reply.now ≡ reply_after own.now i }
{
    match (own, reply) {
        (Reply::Renewed(first), Reply::Renewed(h)) => h.0 == first.0.wrapping_add(i),
        (Reply::Ok, Reply::Ok) | (Reply::Cleared, Reply::Cleared) => true,
        _ => false,
    }
}
