// How a list keeps its entries: where one differs from the one before it by its number, one higher, and by the handle
// that it weakens or restores, the handle alone is kept. A cycle over many candidates makes many such entries.

ghost use Rattle.std.specs.Prelude.{◌≡◌, ◌≢◌, All, Contains, ◌+◌, ◌-◌, ◌<◌, ◌≤◌, ◌^◌, ◌↔◌, List, [], ◌∷◌, ◌++◌, length};
ghost use Rattle.std.specs.Prelude.{slice_get, slice_index_or, vec_len, vec_capacity, IsTrue, MatchOption};
ghost use Rattle.joint_model.specs.Following.{follower_of, followers_of};
ghost use Rattle.joint_model.specs.Leaders.{entry_of, led, spelled, AreFollowed, Starts};
ghost use Rattle.joint_model.specs.Marks.{leaders_of};
ghost use Rattle.joint_model.specs.Merged.{Ascends, IsNextInOther, first_number, merged, IsNumbered};
ghost use Rattle.joint_model.specs.Packed.{entry_high, entry_in};

use crate::marks::{Leader, Leaders, Mark};
use crate::packed::{EntryParts, PackedEntry};
use joint_machine::{Entry, HNum, Made, Op, Reply, Thread};
use std::marker::Model;

// An entry for where there is none: nothing follows it.
pub(crate) const NO_ENTRY: Entry = Entry {
    number: 0,
    made: Made {
        caller: Thread::C,
        index: 0,
        op: Op::Begin,
        reply: Reply::Ok,
        cites: None,
    },
};

// Follower `i` of a leader's entry, from 1, with that handle.
#[inline(always)]
pub(crate) fn follower(first: &Entry, i: u64, h: HNum) -> Entry
    requires { i ≤ u32.MAX }
    ensures { result ≡ follower_of first.now i h }
{
    let mut entry = *first;
    entry.number = entry.number.wrapping_add(i);
    entry.made.op = match entry.made.op {
        Op::Weaken { .. } => Op::Weaken { h },
        Op::Restore { .. } => Op::Restore { h },
        op => op,
    };
    entry.made.reply = match entry.made.reply {
        Reply::Renewed(first) => Reply::Renewed(HNum(first.0.wrapping_add(i as u32))),
        reply => reply,
    };
    entry
}

// The entry `i` places after a leader's, where those are the handles of its list; None exactly where it has fewer
// followers.
fn entry_after(leader: &Leader, followers: &[HNum], i: u64) -> Option<Entry>
    requires { leader.now.from + leader.now.followers ≤ length followers.now }
    ensures { result ≡ slice_get (led leader.now followers.now) i }
{
    if i > leader.followers as u64 {
        return None;
    }
    if i == 0 {
        return Some(leader.entry);
    }
    let h = followers[leader.from + i as usize - 1];
    Some(follower(&leader.entry, i, h))
}

// Puts an entry last, as a follower of the last leader where it is that, else as a leader of its own. It takes no
// memory.
#[inline(always)]
pub(crate) fn put_follower(leaders: &mut Leaders, followers: &mut Vec<HNum>, entry: Entry)
    requires followed { AreFollowed leaders.old.all followers.old.items }
    requires starts { Starts 0 leaders.old.all }
    requires limit { length leaders.old.all + vec_len followers.old ≤ u32.MAX }
    requires room { (1 ≤ leaders.old.room) × (1 ≤ leaders.old.room_of_marks) }
    requires room_of_followers { vec_len followers.old < vec_capacity followers.old }
    ensures followed { AreFollowed leaders.new.all followers.new.items }
    ensures starts { Starts 0 leaders.new.all }
    ensures entries { spelled leaders.new.all followers.new.items ≡ spelled
        leaders.old.all followers.old.items ++ entry ∷ [] }
    ensures fits { (leaders.old.room ≤ leaders.new.room + 1)
        × (leaders.old.room_of_marks ≤ leaders.new.room_of_marks + 1)
        × (vec_len followers.new ≤ vec_len followers.old + 1) }
    ensures capacity { vec_capacity followers.new ≡ vec_capacity followers.old }
{
    let from = followers.len();
    if let Some(h) = leaders.follow(&entry, from) {
        followers.push_reserved(h);
        return;
    }
    leaders.push(entry, from);
}

// How many leaders have the number or a lower one, where the numbers rise.
fn leaders_below(leaders: &Leaders, number: u64) -> usize
    ensures within { result ≤ length leaders.now.all }
    ensures below { (d : _) → 0 < result → (slice_index_or leaders.now.all (result - 1) d).entry.number ≤ number }
    ensures above { (d : _) → result < length leaders.now.all
        → number < (slice_index_or leaders.now.all result d).entry.number }
{
    let mut low = 0;
    let mut high = leaders.len();
    while low < high {
        let middle = low + (high - low) / 2;
        if leaders.at(middle).entry.number <= number {
            low = middle + 1;
        } else {
            high = middle;
        }
    }
    low
}

// The entry with the number, of a list in the order of its numbers; None where none has it. The time goes by the square
// of the logarithm of the number of leaders, since the mark of each is searched for.
pub(crate) fn entry_with(leaders: &Leaders, followers: &[HNum], number: u64) -> Option<Entry>
    requires followed { AreFollowed leaders.now.all followers.now }
    requires starts { Starts 0 leaders.now.all }
    requires ascends { Ascends (spelled leaders.now.all followers.now) }
    ensures { MatchOption result (All (λ e. e.number ≢ number) (spelled leaders.now.all followers.now))
        (λ e. Contains (spelled leaders.now.all followers.now) e × (e.number ≡ number)) }
{
    let at = leaders_below(leaders, number);
    if at == 0 {
        return None;
    }
    let leader = leaders.at(at - 1);
    entry_after(&leader, followers, number - leader.entry.number)
}

// The last leader that stands at the place or before it. A leader stands after those before it and all that follow
// them.
fn leader_before(leaders: &Leaders, place: usize) -> usize
    requires some { 0 < length leaders.now.all }
    requires limit { length leaders.now.all ≤ u32.MAX }
    requires starts { Starts 0 leaders.now.all }
    ensures leader { result < length leaders.now.all }
    ensures before { (d : _) → result + (slice_index_or leaders.now.all result d).from ≤ place }
    ensures next { (d : _) → result + 1 < length leaders.now.all
        → place < result + 1 + (slice_index_or leaders.now.all (result + 1) d).from }
{
    let mut low = 0;
    let mut high = leaders.len();
    while high - low > 1 {
        let middle = low + (high - low) / 2;
        if middle + leaders.at(middle).from <= place {
            low = middle;
        } else {
            high = middle;
        }
    }
    low
}

// The entry at the place of a list, from 0; None exactly past the end. The time goes by the square of the logarithm of
// the number of leaders.
pub(crate) fn entry_at(leaders: &Leaders, followers: &[HNum], place: usize) -> Option<Entry>
    requires followed { AreFollowed leaders.now.all followers.now }
    requires starts { Starts 0 leaders.now.all }
    requires limit { length leaders.now.all ≤ u32.MAX }
    ensures { result ≡ slice_get (spelled leaders.now.all followers.now) place }
{
    if leaders.len() == 0 {
        return None;
    }
    let at = leader_before(leaders, place);
    let leader = leaders.at(at);
    entry_after(&leader, followers, (place - at - leader.from) as u64)
}

/// An entry that a walk comes to.
#[derive(Drop)]
pub enum Step<'a> {
    /// One that its list keeps, whose high halves are zero.
    Kept(&'a PackedEntry),
    /// One of which the list keeps the handle alone, or high halves beside it.
    Spelled(Entry),
}

impl<'a> Step<'a> {
    // The entry.
    #[inline(always)]
    pub(crate) fn entry(&self) -> Entry
        ensures { result ≡ entry_of self.now }
    {
        match self {
            Step::Kept(packed) => packed.unpack(),
            Step::Spelled(entry) => *entry,
        }
    }
}

// A leader's entry with the high halves that its mark has.
#[inline(always)]
fn step_of<'a>(entry: &'a PackedEntry, mark: &Mark) -> Step<'a>
    ensures { entry_of result ≡ entry_high entry.now mark.now.number_high mark.now.cited_high }
{
    if mark.number_high == 0 && mark.cited_high == 0 {
        return Step::Kept(entry);
    }
    Step::Spelled(entry.unpack_high(mark.number_high, mark.cited_high))
}

/// The leaders of a list that are still to come, with their followers.
#[derive(Drop)]
pub(crate) struct Rest<'a> {
    entries: &'a [PackedEntry],
    marks: &'a [Mark],
    followers: &'a [HNum],
}

impl<'a> Model for Rest<'a> {
    ghost use Rattle.std.specs.Prelude.{List};
    ghost use Rattle.joint_machine.specs.declared.events.Entry.{Entry};
    ghost use Rattle.joint_model.specs.Leaders.{spelled, AreFollowed};
    ghost use Rattle.joint_model.specs.Marks.{leaders_of};

    ghost Value = { List Entry };

    ghost view = { λ r. spelled (leaders_of 0 r.entries.now r.marks.now) r.followers.now };

    ghost invariant = { λ r. AreFollowed (leaders_of 0 r.entries.now r.marks.now) r.followers.now };
}

impl<'a> Rest<'a> {
    // All leaders of a list.
    pub(crate) fn new(leaders: &'a Leaders, followers: &'a [HNum]) -> Rest<'a>
        requires { AreFollowed leaders.now.all followers.now }
        ensures { result ≡ spelled leaders.now.all followers.now }
    {
        let (entries, marks) = leaders.parts();
        Rest {
            entries,
            marks,
            followers,
        }
    }

    // The number of the next leader; None where none is left.
    #[inline(always)]
    pub(crate) fn number(&self) -> Option<u64>
        ensures { result ≡ first_number self.now }
    {
        let entry = self.entries.first()?;
        if !entry.marked {
            return Some(entry.number());
        }
        match self.marks.first() {
            Some(mark) => Some(entry.number_high(mark.number_high)),
            None => Some(entry.number()),
        }
    }

    // Takes the next leader where it has no mark; else None, and nothing changes.
    #[inline(always)]
    fn plain(&mut self) -> Option<&'a PackedEntry>
        ensures { MatchOption result (self.new ≡ self.old) (λ p. self.old ≡ entry_in p.now ∷ self.new) }
    {
        let (entry, entries) = self.entries.split_first()?;
        if entry.marked {
            return None;
        }
        self.entries = entries;
        Some(entry)
    }

    // Takes the next leader, with the handles of its followers; None where none is left.
    #[inline(always)]
    pub(crate) fn next(&mut self) -> Option<(Step<'a>, &'a [HNum])>
        ensures { MatchOption result ((self.old ≡ []) × (self.new ≡ []))
            (λ next. (self.old ≡ entry_of next.0 ∷ (followers_of (entry_of next.0) 1 next.1.now ++ self.new))
            × (length next.1.now ≤ u32.MAX)) }
    {
        let (entry, entries) = self.entries.split_first()?;
        self.entries = entries;
        if !entry.marked {
            return Some((Step::Kept(entry), &[]));
        }
        let Some((mark, marks)) = self.marks.split_first() else {
            return Some((Step::Kept(entry), &[]));
        };
        self.marks = marks;
        let (own, others) = self.followers.split_at(mark.followers as usize);
        self.followers = others;
        Some((step_of(entry, mark), own))
    }
}

// Whether the next of two lists, if there is one, is the first of the other list, by the numbers of their first ones.
#[inline(always)]
pub(crate) fn is_next_in_other(one: Option<u64>, other: Option<u64>) -> bool
    ensures { IsTrue result ↔ IsNextInOther one other }
{
    match (one, other) {
        (Some(x), Some(y)) => y < x,
        (x, _) => x.is_none(),
    }
}

// Takes the next leader of both lists where it has no mark, as most have none; else None, and nothing changes.
#[inline(always)]
pub(crate) fn next_plain<'a>(one: &mut Rest<'a>, other: &mut Rest<'a>) -> Option<&'a PackedEntry>
    requires { IsNumbered (merged one.old other.old) }
    ensures { MatchOption result ((one.new ≡ one.old) × (other.new ≡ other.old))
        (λ p. merged one.old other.old ≡ entry_in p.now ∷ merged one.new other.new) }
{
    if is_next_in_other(one.number(), other.number()) {
        other.plain()
    } else {
        one.plain()
    }
}

// Takes the next leader of both lists, with the handles of its followers; None where none is left. No entry of the one
// list lies between a leader of the other and its followers, since those have the numbers after it.
#[inline(always)]
pub(crate) fn next_leader<'a>(
    one: &mut Rest<'a>,
    other: &mut Rest<'a>,
) -> Option<(Step<'a>, &'a [HNum])>
    requires { IsNumbered (merged one.old other.old) }
    ensures { MatchOption result ((merged one.old other.old ≡ []) × (merged one.new other.new ≡ []))
        (λ next. (merged one.old other.old ≡ entry_of next.0 ∷
        (followers_of (entry_of next.0) 1 next.1.now ++ merged one.new other.new)) × (length next.1.now ≤ u32.MAX)) }
{
    if is_next_in_other(one.number(), other.number()) {
        other.next()
    } else {
        one.next()
    }
}
