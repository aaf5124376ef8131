// The references of one strength.

ghost use Rattle.std.specs.Prelude.{◌≡◌, IfOk, OnOk, length, map};
ghost use Rattle.android_lives.specs.Holding.{goes_wrongly, is_live, is_stale, life_of, none_held, stood_before};
ghost use Rattle.android_lives.specs.Holding.{with_handle, without_handle, was_made};
ghost use Rattle.android_lives.specs.Tallies.{opened, tells};

use crate::tallies::{Change, Tally};
use std::alloc::{AllocError, Global};
use std::collections::{BTreeMap, BTreeSet};
use std::marker::Model;

/// The references of one strength: the live handles, each with the place of its life, and the handles that a line made.
/// The numbers come from whoever wrote the log, so that maps are in the order of their keys: no choice of numbers makes a
/// look-up slow.
#[derive(Drop)]
pub struct Strength {
    live: BTreeMap<u64, usize>,
    made: BTreeSet<u64>,
    tally: Tally,
}

impl Model for Strength {
    ghost use Rattle.android_lives.specs.Holding.{Held};

    ghost Value = { Held };

    ghost view = { λ s. record { live = s.live.entries; made = s.made.keys; tally = s.tally } };
}

impl Strength {
    /// Nothing is live.
    pub(crate) fn new(alloc: Global) -> Strength
        ensures { result ≡ none_held }
    {
        Strength {
            live: BTreeMap::new(alloc),
            made: BTreeSet::new(alloc),
            tally: Tally::new(),
        }
    }

    /// Its counts.
    pub fn tally(&self) -> &Tally
        ensures { result.now ≡ self.now.tally }
    {
        &self.tally
    }

    /// How many handles are live.
    pub fn len(&self) -> usize
        ensures { result ≡ length self.now.live }
    {
        self.live.len()
    }

    /// The places of the lives that the live handles lead to.
    pub fn places(&self, alloc: Global) -> Result<Vec<usize>, AllocError>
        ensures { IfOk result (λ v. v.items ≡ map (λ e. e.1) self.now.live) }
    {
        self.live.values().copied().collect(alloc)
    }

    /// The first mark: what it tells, and its change.
    pub(crate) fn open(&mut self, told: u32, change: Change)
        ensures { self.new ≡ record self.old { tally = opened told change } }
    {
        self.tally.open(told, change);
    }

    /// A mark's change, and what it tells.
    pub(crate) fn tell(&mut self, told: u32, change: Change)
        ensures { self.new ≡ record self.old { tally = tells told change self.old.tally } }
    {
        self.tally.tell(told, change);
    }

    /// The life that a handle leads to.
    pub(crate) fn life_of(&self, h: u64) -> Option<usize>
        ensures { result ≡ life_of self.now h }
    {
        self.live.get(&h).copied()
    }

    // Whether it leads to one.
    fn is_live(&self, h: u64) -> bool
        ensures { result ≡ is_live self.now h }
    {
        self.live.contains_key(&h)
    }

    // Whether a line made it.
    fn was_made(&self, h: u64) -> bool
        ensures { result ≡ was_made self.now h }
    {
        self.made.contains(&h)
    }

    /// Whether a handle is one that a line made and that isn't live.
    pub(crate) fn is_stale(&self, h: u64) -> bool
        ensures { result ≡ is_stale self.now h }
    {
        !self.is_live(h) && self.was_made(h)
    }

    /// A handle comes and leads to a life from now on. Answers whether it was live before.
    pub(crate) fn come(&mut self, h: u64, life: usize) -> Result<bool, AllocError>
        ensures state { OnOk result (self.new ≡ with_handle self.old h life) }
        ensures was { IfOk result (λ was. was ≡ is_live self.old h) }
    {
        let was = self.live.insert(h, life)?;
        self.made.insert(h)?;
        Ok(was.is_some())
    }

    // Whether it may have stood before the log.
    fn stood_before(&self, h: u64) -> bool
        ensures { result ≡ stood_before self.now h }
    {
        !self.was_made(h) && self.tally.has_older()
    }

    /// A handle goes. Answers whether it went where it isn't live.
    pub(crate) fn go(&mut self, h: u64) -> bool
        ensures state { self.new ≡ without_handle self.old h }
        ensures wrong { result ≡ goes_wrongly self.old h }
    {
        if self.is_live(h) {
            self.live.remove(&h);
            return false;
        }
        if self.stood_before(h) {
            self.tally.take_older();
            return false;
        }
        true
    }
}
