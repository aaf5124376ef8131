// Counts of references.

ghost use Rattle.std.specs.Prelude.{◌≡◌, ◌≤◌, ◌^◌};
ghost use Rattle.android_lives.specs.Tallies.{agrees, before, before_left, by_lines, counted, has_older, off, opened};
ghost use Rattle.android_lives.specs.Tallies.{strong_change, tells, untold, weak_change, without_older};

use android_log::Kind;
use std::marker::Model;

// A count of lines stays here.
const MOST: u64 = 1 << 62;

/// A count of lines after one more; it stays at 2^62.
#[tactic(auto, unfolding(crate::specs::Tallies::counted))]
#[inline(always)]
pub(crate) fn counted(n: u64) -> u64
    ensures is { result ≡ counted n }
    ensures few { result ≤ 2 ^ 62 }
{
    if n < MOST { n + 1 } else { MOST }
}

/// What a mark does to a count: a reference comes, goes, or neither.
#[derive(Clone, Copy, PartialEq, Eq, Debug)]
pub enum Change {
    Comes,
    Goes,
    Stays,
}

/// What it does to the strong references.
pub(crate) fn strong_change(kind: Kind) -> Change
    ensures { result ≡ strong_change kind }
{
    match kind {
        Kind::StrongComes => Change::Comes,
        Kind::StrongGoes => Change::Goes,
        Kind::WeakComes | Kind::WeakGoes => Change::Stays,
    }
}

/// What it does to the weak ones.
pub(crate) fn weak_change(kind: Kind) -> Change
    ensures { result ≡ weak_change kind }
{
    match kind {
        Kind::WeakComes => Change::Comes,
        Kind::WeakGoes => Change::Goes,
        Kind::StrongComes | Kind::StrongGoes => Change::Stays,
    }
}

/// A whole number, as a difference: `up` less `down`.
#[derive(Clone, Copy, PartialEq, Eq, Debug)]
pub struct Whole {
    pub up: u64,
    pub down: u64,
}

/// The counts of one strength. Clauses see them as `Told` of `specs/Tallies.antt`.
#[derive(Drop)]
pub struct Tally {
    told: u32,
    up: u64,
    down: u64,
    gained: u64,
    lost: u64,
    older: u64,
}

impl Model for Tally {
    ghost use Rattle.std.specs.Prelude.{◌≤◌, ◌^◌};
    ghost use Rattle.android_lives.specs.Tallies.{Told};

    ghost Value = { Told };

    ghost view = { λ t. record { told = t.told; up = t.up; down = t.down; gained = t.gained; lost = t.lost; older = t.older } };

    ghost invariant = { λ t. (t.up ≤ 2 ^ 32) × ((t.down ≤ 1)
        × ((t.gained ≤ 2 ^ 62) × ((t.lost ≤ 2 ^ 62) × (t.older ≤ 2 ^ 62)))) };
}

impl Tally {
    /// Before the first mark.
    pub(crate) fn new() -> Tally
        ensures { result ≡ untold }
    {
        Tally {
            told: 0,
            up: 0,
            down: 0,
            gained: 0,
            lost: 0,
            older: 0,
        }
    }

    /// At the first mark.
    pub(crate) fn open(&mut self, told: u32, change: Change)
        ensures { self.new ≡ opened told change }
    {
        self.told = told;
        self.gained = 0;
        self.lost = 0;
        self.older = 0;
        match change {
            Change::Comes => {
                self.up = told as u64;
                self.down = 1;
            }
            Change::Goes => {
                self.up = told as u64 + 1;
                self.down = 0;
            }
            Change::Stays => {
                self.up = told as u64;
                self.down = 0;
            }
        }
    }

    /// A mark's change, and what it tells.
    pub(crate) fn tell(&mut self, told: u32, change: Change)
        ensures { self.new ≡ tells told change self.old }
    {
        match change {
            Change::Comes => self.gained = counted(self.gained),
            Change::Goes => self.lost = counted(self.lost),
            Change::Stays => {}
        }
        self.told = told;
    }

    /// The count by the lines.
    pub fn by_lines(&self) -> Whole
        ensures { result ≡ by_lines self.now }
    {
        Whole {
            up: self.up + self.gained,
            down: self.down + self.lost,
        }
    }

    /// What stood before the log.
    pub fn before(&self) -> Whole
        ensures { result ≡ before self.now }
    {
        Whole {
            up: self.up,
            down: self.down,
        }
    }

    /// What stood before the log and didn't go.
    pub fn before_left(&self) -> Whole
        ensures { result ≡ before_left self.now }
    {
        Whole {
            up: self.up,
            down: self.down + self.older,
        }
    }

    /// What the last mark tells, less the count by the lines.
    pub(crate) fn off(&self) -> Whole
        ensures { result ≡ off self.now }
    {
        Whole {
            up: self.told as u64 + self.down + self.lost,
            down: self.up + self.gained,
        }
    }

    /// What the last mark tells.
    pub fn told(&self) -> u32
        ensures { result ≡ self.now.told }
    {
        self.told
    }

    /// Whether the last mark tells what the lines count.
    pub(crate) fn agrees(&self) -> bool
        ensures { result ≡ agrees self.now }
    {
        self.told as u64 + self.down + self.lost == self.up + self.gained
    }

    /// Whether not all went that stood before the log.
    pub(crate) fn has_older(&self) -> bool
        ensures { result ≡ has_older self.now }
    {
        self.down + self.older < self.up
    }

    /// One of those went.
    pub(crate) fn take_older(&mut self)
        ensures { self.new ≡ without_older self.old }
    {
        self.older = counted(self.older);
    }
}
