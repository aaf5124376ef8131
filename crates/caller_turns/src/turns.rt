// What is kept of callers, and the tests over it.

ghost use Rattle.std.specs.Prelude.{◌≡◌, ◌<◌, ◌≤◌, ◌↔◌, IsTrue};
ghost use Rattle.joint_machine.specs.Control.{caller_place, opening_control};
ghost use Rattle.joint_machine.specs.Lines.{IsNamed, IsThread};
ghost use Rattle.caller_turns.specs.Shapes.{callers_of};
ghost use Rattle.caller_turns.specs.Turns.{AreDone, CallersTurn, CitesIn, HasCount, IsTheirTurn, callers_after};
ghost use Rattle.caller_turns.specs.Turns.{hand_at};

use crate::driver::{after, driver_cites, driver_turn, is_resting};
use crate::hands::{after as hand_after, hand_cites, hand_turn, may_begin};
use crate::roles::is_event;
use crate::stands::{Doing, Part, Stand};
use joint_machine::{Entry, Op, Phase, Thread};
use std::marker::Model;

/// What callers are in the midst of: of each managed thread the half of an operation, of each caller the line of its
/// last entry, and where the driver stands.
#[derive(Drop)]
pub struct Turns {
    hands: [Doing; 9],
    lines: [u32; 17],
    stand: Stand,
}

impl Model for Turns {
    ghost use Rattle.caller_turns.specs.Turns.{Callers};

    ghost Value = { Callers };

    ghost view = { λ t. record { hands = t.hands; lines = t.lines; stand = t.stand } };
}

// The place of a caller: the driver, m1 to m8, p1 to p8.
fn place(caller: Thread) -> usize
    requires { IsThread caller }
    ensures place { result ≡ caller_place caller }
    ensures within { result < 17 }
{
    match caller {
        Thread::C => 0,
        Thread::M(n) => n as usize,
        Thread::P(n) => 8 + n as usize,
    }
}

impl Turns {
    /// Nobody has done anything.
    pub fn new() -> Turns
        ensures { result ≡ callers_of opening_control }
    {
        Turns {
            hands: [Doing::Free; 9],
            lines: [0; 17],
            stand: Stand::Idle,
        }
    }

    /// Where the driver stands.
    pub fn stand(&self) -> Stand
        ensures { result ≡ self.now.stand }
    {
        self.stand
    }

    /// What a managed thread is in the midst of.
    fn hand(&self, n: u8) -> Doing
        requires { n ≤ 8 }
        ensures { result ≡ hand_at self.now n }
    {
        self.hands[n as usize]
    }

    // Whether it is the caller's turn, but for its line.
    fn has_turn(&self, caller: Thread, index: u32, op: &Op, part: &Part) -> bool
        requires { IsThread caller }
        ensures { IsTrue result ↔ CallersTurn self.now part.now caller index op.now }
    {
        match caller {
            Thread::M(n) => hand_turn(&self.hand(n), index, op),
            Thread::P(_) => true,
            Thread::C => driver_turn(&self.stand, part, op),
        }
    }

    /// Whether it is the caller's turn to make such an event on that line: the caller may make it at all, its lines
    /// don't fall, and it is the next event of the operation or phase that is half done, or the first of one that may
    /// begin. The entry is one that can name its event.
    pub fn is_turn(&self, caller: Thread, index: u32, op: &Op, part: &Part) -> bool
        requires { IsNamed caller op.now }
        ensures { IsTrue result ↔ IsTheirTurn self.now part.now caller index op.now }
    {
        is_event(caller, op)
            && self.lines[place(caller)] <= index
            && self.has_turn(caller, index, op, part)
    }

    /// Whether the event cites what it has to, with the data that the cited entry gave, and else nothing.
    pub fn cites_so(&self, caller: Thread, op: &Op, cites: Option<u64>) -> bool
        requires { IsThread caller }
        ensures { IsTrue result ↔ CitesIn self.now caller op.now cites }
    {
        match caller {
            Thread::M(n) => hand_cites(&self.hand(n), op, cites),
            Thread::P(_) => cites.is_none(),
            Thread::C => driver_cites(&self.stand, op, cites),
        }
    }

    /// Whether nothing has to follow: no handle of a managed thread waits for its release, and no phase is half done,
    /// with so many candidates.
    pub fn is_done(&self, candidates: u32) -> bool
        ensures { IsTrue result ↔ AreDone self.now candidates }
    {
        self.hands.iter().all(|hand| may_begin(hand)) && is_resting(&self.stand, candidates)
    }

    /// Keeps what the entry changes. A word that was refused was so in that phase.
    pub fn note(&mut self, entry: &Entry, phase: Phase)
        requires thread { IsThread entry.now.made.caller }
        requires count { HasCount self.old.stand }
        ensures { self.new ≡ callers_after self.old entry.now.number entry.now.made.caller
            entry.now.made.index entry.now.made.op entry.now.made.reply phase }
    {
        let caller = entry.made.caller;
        self.lines[place(caller)] = entry.made.index;
        match caller {
            Thread::M(n) => self.hands[n as usize] = hand_after(entry),
            Thread::P(_) => {}
            Thread::C => self.stand = after(&self.stand, entry.number, &entry.made.op, phase),
        }
    }
}
