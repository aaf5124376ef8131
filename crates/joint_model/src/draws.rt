// Where the numbers of entries come from.

ghost use Rattle.std.specs.Prelude.{◌≡◌, ℕ, ◌+◌, ◌-◌, ◌^◌, ◌≤◌, ◌<◌, ◌++◌, ◌↔◌, List, Option, None, IsTrue, map};
ghost use Rattle.std.specs.Prelude.{length, ⊤};
ghost use Rattle.joint_machine.specs.declared.names.MNum.{MNum};
ghost use Rattle.joint_machine.specs.declared.names.Thread.{Thread};
ghost use Rattle.joint_machine.specs.declared.events.Entry.{Entry};
ghost use Rattle.joint_machine.specs.declared.events.Op.{Op};
ghost use Rattle.joint_machine.specs.Lines.{is_peer_event};
ghost use Rattle.joint_machine.specs.Draws.{numbered, counting, Drawing, Drawn, DrewInTurn, CountDrew};
ghost use Rattle.joint_machine.specs.Histories.{NumberedFrom};

use joint_machine::{MNum, Made};
use std::marker::Model;

/// What gives an entry its number: one step for each entry, in the order of the whole history.
pub trait Draw {
    ghost rules: { Drawing Self };

    /// Gives the entry its number. `target` is the object to which a `weak` that answers `ok` sets its
    /// cell, and None for every other entry. `freed` holds the managed numbers that a snap or a resolve
    /// frees, and is empty for every other entry.
    fn draw(&mut self, made: &Made, target: Option<MNum>, freed: &[MNum]) -> u64
        requires left { 1 ≤ rules.left self.old }
        requires may { rules.may self.old made.now.caller made.now.op target }
        ensures low { rules.floor self.old ≤ result }
        ensures high { result < rules.floor self.new }
        ensures left { rules.left self.old ≤ rules.left self.new + 1 }
        ensures may { (t : Thread) (o : Op) → IsTrue (is_peer_event t o)
            → (rules.may self.old t o None ↔ rules.may self.new t o None) }
        ensures drew { rules.drew self.old (numbered result made.now) target freed.now self.new };
}

/// The plain count: it draws 0, 1, 2 and so on.
#[derive(Drop)]
pub struct Counter {
    count: u64,
}

impl Model for Counter {
    ghost use Rattle.std.specs.Prelude.{ℕ, ◌≤◌, ◌^◌};

    ghost Value = { ℕ };

    ghost view = { λ c. c.count };

    ghost invariant = { λ c. c.count ≤ 2 ^ 63 };
}

impl Counter {
    /// A count that has drawn nothing.
    pub fn new() -> Counter
        ensures { result ≡ 0 }
    {
        Counter { count: 0 }
    }
}

impl Draw for Counter {
    ghost rules = { counting };

    fn draw(&mut self, _made: &Made, _target: Option<MNum>, _freed: &[MNum]) -> u64 {
        let number = self.count;
        self.count += 1;
        number
    }
}

/// The law of the plain count: entries that it drew in turn have the numbers from the count before on, one
/// after another, and nothing else was drawn, since the count rose by just as many.
pub fn counted_in_turn()
    ensures { (a b : ℕ) (ns : List Drawn) → DrewInTurn CountDrew a ns b
        → NumberedFrom a (map (λ n. n.entry) ns) × (b ≡ a + length ns) }
{}

/// The law of every draw: what was drawn in turn, and then more in turn, was drawn in turn as one list.
pub fn drawn_in_turn<D: Draw>()
    ensures { (a b c : D) (xs ys : List Drawn) → DrewInTurn D.rules.drew a xs b
        → DrewInTurn D.rules.drew b ys c → DrewInTurn D.rules.drew a (xs ++ ys) c }
{}
