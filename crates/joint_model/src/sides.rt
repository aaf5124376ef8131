// The lists of both sides.

ghost use Rattle.std.specs.Prelude.{◌≡◌, ℕ, ◌+◌, ◌≤◌, [], ◌∷◌, ◌++◌, length};
ghost use Rattle.joint_machine.specs.declared.events.Made.{Made};
ghost use Rattle.joint_machine.specs.Draws.{numbered, AllBelow};
ghost use Rattle.joint_machine.specs.ManagedReplay.{ManagedReplay};
ghost use Rattle.joint_machine.specs.PeerReplay.{PeerReplay};
ghost use Rattle.joint_machine.specs.Sides.{Side, managed_rules, peer_rules, GoesOn, IsReplayed, DrawsLast};
ghost use Rattle.joint_machine.specs.Told.{Told};

use crate::draws::Draw;
use crate::lists::Entries;
use joint_machine::{Entry, MNum, Made};

/// The law of a side's list: where one entry was put last that may come next, with a number above
/// those before it, and the state is the one after it, the side is again the replay of its entries.
pub fn replays_go_on()
    ensures managed { (old new : Side ManagedReplay) (k : ℕ) (m : Made) (told : Told) → AllBelow old.entries k
        → new.entries ≡ old.entries ++ numbered k m ∷ [] → GoesOn managed_rules old.state m told new.state
        → IsReplayed managed_rules old.entries old.state → IsReplayed managed_rules new.entries new.state }
    ensures peers { (old new : Side PeerReplay) (k : ℕ) (m : Made) (told : Told) → AllBelow old.entries k
        → new.entries ≡ old.entries ++ numbered k m ∷ [] → GoesOn peer_rules old.state m told new.state
        → IsReplayed peer_rules old.entries old.state → IsReplayed peer_rules new.entries new.state }
{}

/// Draws a number for what was made, and puts its entry last. Answers the number. It takes no memory.
#[inline(always)]
pub fn enter<D: Draw>(
    entries: &mut Entries,
    draw: &mut D,
    made: Made,
    target: Option<MNum>,
    freed: &[MNum],
) -> u64
    requires spare { 1 ≤ entries.old.spare }
    requires below { AllBelow entries.old.entries (D.rules.floor draw.old) }
    requires room { u32.MAX ≤ D.rules.left draw.old + length entries.old.entries }
    requires may { D.rules.may draw.old made.caller made.op target }
    ensures draws { DrawsLast D.rules draw.old draw.new entries.old.entries entries.new.entries made target freed.now }
    ensures number { entries.new.entries ≡ entries.old.entries ++ numbered result made ∷ [] }
    ensures spare { entries.new.spare + 1 ≡ entries.old.spare }
{
    // what the list holds and has room for is within its limit
    let _ = entries.spare();
    let number = draw.draw(&made, target, freed);
    entries.push(Entry { number, made });
    number
}

/// Does as [`enter`] does, of an event with no target that frees nothing. The entry takes four bytes
/// where it differs from the one before it by its number, one higher, and the handle that it weakens
/// or restores.
#[inline(always)]
pub fn enter_handle<D: Draw>(entries: &mut Entries, draw: &mut D, made: Made) -> u64
    requires spare { 1 ≤ entries.old.spare }
    requires below { AllBelow entries.old.entries (D.rules.floor draw.old) }
    requires room { u32.MAX ≤ D.rules.left draw.old + length entries.old.entries }
    requires may { D.rules.may draw.old made.caller made.op None }
    ensures draws { DrawsLast D.rules draw.old draw.new entries.old.entries entries.new.entries made None [] }
    ensures number { entries.new.entries ≡ entries.old.entries ++ numbered result made ∷ [] }
    ensures spare { entries.new.spare + 1 ≡ entries.old.spare }
{
    // what the list holds and has room for is within its limit
    let _ = entries.spare();
    let number = draw.draw(&made, None, &[]);
    entries.push_handle(Entry { number, made });
    number
}
