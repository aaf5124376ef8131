// What is refused, each for one reason alone: runs that aren't sound or complete, entries that may not come, and a
// history that isn't whole.

ghost use Rattle.worked_histories.specs.Refused.{AreRefused};
ghost use Rattle.worked_histories.specs.Shown.{AreTold};
ghost use Rattle.worked_histories.specs.Unsound.{AreIncomplete, AreUnsound};
ghost use Rattle.worked_histories.specs.WithPeers.{AreIncompleteCycles, AreUnsoundWithPeers};

/// A run isn't sound in which a candidate is freed whose peer no sweep freed, a peer without its marking, one that was
/// reached at the begin or just before the sweep, or a managed object that a variable names.
pub fn early_freeing_is_unsound()
    ensures { AreUnsound }
{}

/// A run isn't complete in which a cycle leaves a candidate or a peer that nothing reached, or a resolution stands
/// without its cycle.
pub fn left_garbage_is_incomplete()
    ensures { AreIncomplete }
{}

/// Nor one in which a candidate that held a handle is freed, and its peer's sweep frees another peer, isn't there, or
/// comes later; or in which a variable names it at the begin of the marking or just before the sweep; or it is unreached
/// at a begin that comes after the sweep alone, or at which its peer is reached. Nor one whose sweep has no begin before
/// it.
pub fn freeing_without_its_sweep_is_unsound()
    ensures { AreUnsoundWithPeers }
{}

/// Nor is one complete in which a cycle leaves a peer that was made between its snapshot and its begin; or has another
/// cycle's snapshot, a peer thread's begin or another marking's sweep; or has these out of their order.
pub fn broken_cycle_is_incomplete()
    ensures { AreIncompleteCycles }
{}

/// A text tells histories apart by their entries, what was freed, and each notice that was taken.
pub fn taken_and_freed_are_shown()
    ensures { AreTold }
{}

/// An entry may not come on a line before its thread's last one or past 32 bits, nor with an event that its caller
/// doesn't have, another answer, or a release that nothing came before. A history that ends in the midst of a dispose
/// isn't linked.
pub fn unlawful_entries_are_refused()
    ensures { AreRefused }
{}
