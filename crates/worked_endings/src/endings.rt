// What a history may not end with, and what may not be read in it.

ghost use Rattle.worked_endings.specs.Endings.{AreCyclesRefused, AreReadsRefused, AreWaitsRefused};
ghost use Rattle.worked_endings.specs.Kept.{ArePeersKept};

/// A read, also one that waits, answers an object that a resolution has freed, or a pin that isn't filled; a weak read
/// answers a peer that a sweep has freed.
pub fn reads_of_the_freed_are_refused()
    ensures { AreReadsRefused }
{}

/// A cycle is abandoned, is never resolved, or isn't resolved before the next one is opened; or another cycle's resolve
/// comes in place of its own.
pub fn abandoned_and_open_cycles_are_refused()
    ensures { AreCyclesRefused }
{}

/// A read that waits answers that it is pending, whatever its cell and the cycle.
pub fn waits_without_an_end_are_refused()
    ensures { AreWaitsRefused }
{}

/// A sweep frees the peer of an object that is no candidate; or one that a weak name gave back since the begin of its
/// marking, though it was unreached at that begin and just before the sweep; or one whose marking was never begun.
pub fn freed_peers_of_the_living_are_refused()
    ensures { ArePeersKept }
{}
