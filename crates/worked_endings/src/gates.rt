// Which reads the gate doesn't let in, and that a pin holds what it holds.

ghost use Rattle.worked_endings.specs.Gates.{AreLetInReadsRefused, IsFreedPinRefused};

/// A read answers `unset` while a cycle is open, or behind one though its cell was set before; an object is given between
/// a `pending` and its snap; or a thread finds the gate held that it knows to be held no more.
pub fn reads_past_the_gate_are_refused()
    ensures { AreLetInReadsRefused }
{}

/// A resolution frees what a thread's pin holds.
pub fn freed_pins_are_refused()
    ensures { IsFreedPinRefused }
{}
