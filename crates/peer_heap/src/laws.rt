// The law of the marks: over each event of a step an open marking goes on towards what the definition of the peer list
// has.

ghost use Rattle.peer_heap.specs.Marks.{StepsGoOn};

/// An open marking goes on over each event of a step: a write, a new peer, one that a name or a handle gave, or none of
/// these.
pub fn steps_go_on()
    ensures { StepsGoOn }
{}
