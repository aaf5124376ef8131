// Laws of the events that come while a marking is open.

ghost use Rattle.marking_laws.specs.MarkingLaws.{BeginMakesMarksExact, BringingBackKeepsMarks, ClearingKeepsMarks};
ghost use Rattle.marking_laws.specs.MarkingLaws.{NewPeersKeepMarks, OtherEventsKeepMarks, StandingKeepsMarks};
ghost use Rattle.marking_laws.specs.MarkingLaws.{WritesKeepMarks};

/// The begin makes the marks exact, where just what the roots reach over the edges of now has a mark.
pub fn begin_makes_marks_exact()
    ensures { BeginMakesMarksExact }
{}

/// A write to a field of a peer in a slot keeps the marks exact.
pub fn writes_keep_marks()
    ensures { WritesKeepMarks }
{}

/// An event that leaves fields, freed peers and mirrored references as they are keeps the marks exact: moves between
/// slots, handles issued or gone, names and strengths.
pub fn other_events_keep_marks()
    ensures { OtherEventsKeepMarks }
{}

/// A new peer with a mark keeps the marks exact.
pub fn new_peers_keep_marks()
    ensures { NewPeersKeepMarks }
{}

/// To bring a peer back, and mark what it reaches over the edges of now, keeps the marks exact.
pub fn bringing_back_keeps_marks()
    ensures { BringingBackKeepsMarks }
{}

/// A mirror that comes to stand while a marking is open isn't followed by it, and the marks stay exact.
pub fn standing_keeps_marks()
    ensures { StandingKeepsMarks }
{}

/// Mirrored references whose unfreed targets the marking spares may go.
pub fn clearing_keeps_marks()
    ensures { ClearingKeepsMarks }
{}
