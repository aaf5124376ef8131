// Laws of a marking that goes on in slices.

ghost use Rattle.marking_laws.specs.Slices.{BeginGreysRoots, BlackeningCounts, BlackeningGoesOn, BringingBackCounts};
ghost use Rattle.marking_laws.specs.Slices.{BringingBackGoesOn, ClearingGoesOn, DoneIsAllBlack, MarksAreShutThen};
ghost use Rattle.marking_laws.specs.Slices.{NewPeersGoOn, NoneGreyIsAll, OtherEventsGoOn, ShadedWritesGoOn};
ghost use Rattle.marking_laws.specs.Slices.{ShadingCounts, StandingGoesOn, SweepIsExactThen, SweepIsSafeThen};

/// The begin greys the roots. Then a grey peer is made black, where all that it leads to now is shaded; a write shades
/// what it overwrites; what is brought back is shaded; a new peer is black; references may come to stand; those that go
/// shade their targets; and all other events leave the marks as they are.
pub fn slices_go_on()
    ensures begin { BeginGreysRoots }
    ensures black { BlackeningGoesOn }
    ensures write { ShadedWritesGoOn }
    ensures brought { BringingBackGoesOn }
    ensures new { NewPeersGoOn }
    ensures stand { StandingGoesOn }
    ensures clear { ClearingGoesOn }
    ensures other { OtherEventsGoOn }
{}

/// Once none is grey, all that the marking reaches has a mark, what a marked peer leads to now has one, and to free the
/// unfreed peers without a mark is a sweep of the definition, which leaves no slot and no field of a peer that stays
/// with a freed one.
pub fn slices_end()
    ensures all { NoneGreyIsAll }
    ensures sweep { SweepIsExactThen }
    ensures shut { MarksAreShutThen }
    ensures safe { SweepIsSafeThen }
{}

/// The count of slices: to make a grey one black makes one more of the marking's peers black; to shade or to bring back
/// makes none black; and none is grey exactly where all of them are black.
pub fn slices_count()
    ensures black { BlackeningCounts }
    ensures shade { ShadingCounts }
    ensures brought { BringingBackCounts }
    ensures done { DoneIsAllBlack }
{}
