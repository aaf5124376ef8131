// Laws of the marks as a whole: they are shut under the edges of now, and a sweep by them is that of the definition.

ghost use Rattle.marking_laws.specs.MarkingLaws.{MarksAreShut, SweepIsExact, SweepIsSafe};

/// What a marked peer leads to now has a mark.
pub fn marks_are_shut()
    ensures { MarksAreShut }
{}

/// To free the unfreed peers without a mark, rising, is a sweep of the definition.
pub fn sweep_is_exact()
    ensures { SweepIsExact }
{}

/// It leaves no slot and no field of a peer that stays with a freed one.
pub fn sweep_is_safe()
    ensures { SweepIsSafe }
{}
