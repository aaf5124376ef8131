// Laws of histories with lock-free reads.

ghost use Rattle.joint_laws.specs.ReadingLaws.{EveryReadingRunIsComplete, ExactReadingsAreLawful, ReadlessIsExact};
ghost use Rattle.joint_laws.specs.ReadingLaws.{KeptPinsAreLawful, KeptPinsLeadToSame, LinkedIsComplete};
ghost use Rattle.joint_laws.specs.ReadingLaws.{ReadingIsLawful, ReadingLeadsToSame, ReadingProjectionIsComplete};
ghost use Rattle.joint_laws.specs.ReadingLaws.{ReadingProjectsSo};

/// A history with lock-free reads, without those that are set aside, is a lawful list of entries, and leads to the same
/// state of both sides, with the same joint projection. So this projection is a run of the joint machine, sound and
/// complete: there is such a run, and every run over it is so.
pub fn reading_projection_is_complete()
    ensures without { ReadingIsLawful }
    ensures same { ReadingLeadsToSame }
    ensures projection { ReadingProjectsSo }
    ensures lawful { ReadingProjectionIsComplete }
    ensures linked { LinkedIsComplete }
    ensures every { EveryReadingRunIsComplete }
{}

/// The managed side's own list of a history with lock-free reads is lawful, if with each entry those pins are kept that
/// the reads and the takes before it leave; and it leads to the managed state of the history, but for the pins.
pub fn kept_pins_are_lawful()
    ensures lawful { KeptPinsAreLawful }
    ensures same { KeptPinsLeadToSame }
{}

/// A history with lock-free reads in which each read answers as the one machine does at its number is a lawful list in
/// which reads are events as all others are, and leads to the same state. So it is of a history without reads.
pub fn exact_readings_are_lawful()
    ensures exact { ExactReadingsAreLawful }
    ensures readless { ReadlessIsExact }
{}
