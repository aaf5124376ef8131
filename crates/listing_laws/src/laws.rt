// The laws, each the contract of a function that does nothing.

ghost use Rattle.listing_laws.specs.Laws.{LastSnapIsOpen, LeftPhasesOpenNone, LinesOpenNone, SeenIsListed};
ghost use Rattle.listing_laws.specs.Laws.{SeenStaysSeen, SnapsAreTheDrivers, StatesAreOne, WritingGoesOn};

/// The snapshots of a linked history are those of its driver, in order. A line of the driver that opens no cycle makes
/// none, and neither do the phases that are left of a cycle; and after one that it makes the driver has its cycle open.
pub fn snapshots_are_the_drivers()
    ensures drivers { SnapsAreTheDrivers }
    ensures lines { LinesOpenNone }
    ensures left { LeftPhasesOpenNone }
    ensures last { LastSnapIsOpen }
{}

/// What was listed of snapshots by known lines stays so as more of the lines is known; and what is written of two
/// stretches of cycles, one after the other, is written of both.
pub fn listings_grow()
    ensures grow { SeenStaysSeen }
    ensures written { WritingGoesOn }
{}

/// The states that a history's snapshots leave are one, whatever notes link it. What was listed of each snapshot when
/// it was made, by what a seat knew then, is listed of the state that it leaves: the dead part of a cycle is told by
/// its snapshot alone, whatever others know.
pub fn what_was_seen_is_listed()
    ensures one { StatesAreOne }
    ensures seen { SeenIsListed }
{}
