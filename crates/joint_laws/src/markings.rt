// Laws of markings.

ghost use Rattle.joint_laws.specs.OwnMarkingLaws.{OwnMarkingIsOne, RunMarksOnce};
ghost use Rattle.joint_laws.specs.UnionLaws.{UnionFollowsMarking, UnionIsClosed};
ghost use Rattle.joint_laws.specs.RunStateLaws.{RunUnionFollowsMarking, RunUnionIsClosed};

/// In a lawful list of entries a resolution comes after the snapshot of its cycle, and between the two the driver
/// begins exactly one marking: the own marking of a cycle is one. So in the run that a complete cycle speaks of no
/// other begin could be meant.
pub fn own_marking_is_one()
    ensures list { OwnMarkingIsOne }
    ensures run { RunMarksOnce }
{}

/// The union of the rows that are reached from some state to a later one is closed under the joint edges of each state
/// between from which on a marking is open. So it is closed under the fields and the mirrored references that stood at
/// the begin of a marking, from that begin or from any earlier state, such as the cycle's snapshot, to a later one at
/// which the marking is open. So it is over the states of the list of entries, and over those of its run.
pub fn reached_rows_are_closed()
    ensures edges { UnionIsClosed }
    ensures marking { UnionFollowsMarking }
    ensures run_edges { RunUnionIsClosed }
    ensures run_marking { RunUnionFollowsMarking }
{}
