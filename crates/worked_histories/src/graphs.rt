// The components of small graphs.

ghost use Rattle.worked_histories.specs.Graphs.{DiamondIsContracted, DiamondHasNoDetour, CircleIsContracted};
ghost use Rattle.worked_histories.specs.Graphs.{MeetingIsContracted, LightMeetingIsContracted};

/// Two plain nodes between the bridge nodes 0 and 3, and the bridge node 4 after 3: three components of one node each,
/// with a cross-reference from each to the next, and one mirror edge for each of the two.
pub fn components_of_a_diamond()
    ensures { DiamondIsContracted }
{}

/// No cross-reference leads past a bridge node: with one from node 0 to node 4, which only node 3 leads to, the list
/// isn't the graph's.
pub fn components_without_detours()
    ensures { DiamondHasNoDetour }
{}

/// Three bridge nodes in a circle are one component without cross-references, and its mirror edges are the circle.
pub fn components_of_a_circle()
    ensures { CircleIsContracted }
{}

/// A class without a bridge node that eight components lead into and that leads to eight others is reported, without
/// members: a list without it isn't the graph's.
pub fn components_of_a_meeting()
    ensures { MeetingIsContracted }
{}

/// Where seven lead into it and it leads to eight, it isn't: every one of the seven refers to every one of the eight.
pub fn components_of_a_light_meeting()
    ensures { LightMeetingIsContracted }
{}
