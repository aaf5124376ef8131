// What is so of every picture: its nodes are the unfreed objects, each has one node, and a path from a box leads to a
// node exactly where the joint machine has the object reached. The references that are drawn are those of the last
// mirror, unless a clear follows it. And of what is seen of a history whose entries are in order: after each entry a
// view, with the joint graph of both sides' states.
//
// These are laws of definitions, and nothing runs. `specs/Paths.antt` says over which arrows a path goes: it passes by
// weak global references and by the references that a cycle adds, which are drawn too. `specs/Standing.antt` says which
// references stand after some entries of a history, and `specs/Seeing.antt` when entries are in order: by what a
// checker finds of their history.
#![tactic(auto)]

ghost use Rattle.picture_laws.specs.Laws.{PicturesTell};
ghost use Rattle.picture_laws.specs.Seeing.{OrderIsNeverStuck, OrderIsSeen, SeenIsOfBothSides};
ghost use Rattle.picture_laws.specs.Standing.{MirroredAreOne, SeenReferencesStand};

/// Nodes, names and paths of a picture.
pub fn pictures_tell()
    ensures { PicturesTell }
{}

/// Which references stand after some entries; and what a mirror adds is one list.
pub fn references_stand()
    ensures stand { SeenReferencesStand }
    ensures one { MirroredAreOne }
{}

/// Where a history's entries up to one are in order by its finding, a view is seen after them, and each of them is gone
/// on by; and each view that is seen after them has the joint graph of both sides' states.
pub fn entries_in_order_are_seen()
    ensures seen { OrderIsSeen }
    ensures unstuck { OrderIsNeverStuck }
    ensures sides { SeenIsOfBothSides }
{}
