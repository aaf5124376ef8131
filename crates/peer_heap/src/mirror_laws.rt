// The laws of a mirrored cycle: what the rows do is what the replay does, and what that keeps.

ghost use Rattle.peer_heap.specs.MirrorLaws.{MirroredRowsGoOn, MirrorsGoOn, RestoresAreOwed, StepsLeaveMirrors};

/// What the rows do in a mirrored cycle is what the replay does: references come to stand and go, and handles are
/// weakened and restored.
pub fn mirrored_rows_go_on()
    ensures { MirroredRowsGoOn }
{}

/// An open marking goes on where references come to stand, and where a restored peer is shaded.
pub fn mirrors_go_on()
    ensures { MirrorsGoOn }
{}

/// A mirrored cycle owes a restore for each handle that is weakened and not restored.
pub fn restores_are_owed()
    ensures { RestoresAreOwed }
{}

/// A step leaves a mirrored cycle as it is.
pub fn steps_leave_mirrors()
    ensures { StepsLeaveMirrors }
{}
