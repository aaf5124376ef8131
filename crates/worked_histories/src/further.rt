// Further histories: the notes of each make a linked history, and its projection is a run of the joint machine.

ghost use Rattle.worked_histories.specs.Abandoned.{AbandonedHolds};
ghost use Rattle.worked_histories.specs.EndedMarking.{EndedMarkingHolds};
ghost use Rattle.worked_histories.specs.Freeing.{FreesOneObject};
ghost use Rattle.worked_histories.specs.GlobalNames.{GlobalNamesHold};
ghost use Rattle.worked_histories.specs.HeldPeer.{HeldPeerHolds};
ghost use Rattle.worked_histories.specs.Meeting.{MeetingHolds};
ghost use Rattle.worked_histories.specs.MovedPeer.{MovedPeerHolds};
ghost use Rattle.worked_histories.specs.OneObject.{OneObjectHolds};
ghost use Rattle.worked_histories.specs.PeerMarking.{PeerMarkingHolds};
ghost use Rattle.worked_histories.specs.PendingRead.{PendingReadHolds};
ghost use Rattle.worked_histories.specs.PlainBetween.{PlainBetweenHolds};
ghost use Rattle.worked_histories.specs.PlainObject.{PlainObjectHolds};
ghost use Rattle.worked_histories.specs.RareAnswers.{RareAnswersHold};
ghost use Rattle.worked_histories.specs.Refusals.{RefusalsHold};
ghost use Rattle.worked_histories.specs.RenewedHandle.{ReadsRenewed, RenewedHandleHolds};
ghost use Rattle.worked_histories.specs.Resurrected.{ResurrectedHolds};
ghost use Rattle.worked_histories.specs.SideLists.{OneObjectSidesHold};
ghost use Rattle.worked_histories.specs.TwoMarkings.{TwoMarkingsHold};

/// Phases out of their order.
pub fn refusals_is_lawful()
    ensures { RefusalsHold }
{}

/// A plain object that nothing names.
pub fn plain_object_is_lawful()
    ensures { PlainObjectHolds }
{}

/// Reads of a weak cell while a cycle is open.
pub fn pending_read_is_lawful()
    ensures { PendingReadHolds }
{}

/// A peer thread's marking in the midst of a cycle.
pub fn peer_marking_is_lawful()
    ensures { PeerMarkingHolds }
{}

/// Strong and weak global names.
pub fn global_names_is_lawful()
    ensures { GlobalNamesHold }
{}

/// A peer that comes back through a weak name.
pub fn resurrected_is_lawful()
    ensures { ResurrectedHolds }
{}

/// An object that a cycle keeps with a new handle.
pub fn renewed_handle_is_lawful()
    ensures { RenewedHandleHolds }
{}

/// Its handle afterwards is the new one: an answer with the old one isn't lawful.
pub fn kept_object_has_its_new_handle()
    ensures { ReadsRenewed }
{}

/// A peer that moves between two phases.
pub fn moved_peer_is_lawful()
    ensures { MovedPeerHolds }
{}

/// A peer thread's marking that the driver ends.
pub fn ended_marking_is_lawful()
    ensures { EndedMarkingHolds }
{}

/// Two bridge objects with plain ones between.
pub fn plain_between_is_lawful()
    ensures { PlainBetweenHolds }
{}

/// A cycle across both heaps that a static holds.
pub fn held_peer_is_lawful()
    ensures { HeldPeerHolds }
{}

/// A cycle that keeps objects whose peers are reached through a temporary peer alone.
pub fn meeting_is_lawful()
    ensures { MeetingHolds }
{}

/// Two cycles that are abandoned.
pub fn abandoned_is_lawful()
    ensures { AbandonedHolds }
{}

/// One bridge object that is let go.
pub fn one_object_is_lawful()
    ensures { OneObjectHolds }
{}

/// Each side's list of the one object is lawful by itself, and the side is the replay of it.
pub fn one_object_has_two_lists()
    ensures { OneObjectSidesHold }
{}

/// The run of the one object frees nothing too early, and leaves nothing that was unreached throughout its cycle.
pub fn one_object_is_freed_in_time()
    ensures { FreesOneObject }
{}

/// What threads are answered while a marking or a cycle of another is open.
pub fn two_markings_is_lawful()
    ensures { TwoMarkingsHold }
{}

/// Answers that the other histories don't have.
pub fn rare_answers_are_lawful()
    ensures { RareAnswersHold }
{}
