// Whole histories with cycles of eight phases, and the replies that may not stand in them.

ghost use Rattle.joint_machine.specs.Linked.{opening_linkage};
ghost use Rattle.joint_machine.specs.Replaying.{AllMayCome};
ghost use Rattle.worked_histories.specs.CrossHeap.{cross_heap_cycle};
ghost use Rattle.worked_histories.specs.Deletion.{deletion, KeepsDeleted};
ghost use Rattle.worked_histories.specs.Phases.{two_phased, SetsField, KeepsReached, MirrorsBoth, ResolvesBoth};
ghost use Rattle.worked_histories.specs.Pins.{pinned_object, ReadsPinned};
ghost use Rattle.worked_histories.specs.Surfaced.{disposed_and_surfaced};
ghost use Rattle.worked_histories.specs.Wholes.{HistoriesAreWhole};

/// Two linked bridge objects: every entry may come when it comes.
pub fn two_linked_objects_by_phases()
    ensures { AllMayCome opening_linkage two_phased }
{}

/// The set of the first object's field answers ok: an answer that the variable is empty isn't lawful.
pub fn set_answers_ok()
    ensures { SetsField }
{}

/// The first snap can't free the object that a variable holds, whatever else is told of it.
pub fn reached_object_stays()
    ensures { KeepsReached }
{}

/// The mirror of their dead part adds the one reference: a list without it isn't lawful.
pub fn mirror_leaves_nothing_out()
    ensures { MirrorsBoth }
{}

/// Their resolution keeps neither: one that keeps another set, or frees less, isn't lawful.
pub fn resolution_keeps_the_answered()
    ensures { ResolvesBoth }
{}

/// A cycle across both heaps: every entry may come when it comes, and all four objects are freed.
pub fn cycle_across_both_heaps()
    ensures { AllMayCome opening_linkage cross_heap_cycle }
{}

/// An object that gave its handle up, and its peer that surfaces twice: every entry may come when it comes.
pub fn disposed_and_surfaced_object()
    ensures { AllMayCome opening_linkage disposed_and_surfaced }
{}

/// An object in a reader's pin: every entry may come when it comes.
pub fn object_in_a_pin()
    ensures { AllMayCome opening_linkage pinned_object }
{}

/// A read while the pin is filled answers that it is: an answer that the object is gone isn't lawful.
pub fn filled_pin_is_told()
    ensures { ReadsPinned }
{}

/// A peer in a field that is emptied during a marking: every entry may come when it comes.
pub fn field_emptied_in_a_marking()
    ensures { AllMayCome opening_linkage deletion }
{}

/// The sweep of that marking can't free the peer that was in the field when it began.
pub fn deleted_reference_holds()
    ensures { KeepsDeleted }
{}

/// Two of the histories as finished ones: nothing is left half done, and their lists are what was freed and queued.
pub fn finished_histories_are_linked()
    ensures { HistoriesAreWhole }
{}
