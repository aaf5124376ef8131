// The worked histories as runs of the joint machine; each is whole.

ghost use Rattle.worked_histories.specs.Runs.{TwoPhasedRun, CrossHeapRun, SurfacedRun, PinnedRun, DeletionRun};

/// The two linked objects.
pub fn two_linked_objects_by_phases_run()
    ensures { TwoPhasedRun }
{}

/// The cycle across both heaps.
pub fn cycle_across_both_heaps_run()
    ensures { CrossHeapRun }
{}

/// The object that gave its handle up.
pub fn disposed_and_surfaced_object_run()
    ensures { SurfacedRun }
{}

/// The object in a reader's pin.
pub fn object_in_a_pin_run()
    ensures { PinnedRun }
{}

/// The field that is emptied in a marking.
pub fn field_emptied_in_a_marking_run()
    ensures { DeletionRun }
{}
