// The law, the contract of a function that does nothing.

ghost use Rattle.pin_laws.specs.Pinned.{GivenObjectsLive, LinkedPinsHold, NoneFreesPinned, PinnedObjectsLive};

/// From the read that gave an object up to its thread's next `take` the thread's pin holds the object, which is live;
/// no snapshot and no resolution in between frees it. So it is in each linked history. And no read gives an object that
/// is freed.
pub fn pinned_objects_live()
    ensures live { PinnedObjectsLive }
    ensures unfreed { NoneFreesPinned }
    ensures linked { LinkedPinsHold }
    ensures given { GivenObjectsLive }
{}
