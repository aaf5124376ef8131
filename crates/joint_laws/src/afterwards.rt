// Laws of what holds afterwards.

ghost use Rattle.joint_laws.specs.AfterwardsLaws.{LockFreeReadsAreGone, NoneIsMirrored, NoneIsMirroredReading};
ghost use Rattle.joint_laws.specs.AfterwardsLaws.{ReadsAreGone, WeakReadsAreGone, WeakReadsAreGoneReading};

/// From `resolve k` on, a read of a cell whose target it freed answers gone, unless the caller's pin is filled or a
/// later cycle is open, which the reply then names; in a history with lock-free reads, unless the read is set aside
/// too.
pub fn reads_of_freed_objects_are_gone()
    ensures reads { ReadsAreGone }
    ensures lock_free { LockFreeReadsAreGone }
{}

/// From its sweep on, a `wread` of a freed peer answers gone.
pub fn weak_reads_of_freed_peers_are_gone()
    ensures reads { WeakReadsAreGone }
    ensures lock_free { WeakReadsAreGoneReading }
{}

/// After `clear k` no mirrored reference stands until the next mirror.
pub fn none_is_mirrored_after_a_clear()
    ensures list { NoneIsMirrored }
    ensures lock_free { NoneIsMirroredReading }
{}
