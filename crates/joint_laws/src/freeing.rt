// Laws on what snapshots and resolutions free.

ghost use Rattle.joint_laws.specs.FreeingLaws.{ResolutionFreesUnreached, SnapshotFreesUnreached};

/// No managed row that a snapshot frees is reached in the joint graph, in any joint state.
pub fn snapshots_free_unreached_rows()
    ensures { SnapshotFreesUnreached }
{}

/// No managed row that a resolution frees is reached in the joint graph, in any joint state whose managed part keeps
/// what `managed_invariant_holds` says of every state, where the candidates that stay are those whose peer is unfreed.
pub fn resolutions_free_unreached_rows()
    ensures { ResolutionFreesUnreached }
{}
