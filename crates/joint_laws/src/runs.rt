// Laws on runs of the joint machine.

ghost use Rattle.joint_laws.specs.RunStateLaws.{OthersKeepGraph, StepsHaveMoments};
ghost use Rattle.joint_laws.specs.RunLaws.{EveryRunIsComplete, EveryRunIsSound, ProjectionIsComplete, ProjectionIsRun};
ghost use Rattle.joint_laws.specs.RunLaws.{ProjectionIsSound, RunIsOne, SnapshotsAreSound, SweepsAreSound};

/// The joint projection of each lawful list of entries is a run of the joint machine, word by word, whatever entries of
/// other threads come between those of a cycle or of an operation; so is that of each linked history. No list of
/// entries has two runs, so it is the only one.
pub fn joint_projection_is_a_run()
    ensures lawful { ProjectionIsRun }
    ensures one { RunIsOne }
{}

/// In every run, no managed row that a snapshot frees was reached just before it.
pub fn snapshots_are_sound()
    ensures { SnapshotsAreSound }
{}

/// In every run, each peer that a sweep frees was unreached at the begin of the marking and just before the sweep.
pub fn sweeps_are_sound()
    ensures { SweepsAreSound }
{}

/// The run of each linked history is sound: each candidate that a resolution frees held a handle whose peer a sweep
/// freed, both unreached at its begin and just before it; each peer that a sweep frees was so; and no managed row that
/// a snapshot or a resolution frees was reached just before. There is such a run, and every run over the joint
/// projection is so.
pub fn joint_projection_is_sound()
    ensures lawful { ProjectionIsSound }
    ensures every { EveryRunIsSound }
{}

/// The run of each linked history is sound, and it is complete: no candidate and no peer of a cycle's own marking is
/// left that was unreached from the cycle's snapshot to that marking's sweep. Each candidate that is unreached from the
/// cycle's snapshot to the sweep of its own marking is freed by the resolution, and each peer that existed when that
/// marking began and is unreached throughout the same entries is freed at the latest by that sweep. There is such a
/// run, and every run over the joint projection is so.
pub fn joint_projection_is_complete()
    ensures lawful { ProjectionIsComplete }
    ensures every { EveryRunIsComplete }
{}

/// In each run over the joint projection of a lawful list of entries, each entry that is a step has its moment, which
/// goes from the joint graph of both sides' states before the entry to that of those after it; and each other entry
/// leaves that graph as it is. So what a law says of the states of the list it says of the run.
pub fn run_states_are_both_sides()
    ensures steps { StepsHaveMoments }
    ensures others { OthersKeepGraph }
{}
