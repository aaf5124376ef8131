// Tests of histories: whether an entry may come next is computed, on every list of entries.
//
// `specs/` has the tests, which are functions to truth values: Lists, Rows, Contractions, Markings and Graphs of what
// rows reach, Lines, Callers and Sides of each event, Replies of equality, Histories of entries and lists of entries,
// and Steps of the joint machine. Each law says that a test tells exactly what its definition in `joint_model` says,
// and of a step that what passes is one; its body is empty, and its contract is a statement of `specs/`.
//
// No value is made and nothing runs: proofs compute the tests, of worked histories for instance.
#![tactic(auto)]

ghost use Rattle.computed_histories.specs.Graphs.{ReachedIsTested, UnreachedAreTested};
ghost use Rattle.computed_histories.specs.Histories.{AllMayComeIsTested, MayComeIsTested, NumbersAreTested};
ghost use Rattle.computed_histories.specs.Histories.{RepliesAreTested, WholeIsTested};
ghost use Rattle.computed_histories.specs.Parts.{CallerIsTested, ClosureIsTested, ContractionIsTested, EventIsTested};
ghost use Rattle.computed_histories.specs.Parts.{ManagedIsTested, PeerIsTested, ResolutionIsTested, SnapshotIsTested};
ghost use Rattle.computed_histories.specs.Parts.{SweepIsTested};
ghost use Rattle.computed_histories.specs.Readings.{LinkedHasQueued, LinkedIsTested, PendingIsTested, ReadingIsTested};
ghost use Rattle.computed_histories.specs.Readings.{UnsetIsTested};
ghost use Rattle.computed_histories.specs.States.{StatesAreTested};
ghost use Rattle.computed_histories.specs.Steps.{RunsAreTested, StepsAreTested};

/// Whether an entry may come next is decided by its test, and so is whether every entry of a list may come when it
/// comes.
pub fn may_come_is_tested()
    ensures one { MayComeIsTested }
    ensures every { AllMayComeIsTested }
{}

/// Whether the history that notes make is linked by them is decided by its test; its list has every notice that was
/// queued.
pub fn linked_is_tested()
    ensures linked { LinkedIsTested }
    ensures queued { LinkedHasQueued }
{}

/// Whether the entries have the numbers from n on, whether nothing is left half done, and whether two replies are the
/// same are decided by their tests.
pub fn ends_are_tested()
    ensures numbers { NumbersAreTested }
    ensures whole { WholeIsTested }
    ensures replies { RepliesAreTested }
{}

/// Whether a row is reached in the one graph of both heaps is decided by its test, and so is whether a list has exactly
/// the unfreed peers that aren't.
pub fn reached_is_tested()
    ensures row { ReachedIsTested }
    ensures unreached { UnreachedAreTested }
{}

/// An entry that passes its test is a step of the joint machine to the state that is computed, and a list of entries
/// that passes is a run, with the moments that are computed. Whether two states are the same is decided by its test.
pub fn steps_are_tested()
    ensures one { StepsAreTested }
    ensures run { RunsAreTested }
    ensures states { StatesAreTested }
{}

/// What a snapshot frees and leaves, what a resolution frees, the components of a dead part, a slice's closure and what
/// a sweep frees are decided by their tests.
pub fn freeing_is_tested()
    ensures snapshot { SnapshotIsTested }
    ensures resolution { ResolutionIsTested }
    ensures contraction { ContractionIsTested }
    ensures closure { ClosureIsTested }
    ensures sweep { SweepIsTested }
{}

/// Whether there is an event, what it asks for of its own side, and whether it comes in its caller's order are decided
/// by their tests.
pub fn events_are_tested()
    ensures event { EventIsTested }
    ensures managed { ManagedIsTested }
    ensures peer { PeerIsTested }
    ensures caller { CallerIsTested }
{}

/// Of a history, in which reads take no lock, it is decided by its test whether a read may answer `pending` or `unset`,
/// and whether each entry of a list may come when it comes.
pub fn readings_are_tested()
    ensures pending { PendingIsTested }
    ensures unset { UnsetIsTested }
    ensures every { ReadingIsTested }
{}
