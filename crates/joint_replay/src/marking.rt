// An open marking.

ghost use Rattle.std.specs.Prelude.{◌≡◌, ℕ, ◌↔◌, ◌⊎◌, IsTrue, IfOk, All};
ghost use Rattle.joint_machine.specs.Components.{Rises};
ghost use Rattle.joint_machine.specs.Joint.{Graph};
ghost use Rattle.reachability.specs.Marks.{HasMark, marked};
ghost use Rattle.joint_machine.specs.Run.{IsStored};
ghost use Rattle.joint_replay.specs.Graphs.{parts_graph};

use crate::dead::dead_peers;
use crate::managed::ManagedPart;
use crate::peers::PeerPart;
use joint_model::Thread;
use std::alloc::{AllocError, Global};
use std::marker::Model;
use std::snapshot::Snapshot;

/// An open marking: its number, the thread that began it, and for each peer whether it was live and unreached then. The
/// graph at its begin stands in contracts alone.
#[derive(Drop)]
pub(crate) struct BegunMarking {
    number: u32,
    by: Thread,
    managed: Snapshot<ManagedPart>,
    peers: Snapshot<PeerPart>,
    removed: Snapshot<Vec<bool>>,
    stored: Vec<bool>,
}

impl Model for BegunMarking {
    ghost use Rattle.std.specs.Prelude.{ℕ, ◌↔◌};
    ghost use Rattle.joint_machine.specs.Joint.{JointMarking};
    ghost use Rattle.joint_machine.specs.Run.{IsStored};
    ghost use Rattle.joint_replay.specs.Graphs.{parts_graph};
    ghost use Rattle.reachability.specs.Marks.{HasMark};

    ghost Value = { JointMarking };

    ghost view = { λ s. record {
      number = s.number;
      by = s.by;
      begun = parts_graph s.managed.value s.peers.value s.removed.value.items;
    } };

    ghost invariant = { λ s. let m : JointMarking =
        record { number = s.number; by = s.by; begun = parts_graph s.managed.value s.peers.value s.removed.value.items }
        in (p : ℕ) → HasMark s.stored.items p ↔ IsStored m p };
}

impl BegunMarking {
    /// The marking of that number that the thread begins now. Answers `AllocError` where there is no memory.
    pub(crate) fn begin(
        alloc: Global,
        number: u32,
        by: Thread,
        managed: &ManagedPart,
        peers: &PeerPart,
        removed: &Vec<bool>,
    ) -> Result<BegunMarking, AllocError>
        ensures { IfOk result (λ m. (m.number ≡ number) × (m.by ≡ by)
            × (m.begun ≡ parts_graph managed.now peers.now removed.now.items)) }
    {
        let stored = dead_peers(alloc, managed, peers, removed)?;
        Ok(BegunMarking {
            number,
            by,
            managed: Snapshot::of(managed),
            peers: Snapshot::of(peers),
            removed: Snapshot::of(removed),
            stored,
        })
    }

    /// The marking's number.
    pub(crate) fn number(&self) -> u32
        ensures { result ≡ self.now.number }
    {
        self.number
    }

    /// Whether a sweep of the thread ends the marking: the driver's, and that of the thread that began it.
    pub(crate) fn is_ended_by(&self, thread: Thread) -> bool
        ensures { IsTrue result ↔ ((thread ≡ Thread.C) ⊎ (thread ≡ self.now.by)) }
    {
        matches!(thread, Thread::C) || thread == self.by
    }

    /// Whether the marking may free each peer of a list.
    pub(crate) fn stores(&self, freed: &[u32]) -> bool
        ensures { IsTrue result ↔ All (IsStored self.now) freed.now }
    {
        all_marked(&self.stored, freed)
    }
}

/// Whether each number of a list is marked.
pub(crate) fn all_marked(marks: &[bool], xs: &[u32]) -> bool
    ensures { IsTrue result ↔ All (HasMark marks.now) xs.now }
{
    xs.iter().all(|x| is_marked(marks, *x))
}

/// Whether the number is marked.
pub(crate) fn is_marked(marks: &[bool], x: u32) -> bool
    ensures mark { IsTrue result ↔ HasMark marks.now x }
    ensures test { result ≡ marked marks.now x }
{
    if (x as usize) < marks.len() {
        marks[x as usize]
    } else {
        false
    }
}

/// Whether the numbers of a list rise.
pub(crate) fn rises(xs: &[u32]) -> bool
    ensures { IsTrue result ↔ Rises xs.now }
{
    for i in 1..xs.len() {
        if xs[i] <= xs[i - 1] {
            return false;
        }
    }
    true
}
