// The stages of a cycle, each with what the driver keeps in it.

ghost use Rattle.std.specs.Prelude.{◌≡◌, ◌↔◌, IfSome, IsNone, Some};
ghost use Rattle.bridge_cycle.specs.Held.{phase_of, snapshot_in};

use joint_model::{Alive, Phase};
use managed_heap::Opened;
use xref_list::Components;

/// How far the driver has come, with what belongs to it: the snapshot, from which the cycle's graph comes; its
/// components, until they are mirrored; room for the answers of the restores, which is taken with the components, and
/// then the answers; and the number of the clear.
#[derive(Drop)]
pub enum Stage {
    Idle,
    Snapped {
        opened: Opened,
    },
    Contracted {
        opened: Opened,
        comps: Components,
        alive: Alive,
    },
    Mirrored {
        opened: Opened,
        alive: Alive,
    },
    Weakened {
        opened: Opened,
        alive: Alive,
    },
    Marked {
        opened: Opened,
        alive: Alive,
    },
    Swept {
        opened: Opened,
        alive: Alive,
    },
    Restored {
        opened: Opened,
        alive: Alive,
        clear: u64,
    },
}

impl Stage {
    /// The next stage comes in place of this one. That is a call, so that what this one has is dropped there, and not
    /// wherever a stage is taken on.
    pub(crate) fn becomes(&mut self, next: Stage)
        ensures { self.new ≡ next }
    {
        *self = next;
    }

    /// The phase of the stage.
    pub(crate) fn phase(&self) -> Phase
        ensures { result ≡ phase_of self.now }
    {
        match self {
            Stage::Idle => Phase::Idle,
            Stage::Snapped { .. } => Phase::Snapped,
            Stage::Contracted { .. } => Phase::Contracted,
            Stage::Mirrored { .. } => Phase::Mirrored,
            Stage::Weakened { .. } => Phase::Weakened,
            Stage::Marked { .. } => Phase::Marked,
            Stage::Swept { .. } => Phase::Swept,
            Stage::Restored { .. } => Phase::Restored,
        }
    }

    /// The snapshot of the open cycle.
    pub(crate) fn opened(&self) -> Option<&Opened>
        ensures none { IsNone result ↔ (phase_of self.now ≡ Phase.Idle) }
        ensures some { IfSome result (λ o. snapshot_in self.now ≡ Some o.now) }
    {
        match self {
            Stage::Idle => None,
            Stage::Snapped { opened }
            | Stage::Contracted { opened, .. }
            | Stage::Mirrored { opened, .. }
            | Stage::Weakened { opened, .. }
            | Stage::Marked { opened, .. }
            | Stage::Swept { opened, .. }
            | Stage::Restored { opened, .. } => Some(opened),
        }
    }
}
