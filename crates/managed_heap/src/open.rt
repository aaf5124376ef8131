// An open cycle.

ghost use Rattle.std.specs.Prelude.{◌≡◌, length};

use joint_model::MNum;
use std::marker::Model;

/// An open cycle: its number, its candidates and its dead part.
#[derive(Drop)]
pub(crate) struct OpenParts {
    pub(crate) number: u32,
    pub(crate) candidates: Vec<u32>,
    pub(crate) dead: Vec<MNum>,
}

impl Model for OpenParts {
    ghost use Rattle.joint_machine.specs.Histories.{managed_numbers};
    ghost use Rattle.joint_machine.specs.Managed.{OpenCycle};

    ghost Value = { OpenCycle };

    ghost view = { λ s. record {
      number = s.number;
      candidates = s.candidates.items;
      dead = managed_numbers s.dead.items;
    } };
}

impl OpenParts {
    /// The cycle's number.
    pub(crate) fn number(&self) -> u32
        ensures { result ≡ self.now.number }
    {
        self.number
    }
}
