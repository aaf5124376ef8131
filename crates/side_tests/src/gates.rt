// A count that gives the numbers of a side's entries, with pins that it was told: it closes no gate.

use joint_model::{Counter, Cycle, Draw, MNum, Made};
use managed_heap::{Closes, Pins};

/// Draws from a plain count, and gives these pins.
#[derive(Drop)]
pub(crate) struct Given {
    pub(crate) count: Counter,
    pub(crate) pins: Pins,
}

impl Draw for Given {
    ghost use Rattle.std.specs.Prelude.{◌-◌, ◌^◌, ⊤};
    ghost use Rattle.joint_machine.specs.Draws.{CountDrew};

    ghost rules = { record {
      floor = λ g. g.count;
      left = λ g. 2 ^ 63 - g.count;
      may = λ g t o m. ⊤;
      drew = λ g e m freed h. CountDrew g.count e m freed h.count;
    } };

    fn draw(&mut self, made: &Made, target: Option<MNum>, freed: &[MNum]) -> u64 {
        self.count.draw(made, target, freed)
    }
}

impl Closes for Given {
    ghost use Rattle.std.specs.Prelude.{◌≡◌, ⊤};

    ghost may_close = { λ g k. ⊤ };

    ghost closed = { λ g k pins h. (pins ≡ g.pins.at) × (h.count ≡ g.count) };

    ghost refused = { λ g h. ⊥ };

    fn close(&mut self, _cycle: Cycle) -> Option<Pins> {
        Some(self.pins)
    }
}
