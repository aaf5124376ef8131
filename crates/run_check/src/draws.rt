// The one count from which both sides draw, and the gate of a snapshot. There is one thread, so the gate closes at
// once, with the pins as they are.

ghost use Rattle.std.specs.Prelude.{◌≡◌};

use joint_model::{Counter, Cycle, Draw, MNum, Made};
use managed_heap::{Closes, Pins};

/// The plain count, with the object to which the last drawn entry set its cell, and the pins that the gate gives.
#[derive(Drop)]
pub(crate) struct Recorder {
    counter: Counter,
    target: Option<MNum>,
    pins: Pins,
}

impl Recorder {
    /// A count that has drawn nothing.
    pub(crate) fn new() -> Recorder
        ensures { result.counter ≡ 0 }
    {
        Recorder {
            counter: Counter::new(),
            target: None,
            pins: Pins { at: [None; 8] },
        }
    }

    /// The object to which the last drawn entry set its cell.
    pub(crate) fn target(&self) -> Option<MNum>
        ensures { result ≡ self.now.target }
    {
        self.target
    }

    /// The gate gives these pins from now on.
    pub(crate) fn give(&mut self, pins: Pins)
        ensures { self.new ≡ record self.old { pins = pins } }
    {
        self.pins = pins;
    }
}

impl Draw for Recorder {
    ghost use Rattle.std.specs.Prelude.{◌≡◌, ◌-◌, ◌^◌, ⊤};
    ghost use Rattle.joint_machine.specs.Draws.{CountDrew};

    ghost rules = { record {
      floor = λ r. r.counter;
      left = λ r. 2 ^ 63 - r.counter;
      may = λ r t o m. ⊤;
      drew = λ r e m freed after. CountDrew r.counter e m freed after.counter × (after.target ≡ m);
    } };

    fn draw(&mut self, made: &Made, target: Option<MNum>, freed: &[MNum]) -> u64 {
        self.target = target;
        self.counter.draw(made, target, freed)
    }
}

impl Closes for Recorder {
    ghost use Rattle.std.specs.Prelude.{◌≡◌, ⊤};

    ghost may_close = { λ r k. ⊤ };

    ghost closed = { λ r k pins after. (pins ≡ r.pins.at) × (after ≡ r) };

    ghost refused = { λ r after. ⊥ };

    fn close(&mut self, _cycle: Cycle) -> Option<Pins> {
        Some(self.pins)
    }
}
