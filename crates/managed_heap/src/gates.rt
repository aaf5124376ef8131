// Who closes the gate for a snapshot.

ghost use Rattle.std.specs.Prelude.{ℕ, List, Option, MatchOption};
ghost use Rattle.joint_machine.specs.declared.names.MNum.{MNum};

use crate::opening::Pins;
use joint_model::Cycle;

/// Closes the gate for a cycle, and gives the pins of readers as they stand while it is closed. `may_close` says when
/// it may be asked; `closed` relates it before, the cycle's number, the pins and it afterwards; `refused` says what
/// holds where the gate wasn't closed.
///
/// A snapshot asks once, when it has all memory that it needs: so each closing has its snapshot.
pub trait Closes {
    ghost may_close: { Self → ℕ → Type 0 };

    ghost closed: { Self → ℕ → List (Option MNum) → Self → Type 0 };

    ghost refused: { Self → Self → Type 0 };

    /// Closes the gate, and answers the pins; None exactly where it isn't closed.
    fn close(&mut self, cycle: Cycle) -> Option<Pins>
        requires may { may_close self.old cycle.0 }
        ensures closed { MatchOption result (refused self.old self.new) (λ p. closed self.old cycle.0 p.at self.new) };
}
