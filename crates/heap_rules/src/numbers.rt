// The types of numbers that a heap's list of freed objects is made of.

ghost use Rattle.std.specs.Prelude.{◌≡◌, ℕ};

use joint_machine::{MNum, PNum};

/// The number of an object in the owner's own type, as [`MNum`] or [`PNum`].
pub trait Number: Copy {
    ghost number: { Self → ℕ };

    /// The number of object `x`.
    fn of(x: u32) -> Self
        ensures { number result ≡ x };

    /// The object's number as a plain one.
    fn get(self) -> u32
        ensures { result ≡ number self };
}

impl Number for MNum {
    ghost number = { λ m. m.0 };

    fn of(x: u32) -> MNum {
        MNum(x)
    }

    fn get(self) -> u32 {
        self.0
    }
}

impl Number for PNum {
    ghost number = { λ p. p.0 };

    fn of(x: u32) -> PNum {
        PNum(x)
    }

    fn get(self) -> u32 {
        self.0
    }
}
