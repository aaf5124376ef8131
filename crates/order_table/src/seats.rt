// Seats, and the name of the order that they belong to.

use crate::views::View;
use std::marker::{Brand, Model};

/// Names one order, and for how many managed and how many peer threads its run is, so that types behind a lock can keep
/// that their seats are those of the order beside the lock, and that they are for the run's threads. A run makes its
/// order first and then does all its work in a function that is generic over `N: OrderName` and that is called at
/// `Brand`.
pub trait OrderName {
    ghost use Rattle.std.specs.Prelude.{ℕ};
    ghost use Rattle.order_table.specs.Views.{OrderId};

    ghost order: { OrderId };

    ghost managed: { ℕ };

    ghost peers: { ℕ };
}

impl OrderName for Brand {
    ghost use Rattle.order_table.specs.Views.{no_order};

    ghost order = { no_order };

    ghost managed = { 0 };

    ghost peers = { 0 };
}

/// What a thread knows of an order, and what it may add. It takes no bytes, and contracts see which order it is of, and
/// its view.
#[derive(Drop)]
pub struct Seat {
    pub(crate) inner: atomic_table::Seat<(), View>,
}

impl Model for Seat {
    ghost use Rattle.std.specs.Prelude.{◌≡◌, []};
    ghost use Rattle.order_table.specs.Views.{Shown, IsCompared};

    ghost Value = { Shown };

    ghost view = { λ s. record { order = s.inner.table_id; view = s.inner.me.0 } };

    ghost invariant = { λ s. (s.inner.me.1 ≡ []) × IsCompared s.inner.me.0 };
}
