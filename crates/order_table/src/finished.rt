// A finished order.

use crate::seats::Seat;
use std::marker::Model;

/// A finished order. Contracts see the view of a seat that knows all of it: of each role and of each caller the whole
/// list, with what is kept beside its entries.
#[derive(Drop)]
pub struct Linked {
    pub(crate) note: Seat,
}

impl Model for Linked {
    ghost use Rattle.order_table.specs.declared.views.View.{View};

    ghost Value = { View };

    ghost view = { λ l. l.note.view };
}
