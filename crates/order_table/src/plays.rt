// What each atomic step does to a seat's view and tells its caller. These types are for the proofs alone.

ghost use Rattle.std.specs.Prelude.{◌≡◌, ℕ, List, [], Bool, Option, None};
ghost use Rattle.joint_machine.specs.declared.names.MNum.{MNum};
ghost use Rattle.joint_machine.specs.declared.names.Thread.TheVariants.{C};
ghost use Rattle.joint_machine.specs.declared.events.Made.{Made};
ghost use Rattle.joint_machine.specs.declared.events.Op.TheVariants as op;
ghost use Rattle.joint_machine.specs.declared.events.Reply.TheVariants as says;
ghost use Rattle.order_table.specs.Views.{first_view, giving, given, hearing, lines_of_none, spent_view};
ghost use Rattle.order_table.specs.Rule.{Ordered};
ghost use Rattle.order_table.specs.Tells.{Appended, Compared, Entered, GaveBack, Left, Closed, Opened, LoadedCell};
ghost use Rattle.order_table.specs.Tells.{StoredCell, LoadedPin, StoredPin};

use crate::views::View;
use atomic_table::{Join, Play, Split, TableRule};
use std::marker::{Brand, PhantomData};

/// The order's rule, which holds between any two steps.
pub struct Sequence;

impl TableRule<(), View, ()> for Sequence {
    ghost holds = { λ _. Ordered };

    ghost first = { λ _. first_view };
}

/// What an append writes, for the proof alone. A call at `Brand` picks it.
pub(crate) trait Saying {
    ghost role: { ℕ };

    ghost made: { Made };

    ghost target: { Option MNum };

    ghost freed: { List MNum };
}

impl Saying for Brand {
    ghost role = { 0 };

    ghost made = { record { caller = C; index = 0; op = op.Begin; reply = says.Ok; cites = None } };

    ghost target = { None };

    ghost freed = { [] };
}

/// The step that makes an entry.
pub(crate) struct Append<W> {
    saying: PhantomData<W>,
}

impl<W: Saying> Play<(), View> for Append<W> {
    ghost then = { Appended W.role W.made W.target W.freed };
}

/// Which lines a split hands over, for the proof alone.
pub(crate) trait Lines {
    ghost lines: { List Bool };
}

impl Lines for Brand {
    ghost lines = { [] };
}

/// A note hands over no line.
pub(crate) struct NoLine;

impl Lines for NoLine {
    ghost lines = { lines_of_none };
}

/// The step that makes a seat with some of another's lines.
pub(crate) struct Cut<W> {
    lines: PhantomData<W>,
}

impl<W: Lines> Split<View> for Cut<W> {
    ghost left = { giving W.lines };

    ghost right = { given W.lines };
}

/// The step that takes a seat in.
pub(crate) struct Glue;

impl Join<View> for Glue {
    ghost both = { hearing };

    ghost spent = { spent_view };
}

/// The step that compares what two seats knew.
pub(crate) struct Compare;

impl Play<(), View> for Compare {
    ghost then = { Compared };
}

/// The step of a reader that goes inside, or finds the gate held.
pub(crate) struct Enter;

impl Play<(), View> for Enter {
    ghost then = { Entered };
}

/// The step that takes the bit back which was put in while the gate was held.
pub(crate) struct GiveBack;

impl Play<(), View> for GiveBack {
    ghost then = { GaveBack };
}

/// The step of a reader that goes outside.
pub(crate) struct Leave;

impl Play<(), View> for Leave {
    ghost then = { Left };
}

/// For which cycle a gate is closed, for the proof alone.
pub(crate) trait Closing {
    ghost cycle: { ℕ };
}

impl Closing for Brand {
    ghost cycle = { 0 };
}

/// The step that closes the gate where no reader's bit is in the word.
pub(crate) struct Close<W> {
    closing: PhantomData<W>,
}

impl<W: Closing> Play<(), View> for Close<W> {
    ghost then = { Closed W.cycle };
}

/// The step that opens the gate.
pub(crate) struct Open;

impl Play<(), View> for Open {
    ghost then = { Opened };
}

/// The load of a cell's word.
pub(crate) struct LoadCell;

impl Play<(), View> for LoadCell {
    ghost then = { LoadedCell };
}

/// The store of a cell's word.
pub(crate) struct StoreCell;

impl Play<(), View> for StoreCell {
    ghost then = { StoredCell };
}

/// The load of a pin's word.
pub(crate) struct LoadPin;

impl Play<(), View> for LoadPin {
    ghost then = { LoadedPin };
}

/// The store of a pin's word, where it is filled and where it is emptied.
pub(crate) struct StorePin;

impl Play<(), View> for StorePin {
    ghost then = { StoredPin };
}
