// A side under its lock, and one step of it, which is made by the side's seat between the lending of a caller's lines
// and their giving back.

ghost use Rattle.std.specs.Prelude.{◌≡◌, ℕ};
ghost use Rattle.joint_machine.specs.Lines.{IsThread};
ghost use Rattle.order_table.specs.declared.views.View.{View};
ghost use Rattle.order_table.specs.Allowed.{Settled};
ghost use Rattle.order_table.specs.Views.{OrderId, Owns, Shown};
ghost use Rattle.joint_history.specs.Callers.{HoldsPass};
ghost use Rattle.joint_history.specs.Steps.{Fits, KnowsManaged, KnowsPeers};

use joint_model::Thread;
use managed_heap::ManagedSide;
use order_table::{Order, OrderName, Seat};
use peer_heap::PeerSide;
use seat_calls::{give_back, lend};
use std::marker::{Model, PhantomData};

/// A side of the bridge: the line of its list in the order, and what the seat that owns that line knows of it, in a run
/// with so many managed and so many peer threads.
pub trait Sided: Drop {
    ghost line: { ℕ };

    ghost knows: { ℕ → ℕ → View → Self → Type 0 };
}

impl Sided for ManagedSide {
    ghost line = { 0 };

    ghost knows = { λ managed peers. KnowsManaged managed };
}

impl Sided for PeerSide {
    ghost line = { 1 };

    ghost knows = { λ managed peers. KnowsPeers peers };
}

/// What a side does by its seat in one hold of its lock: what it asks of both, what it leaves in both, and what that
/// makes for the caller whose lines the seat is lent.
pub(crate) trait Step {
    type On;

    type Out;

    ghost asks: { Self → OrderId → Shown → Self.On → Type 0 };

    ghost drew: { Self → OrderId → Shown → Shown → Self.On → Self.On → Self.Out → Type 0 };

    ghost makes: { Self → View → View → Self.Out → Type 0 };

    fn draw(self, side: &mut Self::On, order: &Order, seat: &mut Seat) -> Self::Out
        requires asks { asks self order.now seat.old side.old }
        requires settled { Settled seat.old.view }
        ensures settled { Settled seat.new.view }
        ensures drew { drew self order.now seat.old seat.new side.old side.new result };
}

/// A side under its lock, with the seat that owns its line. The seat knows a past, whose entries of that line are the
/// side's list and at whose end the side is as this one; and the side is for as many threads as the run has. On the
/// peer side no reference waits, and what a mirrored cycle will weaken and mark is reserved.
#[derive(Drop)]
pub struct Locked<N: OrderName, S: Sided> {
    pub(crate) side: S,
    pub(crate) seat: Seat,
    of: PhantomData<N>,
}

impl<N: OrderName, S: Sided> Model for Locked<N, S> {
    ghost use Rattle.std.specs.Prelude.{◌≡◌};
    ghost use Rattle.order_table.specs.Allowed.{Settled};
    ghost use Rattle.order_table.specs.Views.{Owns};
    ghost use Rattle.joint_history.specs.Locked.{Under};

    ghost Value = { Under S };

    ghost view = { λ l. record { side = l.side; view = l.seat.view } };

    ghost invariant = { λ l. (l.seat.order ≡ N.order) × Owns l.seat.view S.line
        × S.knows N.managed N.peers l.seat.view l.side × Settled l.seat.view };
}

impl<N: OrderName, S: Sided> Locked<N, S> {
    /// A side with a seat that owns its line and knows it.
    pub(crate) fn new(side: S, seat: Seat) -> Locked<N, S>
        requires seat { (seat.order ≡ N.order) × Owns seat.view S.line × Settled seat.view }
        requires knows { S.knows N.managed N.peers seat.view side }
    {
        Locked {
            side,
            seat,
            of: PhantomData,
        }
    }

    /// The side and its seat.
    pub(crate) fn into_parts(self) -> (S, Seat)
        ensures seat { (result.1.order ≡ N.order) × Owns result.1.view S.line × Settled result.1.view }
        ensures knows { S.knows N.managed N.peers result.1.view result.0 }
    {
        let Locked { side, seat, of: _ } = self;
        (side, seat)
    }

    /// Makes a step of the side by its seat, to which the caller's lines are lent meanwhile. `mine` is the caller's
    /// seat, which knows then what the side's does. Answers what the step answers.
    #[inline(always)]
    pub(crate) fn make<T: Step<On = S>>(
        &mut self,
        order: &Order,
        mine: &mut Seat,
        caller: Thread,
        step: T,
    ) -> T::Out
        requires order { (order.now ≡ N.order) × (mine.old.order ≡ N.order) }
        requires settled { Settled mine.old.view }
        requires pass { IsThread caller × HoldsPass caller mine.old.view }
        requires fits { Fits S.line (S.knows N.managed N.peers) caller mine.old.view
            (T.asks step) (T.drew step) (T.makes step) }
        ensures order { mine.new.order ≡ N.order }
        ensures settled { Settled mine.new.view }
        ensures pass { HoldsPass caller mine.new.view }
        ensures makes { T.makes step mine.old.view mine.new.view result }
    {
        lend(order, &mut self.seat, mine, caller);
        let out = step.draw(&mut self.side, order, &mut self.seat);
        give_back(order, &mut self.seat, mine, caller);
        out
    }
}
