// A cycle in one of whose gaps a peer thread collects its heap.

ghost use Rattle.std.specs.Prelude.{◌≡◌, ◌≤◌, IfSome};
ghost use Rattle.joint_machine.specs.Lines.{IsLine};
ghost use Rattle.joint_machine.specs.declared.names.Thread.TheVariants.{M, P};
ghost use Rattle.order_table.specs.Allowed.{Settled};
ghost use Rattle.order_table.specs.Views.{OwnsAll};
ghost use Rattle.joint_history.specs.Callers.{KnowsNothing, last_index, own};
ghost use Rattle.bridge_cycle.specs.Progress.{line_of};

use crate::runs::{DrivenBridge, start};
use bridge_cycle::{Driver, Gap, run_gap};
use joint_history::{Alone, Caller, Receipt, Shared};
use joint_model::{Act, Cell, GName, Kind, Marking, Phase, Reply, Sort, Span, StaticNo, Var};
use order_table::{Order, OrderName, Seat};
use std::alloc::{AllocError, Global};
use std::marker::{Brand, Model};
use std::sync::Wait;
use std::test::Fail;

// Collects the peer heap by p1 in the gap behind a phase. It keeps how many gaps it had, and what the collection
// answered.
#[derive(Drop)]
struct CollectsBehind<'a, N: OrderName, R: Wait> {
    rt: &'a R,
    two: Caller<N>,
    phase: Phase,
    gaps: u8,
    answer: Result<Option<Reply>, AllocError>,
}

impl<'a, N: OrderName, R: Wait> Model for CollectsBehind<'a, N, R> {
    ghost use Rattle.std.specs.Prelude.{◌≡◌, ◌≤◌, ℕ};
    ghost use Rattle.joint_machine.specs.declared.names.Thread.TheVariants.{P};
    ghost use Rattle.joint_history.specs.Callers.{last_index, own};

    ghost Value = { ℕ };

    ghost view = { λ s. s.gaps };

    ghost invariant = { λ s. (s.two.thread ≡ P 1) × (last_index (own s.two) ≤ 1) };
}

impl<'a, N: OrderName, R: Wait> Gap<N, Alone> for CollectsBehind<'a, N, R> {
    ghost count = { λ s. s };

    fn gap(&mut self, driver: &Driver<N>, shared: &Shared<N, Alone>) {
        self.gaps += 1;
        if driver.phase() == self.phase {
            self.answer = match shared.peer(self.rt, &mut self.two, 1, &Act::Collect) {
                Ok(receipt) => Ok(Some(receipt.reply)),
                Err(fault) => Err(fault),
            };
        }
    }
}

// What p1 does at a place; None where the place is m1's. It gives the first object's peer a weak name, and lets it go.
fn peer_act(place: u8) -> Option<Act>
    ensures { IfSome result (λ a. IsLine (P 1) a) }
{
    let (v, x) = (Var(0), StaticNo(0));
    match place {
        5 => Some(Act::Load { v, x }),
        6 => Some(Act::WGlobal { g: GName(0), v }),
        7 => Some(Act::Drop { v }),
        8 => Some(Act::Store { x, v: None }),
        _ => None,
    }
}

// What m1 does at another place. It makes two objects with a peer each, of which the first leads to the second, sets
// the cell to that one, passes the first one's peer to p1, and lets both go.
fn managed_act(place: u8) -> Act
    ensures { IsLine (M 1) result }
{
    let (a, b) = (Var(0), Var(1));
    match place {
        0 | 1 => Act::Bridge {
            v: if place == 0 { a } else { b },
            kind: Kind::Bridge,
            fields: 1,
            sort: Sort::User,
            peer_fields: 0,
        },
        2 => Act::Set {
            v: a,
            i: 0,
            w: Some(b),
        },
        3 => Act::Weak { k: Cell(0), v: b },
        4 => Act::Pass {
            v: a,
            x: StaticNo(0),
        },
        9 => Act::Drop { v: a },
        _ => Act::Drop { v: b },
    }
}

// Makes what comes at a place, on the first line.
fn make_line<N: OrderName>(
    rt: &impl Wait,
    shared: &Shared<N, Alone>,
    one: &mut Caller<N>,
    two: &mut Caller<N>,
    place: u8,
) -> Result<Receipt, AllocError>
    requires threads { (one.old.thread ≡ M 1) × (two.old.thread ≡ P 1) }
    requires lines { (last_index (own one.old) ≤ 1) × (last_index (own two.old) ≤ 1) }
    ensures threads { (one.new.thread ≡ M 1) × (two.new.thread ≡ P 1) }
    ensures lines { (last_index (own one.new) ≤ 1) × (last_index (own two.new) ≤ 1) }
{
    match peer_act(place) {
        Some(act) => shared.peer(rt, two, 1, &act),
        None => shared.managed(rt, one, 1, &managed_act(place)),
    }
}

// Makes all that comes before the cycle.
fn make_lines<N: OrderName>(
    rt: &impl Wait,
    shared: &Shared<N, Alone>,
    one: &mut Caller<N>,
    two: &mut Caller<N>,
) -> Result<(), AllocError>
    requires threads { (one.old.thread ≡ M 1) × (two.old.thread ≡ P 1) }
    requires lines { (last_index (own one.old) ≤ 1) × (last_index (own two.old) ≤ 1) }
    ensures threads { (one.new.thread ≡ M 1) × (two.new.thread ≡ P 1) }
    ensures lines { (last_index (own one.new) ≤ 1) × (last_index (own two.new) ≤ 1) }
{
    for place in 0..11u8 {
        make_line(rt, shared, one, two, place)?;
    }
    Ok(())
}

// What is seen of a run: how many gaps there were, what the collection answered, and then a read of the cell and the
// notices.
type Seen = (u8, Option<Reply>, Reply, Reply);

// A cycle with its gaps, behind the lines that come before it.
fn run_with_gaps<N: OrderName, R: Wait>(
    rt: &R,
    alloc: Global,
    shared: &Shared<N, Alone>,
    one: &mut Caller<N>,
    driver: &mut Driver<N>,
    between: &mut CollectsBehind<'_, N, R>,
) -> Result<Seen, AllocError>
    requires one { (one.old.thread ≡ M 1) × (last_index (own one.old) ≤ 1) }
    requires driver { line_of driver.old ≤ 1 }
    requires gaps { between.old ≡ 0 }
{
    make_lines(rt, shared, one, &mut between.two)?;
    if run_gap(rt, alloc, driver, shared, 1, between).is_err() {
        return Err(AllocError);
    }
    let answer = between.answer?;
    let read = shared.managed(rt, one, 1, &Act::Read { k: Cell(0) })?;
    let taken = driver.line(rt, alloc, shared, 1, &Act::Finalise { n: 9 })?;
    Ok((between.gaps, answer, read.reply, taken))
}

// The same on a new bridge, with a collection behind a phase; None where the desk lacks a caller.
fn seen_of<N: OrderName, R: Wait>(
    rt: &R,
    alloc: Global,
    order: Order,
    seat: Seat,
    phase: Phase,
) -> Result<Option<Seen>, AllocError>
    requires order { order ≡ N.order }
    requires run { (N.managed ≡ 1) × (N.peers ≡ 1) }
    requires seat { (seat.order ≡ N.order) × OwnsAll seat.view × KnowsNothing seat.view × Settled seat.view }
{
    let Some(driven) = start::<N>(alloc, order, seat)? else {
        return Ok(None);
    };
    let DrivenBridge {
        shared,
        desk,
        mut one,
        two,
        mut driver,
    } = driven;
    drop(desk);
    let mut between = CollectsBehind {
        rt,
        two,
        phase,
        gaps: 0,
        answer: Ok(None),
    };
    let seen = run_with_gaps(rt, alloc, &shared, &mut one, &mut driver, &mut between);
    drop(between);
    drop(driver);
    drop(one);
    drop(shared);
    Ok(Some(seen?))
}

// The same, with a new order.
fn play<R: Wait>(rt: &R, alloc: Global, phase: Phase) -> Result<Option<Seen>, AllocError> {
    let (order, seat) = Order::new(alloc, 1)?;
    seen_of::<Brand, R>(rt, alloc, order, seat, phase)
}

// The phase behind which p1 collects, and what that answers. As long as both handles are strong a collection frees
// nothing; once they are weak it frees both peers, and the cycle none; while the cycle marks it is refused; and later
// nothing is left.
const COLLECTIONS: [(Phase, Reply); 7] = [
    (
        Phase::Snapped,
        Reply::Swept(Marking(1), Span { first: 0, count: 0 }),
    ),
    (
        Phase::Contracted,
        Reply::Swept(Marking(1), Span { first: 0, count: 0 }),
    ),
    (
        Phase::Mirrored,
        Reply::Swept(Marking(1), Span { first: 0, count: 0 }),
    ),
    (
        Phase::Weakened,
        Reply::Swept(Marking(1), Span { first: 0, count: 2 }),
    ),
    (Phase::Marked, Reply::MarkOpen(Marking(1))),
    (
        Phase::Swept,
        Reply::Swept(Marking(2), Span { first: 2, count: 0 }),
    ),
    (
        Phase::Restored,
        Reply::Swept(Marking(2), Span { first: 2, count: 0 }),
    ),
];

// Whatever the gap, the cycle frees both objects.
#[test]
fn a_peer_thread_collects_in_each_gap_of_a_cycle(rt: HostRuntime) -> Result<(), Fail> {
    let notices = Reply::Took(Span { first: 0, count: 2 });
    for (phase, reply) in &COLLECTIONS {
        let seen = play(&rt, rt.alloc(), *phase)?;
        assert_eq!(rt; seen, Some((7, Some(*reply), Reply::Gone, notices)));
    }
    Ok(())
}
