// Two sides draw numbers from one order at the same time, which is the most that may: each list has one owner. What the
// contracts promise of the numbers is looked at in the program as it runs.

ghost use Rattle.std.specs.Prelude.{◌≡◌, ◌⊎◌, ◌<◌, [], None};
ghost use Rattle.joint_machine.specs.declared.events.Op.TheVariants as op;
ghost use Rattle.joint_machine.specs.Lines.{IsThread};
ghost use Rattle.joint_machine.specs.HistoryLines.{caller_line};
ghost use Rattle.order_table.specs.Views.{IsRole, IsInRole, role_line, known, Owns, OwnsAll, first_view};
ghost use Rattle.order_table.specs.Allowed.{Settled};

use joint_machine::{Made, Op, Reply, Thread, Var};
use order_table::{Order, OrderName, Role, Seat};
use std::alloc::{AllocError, Global};
use std::marker::{Brand, Model, PhantomData};
use std::test::Fail;
use std::thread::{self, Threads};

// The entries of one side, and the sum of all numbers of both.
const APPENDS: u32 = 1_000_000;

const SUM: u64 = 1_999_999_000_000;

// An event that belongs in the managed or the peer side's list, by any thread.
fn made_by(role: Role, caller: Thread) -> Made
    requires side { IsRole role × (role_line role < 2) }
    ensures stands { IsInRole (role_line role) result }
    ensures caller { result.caller ≡ caller }
    ensures op { (result.op ≡ op.Give record { 0 = 0 }) ⊎ (result.op ≡ op.Begin) }
{
    let op = match role {
        Role::Managed => Op::Give { v: Var(0) },
        Role::Peer => Op::Begin,
        Role::Reader(_) => unreachable!(),
    };
    Made {
        caller,
        index: 1,
        op,
        reply: Reply::Ok,
        cites: None,
    }
}

// The order that contracts know by its name.
#[derive(Drop)]
struct NamedOrder<N: OrderName> {
    order: Order,
    of: PhantomData<N>,
    ghost named: { order ≡ N.order },
}

// A side's seat, which owns its role and holds the pass of its caller; how many numbers it drew, their sum, the one
// above the last, and whether they rose.
#[derive(Drop)]
struct Side<N: OrderName> {
    role: Role,
    caller: Thread,
    seat: Seat,
    drawn: u32,
    sum: u64,
    next: u64,
    rises: bool,
    of: PhantomData<N>,
}

impl<N: OrderName> Model for Side<N> {
    ghost use Rattle.std.specs.Prelude.{◌≡◌, ◌<◌, length};
    ghost use Rattle.joint_machine.specs.Lines.{IsThread};
    ghost use Rattle.order_table.specs.declared.views.Role.{Role};
    ghost use Rattle.joint_machine.specs.HistoryLines.{caller_line};
    ghost use Rattle.order_table.specs.Views.{IsRole, Owns, known, role_line};
    ghost use Rattle.order_table.specs.Allowed.{Settled};

    ghost Value = { Role };

    ghost view = { λ s. s.role };

    ghost invariant = { λ s. IsRole s.role × (role_line s.role < 2) × IsThread s.caller
        × (s.seat.order ≡ N.order) × Settled s.seat.view × Owns s.seat.view (role_line s.role)
        × Owns s.seat.view (caller_line s.caller) × (length (known s.seat.view (role_line s.role)) ≡ s.drawn) };
}

impl<N: OrderName> Side<N> {
    fn new(role: Role, caller: Thread, seat: Seat) -> Side<N>
        requires role { IsRole role × (role_line role < 2) × IsThread caller }
        requires seat { (seat.order ≡ N.order) × Settled seat.view × Owns seat.view (role_line role)
            × Owns seat.view (caller_line caller) × (known seat.view (role_line role) ≡ []) }
    {
        Side {
            role,
            caller,
            seat,
            drawn: 0,
            sum: 0,
            next: 0,
            rises: true,
            of: PhantomData,
        }
    }

    // One entry of the side's caller.
    fn draw(&mut self, named: &NamedOrder<N>) {
        if self.drawn >= APPENDS {
            return;
        }
        let made = made_by(self.role, self.caller);
        let number = named
            .order
            .append(&mut self.seat, self.role, &made, None, &[]);
        self.drawn += 1;
        self.sum = self.sum.wrapping_add(number);
        self.rises = self.rises && number >= self.next;
        self.next = number.wrapping_add(1);
    }

    // All its entries.
    fn draw_all(&mut self, named: &NamedOrder<N>) {
        for _ in 0..APPENDS {
            self.draw(named);
        }
    }
}

// Each side with a caller of its own.
fn sides_of<N: OrderName>(
    alloc: Global,
    order: &Order,
    mut seat: Seat,
) -> Result<Vec<Side<N>>, AllocError>
    requires order { order.now ≡ N.order }
    requires seat { (seat.order ≡ N.order) × (seat.view ≡ first_view) }
    requires all { OwnsAll seat.view }
    requires settled { Settled seat.view }
{
    let mut sides = Vec::with_capacity(alloc, 2)?;
    let mut peer = order.share(&mut seat, Role::Peer);
    let pass = order.hand(&mut seat, Thread::P(8));
    order.learn(&mut peer, pass);
    sides.push_reserved(Side::new(Role::Managed, Thread::M(1), seat));
    sides.push_reserved(Side::new(Role::Peer, Thread::P(8), peer));
    Ok(sides)
}

// Each side makes its entries on a thread of its own.
fn draw_on_threads<N: OrderName + Send + Sync, R: Threads + Sync>(
    rt: &R,
    named: &NamedOrder<N>,
    sides: Vec<Side<N>>,
) -> Result<Vec<Side<N>>, AllocError> {
    thread::map_vec(
        rt,
        sides,
        &|mut side: Side<N>| -> Side<N> {
            side.draw_all(named);
            side
        },
    )
}

// Whether each side's numbers rose, and both sides together drew each number once: their sum is that of the first so
// many, and where a counter from nought on gives one twice, it is less.
fn are_right<N: OrderName>(sides: &[Side<N>]) -> bool {
    let mut sum = 0u64;
    for side in sides {
        if !side.rises {
            return false;
        }
        sum = sum.wrapping_add(side.sum);
    }
    sum == SUM
}

fn run<N: OrderName + Send + Sync, R: Threads + Sync>(
    rt: &R,
    alloc: Global,
    order: Order,
    seat: Seat,
) -> Result<bool, AllocError>
    requires order { order ≡ N.order }
    requires seat { (seat.order ≡ N.order) × (seat.view ≡ first_view) }
    requires all { OwnsAll seat.view }
    requires settled { Settled seat.view }
{
    let sides = sides_of::<N>(alloc, &order, seat)?;
    let named = NamedOrder {
        order,
        of: PhantomData,
    };
    let drawn = draw_on_threads(rt, &named, sides);
    drop(named);
    Ok(are_right(drawn?.as_slice()))
}

#[test]
fn two_sides_draw_each_number_once(rt: HostRuntime) -> Result<(), Fail> {
    let (order, seat) = Order::new(rt.alloc(), 8)?;
    assert!(rt; run::<Brand, _>(&rt, rt.alloc(), order, seat)?);
    Ok(())
}

#[test]
fn an_order_is_finished(rt: HostRuntime) -> Result<(), Fail> {
    let (order, mut seat) = Order::new(rt.alloc(), 1)?;
    let note = order.note(&mut seat);
    let made = made_by(Role::Peer, Thread::P(2));
    let first = order.append(&mut seat, Role::Peer, &made, None, &[]);
    order.learn(&mut seat, note);
    let _ = order.finish(seat);
    assert_eq!(rt; first, 0);
    Ok(())
}
