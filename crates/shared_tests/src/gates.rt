// Two readers that are inside the gate at one time while the owner of the managed list tries to close it, on three
// threads: that they overlap is seen, since each waits for the others.

ghost use Rattle.std.specs.Prelude.{◌≡◌, ◌+◌, ◌<◌, All, IfOk};
ghost use Rattle.order_table.specs.Allowed.{Settled};
ghost use Rattle.order_table.specs.Views.{IsNext, Owns, first_view};
ghost use Rattle.shared_tests.specs.Visitors.{IsVisitor};

use joint_model::{Cycle, Thread};
use order_table::{Order, Seat};
use std::alloc::{AllocError, Global};
use std::sync::atomic::{AtomicU64, Ordering};
use std::test::Fail;
use std::thread::{self, Threads, yield_now};

// How often a thread looks whether another one has come so far, before it goes on without it.
const LOOKS: u32 = 20_000_000;

// The order, with how many readers are inside, and whether a closing was tried.
#[derive(Drop)]
struct Doors {
    order: Order,
    inside: AtomicU64,
    tried: AtomicU64,
}

// Waits until the count has come so far.
fn wait_for(count: &AtomicU64, wanted: u64) {
    for _ in 0..LOOKS {
        if count.load(Ordering::SeqCst) >= wanted {
            return;
        }
        yield_now();
    }
}

// A reader goes inside and stays until a closing was tried. Answers 1 if it was inside.
fn stay(doors: &Doors, mut seat: Seat, reader: u8) -> u32
    requires seat { (seat.order ≡ doors.now.order) × Settled seat.view }
    requires reader { (0 < reader) × (reader < 9) × Owns seat.view (1 + reader) }
{
    let Ok(()) = doors.order.enter(&mut seat, reader) else {
        drop(seat);
        return 0;
    };
    doors.inside.fetch_add(1, Ordering::SeqCst);
    wait_for(&doors.tried, 1);
    doors.order.leave(&mut seat, reader);
    drop(seat);
    1
}

// Tries to close the gate once both readers are inside. Answers how many readers' bits refused it; 0 if none did.
fn close(doors: &Doors, mut seat: Seat) -> u32
    requires seat { seat.order ≡ doors.now.order }
    requires owner { Owns seat.view 0 × (seat.view.holds ≡ 0) × IsNext seat.view 1 }
{
    wait_for(&doors.inside, 2);
    let tried = doors.order.try_close_gate(&mut seat, Cycle(1));
    doors.tried.store(1, Ordering::SeqCst);
    drop(seat);
    match tried {
        Ok(()) => 0,
        Err(readers) => readers.count,
    }
}

// Who comes to the gate: a reader by its number, or with the number 0 the owner of the managed list.
#[derive(Drop)]
struct Visitor {
    reader: u8,
    seat: Seat,
}

impl Visitor {
    fn visit(self, doors: &Doors) -> u32
        requires { IsVisitor doors.now.order self.reader self.seat }
    {
        let Visitor { reader, seat } = self;
        if reader == 0 {
            close(doors, seat)
        } else {
            stay(doors, seat, reader)
        }
    }
}

// The owner of the managed list, and two readers.
fn visitors_of(alloc: Global, order: &Order, seat: Seat) -> Result<Vec<Visitor>, AllocError>
    requires seat { (seat.order ≡ order.now) × (seat.view ≡ first_view) × Settled seat.view }
    ensures { IfOk result (λ v. All (λ w. IsVisitor order.now w.reader w.seat) v.items) }
{
    let mut owner = seat;
    let one = order.hand(&mut owner, Thread::M(1));
    let two = order.hand(&mut owner, Thread::M(2));
    let visitors = vec![in alloc;
        Visitor {
            reader: 0,
            seat: owner
        },
        Visitor {
            reader: 1,
            seat: one
        },
        Visitor {
            reader: 2,
            seat: two
        },
    ]?;
    Ok(visitors)
}

// What each of them saw, on a thread of its own.
fn visit_all<R: Threads + Sync>(
    rt: &R,
    doors: &Doors,
    visitors: Vec<Visitor>,
) -> Result<Vec<u32>, AllocError>
    requires { All (λ w. IsVisitor doors.now.order w.reader w.seat) visitors.items }
{
    thread::map_vec(
        rt,
        visitors,
        &|visitor: Visitor| -> u32
            requires { IsVisitor doors.now.order visitor.reader visitor.seat }
        { visitor.visit(doors) },
    )
}

fn run<R: Threads + Sync>(rt: &R, alloc: Global) -> Result<Vec<u32>, AllocError> {
    let (order, seat) = Order::new(alloc, 2)?;
    let visitors = visitors_of(alloc, &order, seat)?;
    let doors = Doors {
        order,
        inside: AtomicU64::new(0),
        tried: AtomicU64::new(0),
    };
    let seen = visit_all(rt, &doors, visitors);
    drop(doors);
    seen
}

#[test]
fn two_readers_are_inside_while_a_closing_is_refused(rt: HostRuntime) -> Result<(), Fail> {
    let seen = run(&rt, rt.alloc())?;
    assert_eq!(rt; seen.as_slice(), [2, 1, 1].as_slice());
    Ok(())
}
