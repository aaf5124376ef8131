// Handles that no managed object holds, by the calls of both sides. One that was given up is a root of its peer until
// its release. One that was just gripped is a root until it is adopted, from when on its object holds it, or released.

ghost use Rattle.std.specs.Prelude.{◌≡◌, OnOk};
ghost use Rattle.joint_machine.specs.PeerReplay.{IsHeld, opening_peer_replay};
ghost use Rattle.peer_heap.specs.Sides.{opening_side, seen};
ghost use Rattle.side_tests.specs.Drives.{IsCounted};
ghost use Rattle.side_tests.specs.Loose.{with_grip};

use crate::managed;
use crate::managed::Call::{Adopt, Give, Lend, Meet, New};
use crate::mirrors::{is_still, is_tabled, make, makes};
use crate::peers::{Played, ends_with};
use joint_model::Reply::{self, Gone, H, M, P, Plain, Swept};
use joint_model::{
    Act, Counter, HNum, Holding, MNum, Marking, Op, PNum, Sort, Span, StaticNo, Thread, Var,
};
use peer_heap::PeerSide;
use std::alloc::{AllocError, Global};
use std::marker::Model;
use std::test::Fail;

const P1: Thread = Thread::P(1);

const M1: Thread = Thread::M(1);

// What is done, and what that answers.
type Row = (Call, Reply);

// Stretches of the list of freed peers: none, and the first.
const NONE: Span = Span { first: 0, count: 0 };

const ONE: Span = Span { first: 0, count: 1 };

// What is done to the sides, in short: there is one peer, and one handle on it.
#[derive(Clone, Copy)]
enum Call {
    // p1 empties the first static, and collects
    Empty,
    Collect,
    // m1 lands the handle in the first static, and releases it
    Land,
    Release,
    // m1 does this to the managed side
    Managed(managed::Call),
}

// A peer side with the count that numbers its entries. The first handle was issued as a held one.
#[derive(Drop)]
struct Driven {
    side: PeerSide,
    draw: Counter,
}

impl Model for Driven {
    ghost use Rattle.joint_machine.specs.PeerReplay.{PeerReplay, IsHeld};
    ghost use Rattle.peer_heap.specs.Sides.{seen};
    ghost use Rattle.side_tests.specs.Drives.{IsCounted};

    ghost Value = { PeerReplay };

    ghost view = { λ s. s.side.state };

    ghost invariant = { λ s. IsCounted (seen s.side) s.draw × IsHeld s.side.state 1 };
}

impl Driven {
    // The answer to a step that leaves the handles as they are; None where it is none.
    fn does(&mut self, caller: Thread, op: Op) -> Result<Option<Reply>, AllocError> {
        if !is_still(caller, &op) {
            return Ok(None);
        }
        let reply = self.side.step(&mut self.draw, caller, 1, &op, None)?;
        Ok(Some(reply))
    }

    // The answer to the handle's release; None where it isn't in the table.
    fn releases(&mut self) -> Result<Option<Reply>, AllocError> {
        if !is_tabled(&self.side, 1) {
            return Ok(None);
        }
        let op = Op::Release { h: HNum(1) };
        let reply = self.side.step(&mut self.draw, M1, 1, &op, None)?;
        Ok(Some(reply))
    }

    // The answer to a call, beside this managed side; None where it is none that may be made.
    fn answer(
        &mut self,
        alloc: Global,
        managed: &mut managed::Driven,
        call: Call,
    ) -> Result<Option<Reply>, AllocError> {
        let x = StaticNo(0);
        match call {
            Call::Empty => self.does(P1, Op::Line(Act::Store { x, v: None })),
            Call::Collect => self.does(P1, Op::Line(Act::Collect)),
            Call::Land => self.does(M1, Op::Land { h: HNum(1), x }),
            Call::Release => self.releases(),
            Call::Managed(call) => managed.answer(alloc, M1, call),
        }
    }

    // The place of the first row that is answered otherwise than it says; None where all are answered so.
    fn first_miss(
        &mut self,
        alloc: Global,
        managed: &mut managed::Driven,
        rows: &[Row],
    ) -> Result<Option<usize>, AllocError> {
        for i in 0..rows.len() {
            let (call, reply) = rows[i];
            if self.answer(alloc, managed, call)? != Some(reply) {
                return Ok(Some(i));
            }
        }
        Ok(None)
    }
}

// p1 makes a peer and puts it in the first static, and m1 grips it. Nothing else holds it.
fn grip(side: &mut PeerSide, draw: &mut Counter) -> Result<(), AllocError>
    requires { IsCounted (seen side.old) draw.old }
    ensures state { OnOk result (side.new.state ≡ with_grip side.old.state) }
    ensures counted { OnOk result (IsCounted (seen side.new) draw.new) }
{
    let (v, x) = (Var(0), StaticNo(0));
    makes(side, draw, P1, Op::Line(Act::NewPeer { v, fields: 0 }))?;
    makes(side, draw, P1, Op::Line(Act::Store { x, v: Some(v) }))?;
    makes(side, draw, P1, Op::Line(Act::Drop { v }))?;
    makes(side, draw, M1, Op::Grip { x })?;
    Ok(())
}

// m1 grips a peer, or makes one. It has the first handle.
fn begin(side: &mut PeerSide, draw: &mut Counter, gripped: bool) -> Result<(), AllocError>
    requires counted { IsCounted (seen side.old) draw.old }
    requires opening { side.old.state ≡ opening_peer_replay }
    ensures held { OnOk result (IsHeld side.new.state 1) }
    ensures counted { OnOk result (IsCounted (seen side.new) draw.new) }
{
    if gripped {
        grip(side, draw)
    } else {
        make(side, draw)
    }
}

// Makes the calls of a table on this new peer side, beside this managed side, where m1 has gripped a peer that stands
// in the first static, or made one. The place of the first row that is answered otherwise than it says; and the side,
// which goes on to its end.
fn play_on(
    alloc: Global,
    managed: &mut managed::Driven,
    mut side: PeerSide,
    gripped: bool,
    rows: &[Row],
) -> (Result<Option<usize>, AllocError>, PeerSide)
    requires { side ≡ opening_side 8 }
{
    let mut draw = Counter::new();
    match begin(&mut side, &mut draw, gripped) {
        Ok(()) => {
            let mut driven = Driven { side, draw };
            let miss = driven.first_miss(alloc, managed, rows);
            (miss, driven.side)
        }
        Err(failed) => (Err(failed), side),
    }
}

// The same on a new peer side, which should end with these freed peers.
fn play_beside(
    alloc: Global,
    managed: &mut managed::Driven,
    gripped: bool,
    rows: &[Row],
    freed: &[PNum],
) -> Result<Played, AllocError> {
    let side = PeerSide::new(alloc, 8, Holding::Every)?;
    let (miss, side) = play_on(alloc, managed, side, gripped, rows);
    let (entries, freed) = ends_with(side, freed);
    Ok(Played {
        miss: miss?,
        entries,
        freed,
    })
}

// Makes the calls of a table, where m1 has gripped a peer that stands in the first static, or made one. What its rows
// came to, and whether the managed side freed nothing.
fn play(
    alloc: Global,
    gripped: bool,
    rows: &[Row],
    freed: &[PNum],
) -> Result<(Played, bool), AllocError> {
    let mut managed = managed::start(alloc)?;
    let played = play_beside(alloc, &mut managed, gripped, rows, freed);
    let (_, still) = managed::ends_with(managed, &[], &[]);
    Ok((played?, still))
}

// A peer is made and adopted, and its object gives the handle up.
const GIVEN_UP: [Row; 8] = [
    (Call::Managed(New(7, 0)), M(MNum(1))),
    (Call::Managed(Adopt(0, 1, 1)), M(MNum(2))),
    (Call::Managed(Give(0)), H(HNum(1))),
    (Call::Collect, Swept(Marking(1), NONE)),
    (Call::Release, Reply::Ok),
    (Call::Collect, Swept(Marking(2), ONE)),
    (Call::Land, Gone),
    (Call::Managed(Give(0)), Plain),
];

// A handle that was lent holds its peer until it is landed, also where its object gives it up meanwhile; the static
// holds the peer from then on.
const LENT: [Row; 11] = [
    (Call::Managed(New(7, 0)), M(MNum(1))),
    (Call::Managed(Adopt(0, 1, 1)), M(MNum(2))),
    (Call::Managed(Lend(0, 0)), H(HNum(1))),
    (Call::Managed(Give(0)), H(HNum(1))),
    (Call::Collect, Swept(Marking(1), NONE)),
    (Call::Land, P(PNum(1))),
    (Call::Release, Reply::Ok),
    (Call::Collect, Swept(Marking(2), NONE)),
    (Call::Empty, Reply::Ok),
    (Call::Collect, Swept(Marking(3), ONE)),
    (Call::Land, Gone),
];

// A peer is gripped, its static is emptied, and the handle is released.
const RELEASED: [Row; 4] = [
    (Call::Empty, Reply::Ok),
    (Call::Collect, Swept(Marking(1), NONE)),
    (Call::Release, Reply::Ok),
    (Call::Collect, Swept(Marking(2), ONE)),
];

// A peer is gripped, its static is emptied, and a new twin takes the handle, holds the peer by it, and gives it up.
const TAKEN: [Row; 9] = [
    (Call::Empty, Reply::Ok),
    (Call::Managed(New(7, 0)), M(MNum(1))),
    (Call::Collect, Swept(Marking(1), NONE)),
    (
        Call::Managed(Meet(0, 1, Sort::Framework, 0)),
        Reply::New(MNum(2)),
    ),
    (Call::Collect, Swept(Marking(2), NONE)),
    (Call::Managed(Give(0)), H(HNum(1))),
    (Call::Collect, Swept(Marking(3), NONE)),
    (Call::Release, Reply::Ok),
    (Call::Collect, Swept(Marking(4), ONE)),
];

#[test]
fn a_handle_that_was_given_up_is_a_root_until_its_release(rt: HostRuntime) -> Result<(), Fail> {
    let freed = [PNum(1)];
    let (played, still) = play(rt.alloc(), false, GIVEN_UP.as_slice(), freed.as_slice())?;
    assert_eq!(rt; (played.miss, played.freed, still), (None, true, true));
    Ok(())
}

#[test]
fn a_handle_that_was_lent_is_a_root_until_its_release(rt: HostRuntime) -> Result<(), Fail> {
    let freed = [PNum(1)];
    let (played, still) = play(rt.alloc(), false, LENT.as_slice(), freed.as_slice())?;
    assert_eq!(rt; (played.miss, played.freed, still), (None, true, true));
    Ok(())
}

#[test]
fn a_handle_that_was_gripped_is_a_root_until_it_is_released(rt: HostRuntime) -> Result<(), Fail> {
    let freed = [PNum(1)];
    let (played, still) = play(rt.alloc(), true, RELEASED.as_slice(), freed.as_slice())?;
    assert_eq!(rt; (played.miss, played.freed, still), (None, true, true));
    Ok(())
}

#[test]
fn a_handle_that_was_gripped_is_held_by_the_twin_that_takes_it(
    rt: HostRuntime,
) -> Result<(), Fail> {
    let freed = [PNum(1)];
    let (played, still) = play(rt.alloc(), true, TAKEN.as_slice(), freed.as_slice())?;
    assert_eq!(rt; (played.miss, played.freed, still), (None, true, true));
    Ok(())
}
