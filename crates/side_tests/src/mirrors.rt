// Plays a mirrored cycle on a peer side, by its calls: two peers, each under a handle of m1's making, whose managed
// objects lead to one another.

ghost use Rattle.std.specs.Prelude.{◌≡◌, ◌&&◌, [], ◌∷◌, IfOk, IsTrue, None, OnOk, Some};
ghost use Rattle.joint_machine.specs.PeerReplay.{TableRow, peer_answer, row_of};
ghost use Rattle.joint_machine.specs.Told.{nothing};
ghost use Rattle.peer_heap.specs.Makings.{IsSideStep};
ghost use Rattle.peer_heap.specs.Mirroring.{strong_row};
ghost use Rattle.peer_heap.specs.Sides.{opening_side, seen};
ghost use Rattle.global_handles.specs.Rows.{is_alive};
ghost use Rattle.side_tests.specs.Circles.{circle, is_given, nodes, with_pair, IsPlainOp, IsStillOp};
ghost use Rattle.side_tests.specs.Drives.{IsCounted};

use crate::peers::{Played, ends_with};
use bridge_graph::{DeadGraph, GraphBuilder};
use global_handles::{Back, Strength};
use handle_weaken::{restore_all, restore_one, weaken_all, weaken_one};
use joint_model::Reply::{self, Cleared, Mark, MarkOpen, NoMark, P, Refs, Swept};
use joint_model::{
    Act, Alive, Counter, Cycle, HNum, Holding, MNum, Op, PNum, Sort, StaticNo, Thread,
};
use peer_heap::{BeginFault, PeerSide};
use peer_mirror::{clear, install};
use std::alloc::{AllocError, Global};
use std::marker::Model;
use xref_list::{Components, ComponentsBuilder, ListingFault};

/// What is done, and what that answers.
pub type Row = (Call, Reply);

/// What is done to a side, in short.
#[derive(Clone, Copy)]
pub enum Call {
    // the circle is mirrored, and its references go
    Install,
    Clear,
    // the next handle is weakened, and restored; and both are
    Weaken,
    WeakenAll,
    Restore,
    RestoreAll,
    // the driver's begin and sweep
    MarkBegin,
    MarkSweep,
    // m1 lands the first handle in the first static; p1 empties it, and collects
    Land,
    Empty,
    Collect,
    // a look at how many references stand
    References,
}

impl Call {
    // The operation of a step in full; None where it is another call.
    fn op(self) -> Option<(Thread, Op)> {
        let x = StaticNo(0);
        match self {
            Call::Land => Some((Thread::M(1), Op::Land { h: HNum(1), x })),
            Call::Empty => Some((Thread::P(1), Op::Line(Act::Store { x, v: None }))),
            Call::Collect => Some((Thread::P(1), Op::Line(Act::Collect))),
            _ => None,
        }
    }
}

// A side with the count that numbers its entries; whether its cycle was mirrored, whether its references stand, and
// whether each restore so far gave a handle; and how many of its handles it has weakened, and restored.
#[derive(Drop)]
struct Driven {
    side: PeerSide,
    draw: Counter,
    mirrored: bool,
    standing: bool,
    kept: bool,
    weak: u32,
    back: u32,
}

impl Model for Driven {
    ghost use Rattle.joint_machine.specs.PeerReplay.{PeerReplay};
    ghost use Rattle.side_tests.specs.Circles.{IsCircle};

    ghost Value = { PeerReplay };

    ghost view = { λ s. s.side.state };

    ghost invariant = { λ s. IsCircle s.side s.draw s.mirrored s.standing s.kept s.weak s.back };
}

impl Driven {
    // The circle is mirrored; None where it was, or a handle isn't strong.
    fn installs(&mut self, alloc: Global) -> Result<Option<Reply>, AllocError> {
        if self.mirrored || !is_strong(&self.side, 1) || !is_strong(&self.side, 2) {
            return Ok(None);
        }
        let graph = two_nodes(alloc)?;
        let comps = one_component(alloc)?;
        let refs = install(
            &mut self.side,
            &mut self.draw,
            2,
            Cycle(1),
            0,
            &graph,
            &comps,
        )?;
        self.mirrored = true;
        self.standing = true;
        self.kept = true;
        self.weak = 0;
        self.back = 0;
        Ok(Some(Refs(refs)))
    }

    // The next handle is weakened; None where it isn't its turn, or it isn't strong.
    fn weakens(&mut self) -> Option<Reply> {
        let h = self.weak + 1;
        if !self.standing || h > 2 || !is_strong(&self.side, h) {
            return None;
        }
        weaken_one(&mut self.side, &mut self.draw, 3, 0, HNum(h));
        self.weak = h;
        Some(Reply::Ok)
    }

    // Both handles are weakened; None where it isn't their turn, or one isn't strong.
    fn weakens_all(&mut self, alloc: Global) -> Result<Option<Reply>, AllocError> {
        if !self.standing || self.weak != 0 {
            return Ok(None);
        }
        if !is_strong(&self.side, 1) || !is_strong(&self.side, 2) {
            return Ok(None);
        }
        let graph = two_nodes(alloc)?;
        weaken_all(&mut self.side, &mut self.draw, 3, 0, &graph);
        self.weak = 2;
        Ok(Some(Reply::Ok))
    }

    // The next handle is restored; None where it isn't its turn, or it isn't in the table.
    fn restores(&mut self) -> Option<Reply> {
        let h = self.back + 1;
        if !self.standing || h > self.weak || !is_tabled(&self.side, h) {
            return None;
        }
        let back = restore_one(&mut self.side, &mut self.draw, 4, HNum(h));
        self.back = h;
        self.kept = keeps(self.kept, back);
        Some(match back {
            Back::Alive { h } => Reply::Renewed(h),
            Back::Cleared => Cleared,
        })
    }

    // Both handles are restored, and the second answer is told; None where it isn't their turn, one isn't in the table,
    // or one answer alone gave a handle.
    fn restores_all(&mut self, alloc: Global) -> Result<Option<Reply>, AllocError> {
        if !self.standing || self.weak != 2 || self.back != 0 {
            return Ok(None);
        }
        if !is_tabled(&self.side, 1) || !is_tabled(&self.side, 2) {
            return Ok(None);
        }
        let graph = two_nodes(alloc)?;
        let mut alive = Alive::new(alloc, 2)?;
        restore_all(&mut self.side, &mut self.draw, 4, &graph, &mut alive);
        let (first, second) = (alive.at(0), alive.at(1));
        self.back = 2;
        self.kept = keeps_both(self.kept, first, second);
        Ok(both(first, second))
    }

    // The references go; None where it isn't their turn, or a handle that a restore gave isn't strong.
    fn clears(&mut self) -> Option<Reply> {
        if !self.standing || self.back != 2 || !self.kept {
            return None;
        }
        if !is_strong(&self.side, 3) || !is_strong(&self.side, 4) {
            return None;
        }
        clear(&mut self.side, &mut self.draw, 4, Cycle(1));
        self.standing = false;
        Some(Reply::Ok)
    }

    // The driver's begin: the marking that it opened, or the open one.
    fn begins(&mut self) -> Result<Reply, AllocError> {
        match self.side.mark_begin(&mut self.draw, Thread::C, 3) {
            Ok(marking) => Ok(Mark(marking)),
            Err(BeginFault::MarkOpen { marking }) => Ok(MarkOpen(marking)),
            Err(BeginFault::OutOfMemory) => Err(AllocError),
        }
    }

    // The driver's sweep: the marking that it ended, with what it freed, or that none is open.
    fn sweeps(&mut self) -> Reply {
        match self.side.sweep(&mut self.draw, Thread::C, 3) {
            Ok(swept) => Swept(swept.marking, swept.freed),
            Err(_) => NoMark,
        }
    }

    // The answer to a call that is a step; None where it is another.
    fn steps(&mut self, call: Call) -> Result<Option<Reply>, AllocError> {
        match call.op() {
            None => Ok(None),
            Some((caller, op)) => self.does(caller, op),
        }
    }

    // The answer to a step that leaves the cycle as it is; None where it is none.
    fn does(&mut self, caller: Thread, op: Op) -> Result<Option<Reply>, AllocError> {
        if !is_still(caller, &op) {
            return Ok(None);
        }
        let reply = self.side.step(&mut self.draw, caller, 1, &op, None)?;
        Ok(Some(reply))
    }

    // The answer to a call; None where it is none that may be made.
    fn answer(&mut self, alloc: Global, call: Call) -> Result<Option<Reply>, AllocError> {
        match call {
            Call::Install => self.installs(alloc),
            Call::Clear => Ok(self.clears()),
            Call::Weaken => Ok(self.weakens()),
            Call::WeakenAll => self.weakens_all(alloc),
            Call::Restore => Ok(self.restores()),
            Call::RestoreAll => self.restores_all(alloc),
            Call::MarkBegin => Ok(Some(self.begins()?)),
            Call::MarkSweep => Ok(Some(self.sweeps())),
            Call::References => Ok(Some(Refs(self.side.refs()))),
            _ => self.steps(call),
        }
    }

    // The place of the first row that is answered otherwise than it says; None where all are answered so.
    fn first_miss(&mut self, alloc: Global, rows: &[Row]) -> Result<Option<usize>, AllocError> {
        for i in 0..rows.len() {
            let (call, reply) = rows[i];
            if self.answer(alloc, call)? != Some(reply) {
                return Ok(Some(i));
            }
        }
        Ok(None)
    }
}

// What the second of two restores answered; None where one of them alone gave a handle, or where the first one gave
// another than handle 3.
fn both(first: Option<Option<HNum>>, second: Option<Option<HNum>>) -> Option<Reply> {
    match (first, second) {
        (Some(Some(HNum(3))), Some(Some(h))) => Some(Reply::Renewed(h)),
        (Some(None), Some(None)) => Some(Cleared),
        _ => None,
    }
}

// Whether each restore gave a handle, with one more.
fn keeps(kept: bool, back: Back) -> bool
    ensures { result ≡ (kept && is_alive back) }
{
    kept && back.is_alive()
}

// Whether each restore gave a handle, with two more.
fn keeps_both(kept: bool, first: Option<Option<HNum>>, second: Option<Option<HNum>>) -> bool
    ensures { result ≡ (kept && (is_given first && is_given second)) }
{
    kept && (is_given(first) && is_given(second))
}

// Whether a restore was answered, and gave a handle.
fn is_given(back: Option<Option<HNum>>) -> bool
    ensures { result ≡ is_given back }
{
    match back {
        Some(Some(_)) => true,
        Some(None) => false,
        None => false,
    }
}

// Whether the handle is strong, and its peer isn't freed.
fn is_strong(side: &PeerSide, h: u32) -> bool
    ensures { IsTrue result → row_of side.now.state h ≡ Some strong_row }
{
    match side.handles().row(HNum(h)) {
        Some(row) => row.strength == Strength::Strong && !row.cleared,
        None => false,
    }
}

/// Whether the handle is in the table.
pub(crate) fn is_tabled(side: &PeerSide, h: u32) -> bool
    ensures { IsTrue result → (row : TableRow) × (row_of side.now.state h ≡ Some row) }
{
    side.handles().row(HNum(h)).is_some()
}

/// Whether this is a step that leaves the cycle as it is, by this caller.
pub(crate) fn is_still(caller: Thread, op: &Op) -> bool
    ensures { IsTrue result → IsStillOp caller op.now }
{
    match op {
        Op::Line(Act::Collect) => caller == Thread::P(1),
        Op::Line(Act::Store { x, v: None }) => caller == Thread::P(1) && x.0 < 16,
        Op::Land { h: _, x } => caller == Thread::M(1) && x.0 < 16,
        _ => false,
    }
}

/// Makes an event that asks nothing of the side.
pub(crate) fn makes(
    side: &mut PeerSide,
    draw: &mut Counter,
    caller: Thread,
    op: Op,
) -> Result<(), AllocError>
    requires step { IsSideStep caller op }
    requires plain { IsPlainOp op }
    requires counted { IsCounted (seen side.old) draw.old }
    ensures state { OnOk result (side.new.state ≡ (peer_answer side.old.state caller op None nothing).state) }
    ensures reserve { side.new.reserve ≡ side.old.reserve }
    ensures counted { OnOk result (IsCounted (seen side.new) draw.new) }
{
    side.step(draw, caller, 1, &op, None)?;
    Ok(())
}

/// m1 makes a peer with a field, and a handle on it.
pub(crate) fn make(side: &mut PeerSide, draw: &mut Counter) -> Result<(), AllocError>
    requires { IsCounted (seen side.old) draw.old }
    ensures state { OnOk result (side.new.state ≡ with_pair side.old.state) }
    ensures reserve { side.new.reserve ≡ side.old.reserve }
    ensures counted { OnOk result (IsCounted (seen side.new) draw.new) }
{
    let op = Op::Make {
        sort: Sort::Framework,
        fields: 1,
    };
    makes(side, draw, Thread::M(1), op)?;
    Ok(())
}

// The dead part of two bridge objects.
fn two_nodes(alloc: Global) -> Result<DeadGraph, AllocError>
    ensures { IfOk result (λ g. g.nodes ≡ nodes) }
{
    let mut builder = GraphBuilder::new(alloc);
    builder.node(MNum(1), Some(HNum(1)), false)?;
    builder.node(MNum(2), Some(HNum(2)), false)?;
    Ok(builder.finish())
}

// Their only component.
fn one_component(alloc: Global) -> Result<Components, AllocError>
    ensures comps { IfOk result (λ c. c.comps ≡ circle) }
    ensures pairs { IfOk result (λ c. c.pairs ≡ []) }
{
    match listed_component(alloc) {
        Ok(comps) => Ok(comps),
        Err(_) => Err(AllocError),
    }
}

// The same, with what a listing is refused for.
fn listed_component(alloc: Global) -> Result<Components, ListingFault>
    ensures comps { IfOk result (λ c. c.comps ≡ circle) }
    ensures pairs { IfOk result (λ c. c.pairs ≡ []) }
{
    let mut builder = ComponentsBuilder::new(alloc);
    builder.component(&[0, 1])?;
    let listing = builder.finish()?;
    Ok(listing)
}

// m1 makes both peers.
fn make_both(side: &mut PeerSide, draw: &mut Counter) -> Result<(), AllocError>
    requires { IsCounted (seen side.old) draw.old }
    ensures state { OnOk result (side.new.state ≡ with_pair (with_pair side.old.state)) }
    ensures reserve { side.new.reserve ≡ side.old.reserve }
    ensures counted { OnOk result (IsCounted (seen side.new) draw.new) }
{
    make(side, draw)?;
    make(side, draw)
}

// Makes the calls of a table on this new side, where m1 has made both peers. The place of the first row that is
// answered otherwise than it says; and the side, which goes on to its end.
fn play_on(
    alloc: Global,
    mut side: PeerSide,
    rows: &[Row],
) -> (Result<Option<usize>, AllocError>, PeerSide)
    requires { side ≡ opening_side 8 }
{
    let mut draw = Counter::new();
    match make_both(&mut side, &mut draw) {
        Ok(()) => {
            let mut driven = Driven {
                side,
                draw,
                mirrored: false,
                standing: false,
                kept: true,
                weak: 0,
                back: 0,
            };
            let miss = driven.first_miss(alloc, rows);
            (miss, driven.side)
        }
        Err(failed) => (Err(failed), side),
    }
}

/// What the rows of a table came to on a new side, which should end with these freed peers.
pub(crate) fn play(alloc: Global, rows: &[Row], freed: &[PNum]) -> Result<Played, AllocError> {
    let side = PeerSide::new(alloc, 8, Holding::Every)?;
    let (miss, side) = play_on(alloc, side, rows);
    let (entries, freed) = ends_with(side, freed);
    Ok(Played {
        miss: miss?,
        entries,
        freed,
    })
}
