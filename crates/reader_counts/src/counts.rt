// The counts, and the tests over them.

ghost use Rattle.std.specs.Prelude.{◌≡◌, ◌<◌, ◌^◌, ◌↔◌, IsTrue, OnErr, OnOk, Some, length, slice_set};
ghost use Rattle.joint_machine.specs.Control.{caller_place};
ghost use Rattle.joint_machine.specs.Lines.{IsNamed, IsThread, is_peer_event, is_read};
ghost use Rattle.reader_counts.specs.Counts.{AtMostSeen, EndsWithin, IsNoSnap, IsPendingIn, IsUnknownBy, IsUnknownIn};
ghost use Rattle.reader_counts.specs.Counts.{cells_after, counts_after, ended_after, more_managed, opening_counts};

use joint_machine::{Act, Cell, Cycle, Entry, Op, Reply, Thread};
use std::alloc::{AllocError, Global};
use std::marker::Model;

/// A cell that was set: by whom, and how many managed entries there were with that one.
#[derive(Clone, Copy, PartialEq, Eq, Debug)]
pub struct CellSet {
    pub by: Thread,
    pub count: u64,
}

/// How many managed entries there are, how many there were at each caller's last entry, with the setting of each cell,
/// and with the end of each cycle.
#[derive(Drop)]
pub struct ReadCounts {
    managed: u64,
    seen: [u64; 17],
    cells: [Option<CellSet>; 64],
    ended: Vec<Option<u64>>,
}

impl Model for ReadCounts {
    ghost use Rattle.reader_counts.specs.Counts.{Counts};

    ghost Value = { Counts };

    ghost view = { λ c. record { managed = c.managed; seen = c.seen; cells = c.cells; ended = c.ended.items } };
}

// The place of a caller: the driver, m1 to m8, p1 to p8.
fn place(caller: Thread) -> usize
    requires { IsThread caller }
    ensures place { result ≡ caller_place caller }
    ensures within { result < 17 }
{
    match caller {
        Thread::C => 0,
        Thread::M(n) => n as usize,
        Thread::P(n) => 8 + n as usize,
    }
}

// Whether two callers are one.
fn is_same(a: Thread, b: Thread) -> bool
    ensures { IsTrue result ↔ (a ≡ b) }
{
    a == b
}

/// Whether the event is made on the peer side.
pub fn is_peers(caller: Thread, op: &Op) -> bool
    ensures { result ≡ is_peer_event caller op.now }
{
    match op {
        Op::Line(_) => matches!(caller, Thread::P(_)),
        Op::Make { .. }
        | Op::Land { .. }
        | Op::Grip { .. }
        | Op::Release { .. }
        | Op::Mirror { .. }
        | Op::Weaken { .. }
        | Op::Begin
        | Op::Sweep
        | Op::Restore { .. }
        | Op::Clear { .. } => true,
        _ => false,
    }
}

// Whether the event reads a cell.
fn reads(op: &Op) -> bool
    ensures { result ≡ is_read op.now }
{
    match op {
        Op::Line(act) => matches!(act, Act::Read { .. } | Act::Await { .. }),
        _ => false,
    }
}

impl ReadCounts {
    /// Before the first entry.
    pub fn new(alloc: Global) -> ReadCounts
        ensures { result ≡ opening_counts }
    {
        ReadCounts {
            managed: 0,
            seen: [0; 17],
            cells: [None; 64],
            ended: Vec::new(alloc),
        }
    }

    // Whether a caller's last entry stands before all managed entries but so many.
    fn has_seen_at_most(&self, caller: Thread, count: Option<u64>) -> bool
        requires { IsThread caller }
        ensures { IsTrue result ↔ AtMostSeen self.now caller count }
    {
        match count {
            None => true,
            Some(most) => self.seen[place(caller)] <= most,
        }
    }

    // Whether another thread made a setting, and a thread has seen no managed entry behind it.
    fn has_not_seen(&self, caller: Thread, set: CellSet) -> bool
        requires { IsThread caller }
        ensures { IsTrue result ↔ IsUnknownBy self.now caller (Some set) }
    {
        if is_same(set.by, caller) {
            return false;
        }
        self.seen[place(caller)] <= set.count
    }

    /// Whether a thread with an empty pin may answer `pending k`, where so many cycles were snapped, and one is open or
    /// none: the cycle is the next one, while none is open; or it was snapped, and isn't over, or the thread has seen
    /// no managed entry behind its end.
    pub fn may_be_pending(&self, caller: Thread, k: Cycle, cycles: u32, is_open: bool) -> bool
        requires caller { IsThread caller }
        requires cycles { length self.now.ended ≡ cycles }
        ensures { IsTrue result ↔ IsPendingIn self.now caller k.0 cycles is_open }
    {
        let number = k.0;
        if number > cycles {
            return number - 1 == cycles && !is_open;
        }
        if number == 0 {
            return false;
        }
        self.has_seen_at_most(caller, self.ended[number as usize - 1])
    }

    /// Whether a thread knows nothing of the setting of a cell: the cell isn't set, or another thread set it, and the
    /// thread has seen no managed entry behind that. (A read that answers `unset` then is right if the cell has no
    /// target that is freed.)
    pub fn knows_nothing(&self, caller: Thread, k: Cell) -> bool
        requires caller { IsThread caller }
        requires cell { k.0 < 64 }
        ensures { IsTrue result ↔ IsUnknownIn self.now caller k.0 }
    {
        match self.cells[k.0 as usize] {
            None => true,
            Some(set) => self.has_not_seen(caller, set),
        }
    }

    // What an event ends: the cycle's place comes to have the count.
    fn end(&mut self, op: &Op)
        requires ends { EndsWithin self.old op.now }
        requires no_snap { IsNoSnap op.now }
        ensures { self.new ≡ record self.old { ended = ended_after self.old.ended self.old.managed op.now } }
    {
        match op {
            Op::Resolve { cycle } => self.ended[cycle.0 as usize - 1] = Some(self.managed),
            Op::Abandon { cycle } => self.ended[cycle.0 as usize - 1] = Some(self.managed),
            _ => {}
        }
    }

    // What an event sets: the cell's place comes to have its caller and the count.
    fn set(&mut self, caller: Thread, op: &Op, reply: &Reply)
        requires { IsNamed caller op.now }
        ensures { self.new ≡ record self.old
            { cells = cells_after self.old.cells self.old.managed caller op.now reply.now } }
    {
        if let Op::Line(Act::Weak { k, .. }) = *op
            && let Reply::Ok = *reply
        {
            self.cells[k.0 as usize] = Some(CellSet {
                by: caller,
                count: self.managed,
            });
        }
    }

    // Counts an entry of a caller, managed or not.
    fn count(&mut self, caller: Thread, op: &Op)
        requires thread { IsThread caller }
        requires count { self.old.managed < 2 ^ 63 }
        ensures { self.new ≡ record self.old {
          managed = more_managed self.old caller op.now;
          seen = slice_set self.old.seen (caller_place caller) (more_managed self.old caller op.now);
        } }
    {
        if !is_peers(caller, op) && !reads(op) {
            self.managed += 1;
        }
        self.seen[place(caller)] = self.managed;
    }

    /// Counts an entry, and keeps what it sets or ends. A resolve or an abandon is of a cycle that was snapped. Answers
    /// `AllocError` where there is no memory for a further cycle; the counts are then as before.
    pub fn note(&mut self, entry: &Entry) -> Result<(), AllocError>
        requires event { IsNamed entry.now.made.caller entry.now.made.op }
        requires count { self.old.managed < 2 ^ 63 }
        requires ends { EndsWithin self.old entry.now.made.op }
        ensures ok { OnOk result (self.new ≡ counts_after self.old entry.now.made) }
        ensures err { OnErr result (self.new ≡ self.old) }
    {
        let made = &entry.made;
        if let Op::Snap { .. } = made.op {
            self.ended.push(None)?;
            self.count(made.caller, &made.op);
            return Ok(());
        }
        self.count(made.caller, &made.op);
        self.set(made.caller, &made.op, &made.reply);
        self.end(&made.op);
        Ok(())
    }
}
