// The joint state, and the verdict on an entry.

ghost use Rattle.std.specs.Prelude.{◌≡◌, ◌<◌, ◌&&◌, if◌then◌else◌, IfOk, OnErr, length, Some, None, true};
ghost use Rattle.joint_machine.specs.declared.events.Entry.{Entry};
ghost use Rattle.joint_machine.specs.declared.events.Op.TheVariants.{Line};
ghost use Rattle.joint_machine.specs.Heaps.{numbered_set};
ghost use Rattle.joint_machine.specs.Joint.{Joint, opening, joint_target};
ghost use Rattle.joint_machine.specs.Lines.{is_read};
ghost use Rattle.joint_machine.specs.Readers.{is_set_aside};
ghost use Rattle.joint_replay.specs.Judging.{Judges, JudgesStep, IsEntry};

use crate::answers::Said;
use crate::callers::can_make;
use crate::managed::ManagedPart;
use crate::marking::BegunMarking;
use crate::peers::PeerPart;
use joint_model::{Act, Entry, History, Op, Reply};
use std::alloc::{AllocError, Global};
use std::marker::Model;

/// Whether an entry is a step of the joint machine from a state.
#[derive(Clone, Copy, PartialEq, Eq, Debug)]
pub enum Verdict {
    Lawful,
    Unlawful,
}

impl Verdict {
    /// `Lawful` exactly where `lawful` is true.
    pub(crate) fn of(lawful: bool) -> Verdict
        ensures { result ≡ (if lawful then Verdict.Lawful else Verdict.Unlawful) }
    {
        if lawful {
            Verdict::Lawful
        } else {
            Verdict::Unlawful
        }
    }
}

/// The state of the joint machine.
#[derive(Drop)]
pub struct JointState {
    pub(crate) alloc: Global,
    pub(crate) managed: ManagedPart,
    pub(crate) peers: PeerPart,
    pub(crate) removed: Vec<bool>,
    pub(crate) answers: Vec<Option<Said>>,
    pub(crate) marking: Option<BegunMarking>,
    pub(crate) markings: u32,
}

impl Model for JointState {
    ghost use Rattle.joint_machine.specs.Joint.{Joint};
    ghost use Rattle.joint_replay.specs.Answers.{answers_as};
    ghost use Rattle.joint_replay.specs.Graphs.{KeepsStored};

    ghost Value = { Joint };

    ghost view = { λ s. record {
      graph = record { managed = s.managed; peers = s.peers; removed = s.removed.items };
      answers = answers_as s.answers.items;
      marking = s.marking;
      markings = s.markings;
    } };

    ghost invariant = { λ s. KeepsStored s.peers s.marking };
}

impl JointState {
    /// The opening state, in which nothing is there. Answers `AllocError` where there is no memory.
    pub fn new(alloc: Global) -> Result<JointState, AllocError>
        ensures { IfOk result (λ s. s ≡ opening) }
    {
        Ok(JointState {
            alloc,
            managed: ManagedPart::new(alloc),
            peers: PeerPart::new(alloc),
            removed: Vec::new(alloc),
            answers: Vec::new(alloc),
            marking: None,
            markings: 0,
        })
    }

    /// Replays entry `i` of a history. Answers `Lawful` exactly where the entry is a step of the joint machine from
    /// this state, with the freed rows that its reply names in the history's lists, and then makes the step. Answers
    /// `Unlawful` otherwise, and `AllocError` where there is no memory; the state is then as before.
    pub fn replay_step(&mut self, h: &History, i: u64) -> Result<Verdict, AllocError>
        requires index { i < length h.now.entries }
        ensures verdict { IfOk result (λ v. (e : Entry) → IsEntry h.now i e → Judges h.now e v self.old self.new) }
        ensures err { OnErr result (self.new ≡ self.old) }
    {
        match h.entry(i) {
            None => unreachable!(),
            Some(entry) => self.judge(h, &entry),
        }
    }

    /// Replays a single entry, wherever it stands: of the history only the lists of freed rows are read, and of the
    /// entry its caller, its event and its reply, not its number, nor its line, nor what it cites. Answers `Lawful`
    /// exactly where the entry is a step of the joint machine from this state, with the freed rows that its reply names
    /// in the history's lists, and then makes the step. Answers `Unlawful` otherwise, and `AllocError` where there is
    /// no memory; the state is then as before. Nothing is asked of the entry or of the history.
    pub fn judge(&mut self, h: &History, entry: &Entry) -> Result<Verdict, AllocError>
        ensures verdict { IfOk result (λ v. Judges h.now entry.now v self.old self.new) }
        ensures err { OnErr result (self.new ≡ self.old) }
    {
        if is_none(&entry.made.op, &entry.made.reply) {
            return Ok(Verdict::Unlawful);
        }
        self.judge_step(h, entry)
    }

    // The same of an entry as a step of the machine in which reads are events as all others are.
    fn judge_step(&mut self, h: &History, entry: &Entry) -> Result<Verdict, AllocError>
        ensures verdict { IfOk result (λ v. JudgesStep h.now entry.now v self.old self.new) }
        ensures err { OnErr result (self.new ≡ self.old) }
    {
        let made = entry.made;
        if !can_make(made.caller, &made.op) {
            return Ok(Verdict::Unlawful);
        }
        match made.op {
            Op::Line(act) => self.line(made.caller, &act, &made.reply),
            Op::Make { .. } | Op::Land { .. } | Op::Grip { .. } | Op::Release { .. } => {
                self.on_handles(&made.op, &made.reply)
            }
            Op::Adopt { .. } | Op::Lend { .. } | Op::Meet { .. } | Op::Give { .. } => {
                self.on_objects(made.caller, &made.op, &made.reply)
            }
            Op::Snap { cycle } => self.snap(h, cycle, &made.reply),
            Op::Begin => self.begin(made.caller, &made.reply),
            Op::Sweep => self.sweep(h, made.caller, &made.reply),
            Op::Restore { h } => self.restore(h.0, &made.reply),
            Op::Resolve { cycle } => self.resolve(h, cycle, &made.reply),
            Op::Abandon { cycle } => Ok(self.abandon(cycle, &made.reply)),
            _ => unreachable!(),
        }
    }

    /// Where a handle leads: to its peer, unless the handle was removed or the peer was freed.
    pub(crate) fn target(&self, h: u32) -> Option<u32>
        ensures { result ≡ joint_target self.now h }
    {
        if h == 0 || h as usize > self.removed.len() || self.removed[h as usize - 1] {
            return None;
        }
        let Some(p) = self.peers.peer_of(h) else {
            return None;
        };
        if self.peers.heap().is_freed(p) {
            None
        } else {
            Some(p)
        }
    }
}

// Whether an event with that reply is a read that is set aside.
fn is_none(op: &Op, reply: &Reply) -> bool
    ensures { result ≡ (is_read op.now && is_set_aside reply.now) }
{
    match op {
        Op::Line(Act::Read { .. } | Act::Await { .. }) => sets_aside(reply),
        _ => false,
    }
}

// Whether a read that answers so is no step.
fn sets_aside(reply: &Reply) -> bool
    ensures { result ≡ is_set_aside reply.now }
{
    match reply {
        Reply::Pending { .. } | Reply::Unset => true,
        _ => false,
    }
}
