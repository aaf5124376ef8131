// The mirrored cycle, as the side keeps it beside its rows and entries: what is reserved, which references wait, and
// what is still owed.
//
// References that wait stand here, and in no row: so no marking follows them, and one that is open stays exact. They
// come to stand all together.

ghost use Rattle.std.specs.Prelude.{◌≡◌, ◌+◌, ◌-◌, ◌^◌, ◌≤◌, ◌++◌, [], ◌∷◌, Some, true, IfOk, OnOk, OnErr, length, map};
ghost use Rattle.row_heap.specs.Ends.{end_of as row_end, ends_of};
ghost use Rattle.peer_heap.specs.Mirroring.{end_of};
ghost use Rattle.peer_heap.specs.Mirrors.{AreFew, no_mirrors, owed_by, owed_next, owes};

use joint_model::{Cycle, PNum};
use row_heap::End;
use std::alloc::{AllocError, Global};
use std::marker::Model;

/// The mirrored cycle: its number, the number of the snap entry that its entries cite, and how many entries there were
/// after its mirror entry; how many handles it may still weaken, how many it has to restore, and whether its own
/// marking is still to come.
#[derive(Clone, Copy)]
pub(crate) struct OpenMirror {
    pub(crate) cycle: Cycle,
    pub(crate) snap: u64,
    pub(crate) from: u32,
    pub(crate) left: u32,
    pub(crate) due: u32,
    pub(crate) marking: bool,
}

/// An end of a mirrored reference: a peer, or a temporary, by its number from 0 on.
#[derive(Clone, Copy, PartialEq, Eq, Debug)]
pub enum RefEnd {
    Peer(PNum),
    Temp(u32),
}

/// The mirrored cycle; the references that wait, and for how many more of them and for how many temporaries there is
/// room; and for how many handles room is taken for the cycle that is mirrored next.
#[derive(Drop)]
pub(crate) struct Mirroring {
    mirror: Option<OpenMirror>,
    waiting: Vec<(End, End)>,
    ready: u32,
    temps: u32,
    next: Option<u32>,
}

impl Model for Mirroring {
    ghost use Rattle.std.specs.Prelude.{length, map};
    ghost use Rattle.row_heap.specs.Ends.{ends_of};
    ghost use Rattle.std.specs.Vec.{vec_capacity};
    ghost use Rattle.peer_heap.specs.Mirrors.{Mirrors, IsMirroring};

    ghost Value = { Mirrors };

    ghost view = { λ s. record {
      mirror = s.mirror;
      waiting = map ends_of s.waiting.items;
      room = s.ready;
      temps = s.temps;
      next = s.next;
    } };

    ghost invariant = { λ s. IsMirroring s.mirror (length s.waiting.items) s.ready (vec_capacity s.waiting) };
}

impl Mirroring {
    /// No cycle is mirrored, and nothing is reserved.
    pub(crate) fn new(alloc: Global) -> Mirroring
        ensures { result ≡ no_mirrors }
    {
        Mirroring {
            mirror: None,
            waiting: Vec::new(alloc),
            ready: 0,
            temps: 0,
            next: None,
        }
    }

    /// How many entries are owed: by the mirrored cycle, and by the one for which room is taken.
    pub(crate) fn owes(&self) -> u64
        ensures owes { result ≡ owes self.now }
        ensures most { result ≤ 2 ^ 41 }
    {
        owed_by(self.mirror) + owed_next(self.next)
    }

    /// The mirrored cycle.
    pub(crate) fn mirror(&self) -> Option<OpenMirror>
        ensures mirror { result ≡ self.now.mirror }
        ensures few { AreFew result }
    {
        self.mirror
    }

    /// For how many handles room is taken for the cycle that is mirrored next.
    pub(crate) fn next(&self) -> Option<u32>
        ensures { result ≡ self.now.next }
    {
        self.next
    }

    /// The references that wait.
    pub(crate) fn waiting(&self) -> &[(End, End)]
        ensures waiting { map ends_of result.now ≡ self.now.waiting }
        ensures most { length result.now + self.now.room ≤ u32.MAX }
    {
        self.waiting.as_slice()
    }

    /// How many references wait and have room once there is room for so many more: never fewer than now. Answers
    /// `AllocError` past 4,294,967,295.
    pub(crate) fn room_with(&self, refs: u32) -> Result<u32, AllocError>
        ensures more { IfOk result (λ n. length self.now.waiting + refs ≤ n) }
        ensures now { IfOk result (λ n. length self.now.waiting + self.now.room ≤ n) }
    {
        let waiting = self.waiting.len();
        if refs as usize > u32::MAX as usize - waiting {
            return Err(AllocError);
        }
        Ok(waiting as u32 + refs.max(self.ready))
    }

    /// Takes room for so many more references that wait, and counts their temporaries and the handles of the cycle that
    /// is mirrored next. Answers `AllocError`, with nothing changed, where there is no memory, or where 4,294,967,295
    /// references would be passed.
    pub(crate) fn reserve(&mut self, refs: u32, temps: u32, handles: u32) -> Result<(), AllocError>
        ensures ok { OnOk result (self.new ≡ record self.old { room = refs; temps = temps; next = Some handles }) }
        ensures err { OnErr result (self.new ≡ self.old) }
    {
        if refs as usize > u32::MAX as usize - self.waiting.len() {
            return Err(AllocError);
        }
        self.waiting.reserve(refs as usize)?;
        self.ready = refs;
        self.temps = temps;
        self.next = Some(handles);
        Ok(())
    }

    /// Adds a reference that waits. It takes no memory.
    pub(crate) fn push(&mut self, from: RefEnd, to: RefEnd)
        requires { 1 ≤ self.old.room }
        ensures { self.new ≡ record self.old
            { waiting = self.old.waiting ++ (end_of from, end_of to) ∷ []; room = self.old.room - 1 } }
    {
        self.waiting.push_reserved((from.end(), to.end()));
        self.ready -= 1;
    }

    /// A cycle is mirrored, over so many handles, and no reference waits any more.
    pub(crate) fn stand(&mut self, cycle: Cycle, snap: u64, from: u32, handles: u32)
        ensures { self.new ≡ record self.old {
          mirror = Some (record {
            cycle = cycle;
            snap = snap;
            from = from;
            left = handles;
            due = 0;
            marking = true;
          });
          waiting = [];
          temps = 0;
          next = None;
        } }
    {
        self.mirror = Some(OpenMirror {
            cycle,
            snap,
            from,
            left: handles,
            due: 0,
            marking: true,
        });
        self.waiting.clear();
        self.temps = 0;
        self.next = None;
    }

    /// The mirrored cycle owes less, or more, or is over.
    pub(crate) fn set_mirror(&mut self, mirror: Option<OpenMirror>)
        requires { AreFew mirror }
        ensures { self.new ≡ record self.old { mirror = mirror } }
    {
        self.mirror = mirror;
    }
}

impl RefEnd {
    // The end, as the heap has it.
    fn end(self) -> End
        ensures { row_end result ≡ end_of self }
    {
        match self {
            RefEnd::Peer(p) => End::Object(p.0),
            RefEnd::Temp(t) => End::Temporary(t),
        }
    }
}

impl OpenMirror {
    ghost use Rattle.peer_heap.specs.Mirrors.{weakened_one, restored_one, marked_one};

    /// One more handle is weak, and has to be restored.
    pub(crate) fn weakened(self) -> OpenMirror
        requires left { 1 ≤ self.left }
        requires few { self.left + self.due ≤ u32.MAX }
        ensures { result ≡ weakened_one self }
    {
        OpenMirror {
            left: self.left - 1,
            due: self.due + 1,
            ..self
        }
    }

    /// One handle less has to be restored.
    pub(crate) fn restored(self) -> OpenMirror
        requires { 1 ≤ self.due }
        ensures { result ≡ restored_one self }
    {
        OpenMirror {
            due: self.due - 1,
            ..self
        }
    }

    /// Its own marking was begun.
    pub(crate) fn marked(self) -> OpenMirror
        ensures { result ≡ marked_one self }
    {
        OpenMirror {
            marking: false,
            ..self
        }
    }
}

// How many entries the mirrored cycle owes.
fn owed_by(mirror: Option<OpenMirror>) -> u64
    ensures owed { result ≡ owed_by mirror }
    ensures most { result ≤ 2 ^ 40 }
{
    match mirror {
        None => 0,
        Some(m) => {
            let marking = if m.marking { 2 } else { 0 };
            2 * m.left as u64 + m.due as u64 + 1 + marking
        }
    }
}

// How many entries a cycle owes for which room is taken.
fn owed_next(next: Option<u32>) -> u64
    ensures owed { result ≡ owed_next next }
    ensures most { result ≤ 2 ^ 40 }
{
    match next {
        None => 0,
        Some(n) => 2 * n as u64 + 4,
    }
}
