// The peers of the joint state, with the global names and the handles as they were issued.

ghost use Rattle.std.specs.Prelude.{◌≡◌, ◌<◌, ◌≤◌, ◌↔◌, ◌||◌, IsTrue, IfOk, OnErr, OnOk, MatchOption, All, length};
ghost use Rattle.std.specs.Prelude.{slice_set, false};
ghost use Rattle.std.specs.Option.{option_map};
ghost use Rattle.joint_machine.specs.Heaps.{IsMade, is_full, next_number, numbered_at, slot, with_static, fields_of};
ghost use Rattle.joint_machine.specs.Heaps.{heap_line};
ghost use Rattle.joint_machine.specs.Heaps.{with_freed};
ghost use Rattle.joint_machine.specs.Lines.{IsPeerThread, IsHeapAct};
ghost use Rattle.joint_machine.specs.Peers.{opening_peers, handles_full, with_handle, with_renewed, with_peer, held};
ghost use Rattle.joint_machine.specs.Peers.{strong, next_handle, peer_of, sort_of, on_peer_heap, peer_made, peer_name};
ghost use Rattle.joint_machine.specs.Peers.{peer_read, handle_name, landed};
ghost use Rattle.joint_machine.specs.Run.{thread_number};
ghost use Rattle.joint_replay.specs.Judging.{Decides, Gives};
ghost use Rattle.joint_replay.specs.Plain.{hold_as, strength_as, issued_as};

use crate::heap::PlainHeap;
use crate::operations::Naming;
use crate::replies::Refusal;
use crate::state::Verdict;
use joint_model::{Act, NAMES, Reply, Sort, Thread, VARS};
use std::alloc::{AllocError, Global};
use std::marker::Model;

// The most handles that are issued.
const MOST_HANDLES: usize = 65_535;

/// Who a handle was made for: a managed object holds it, or a peer thread has it by a global name.
#[derive(Clone, Copy, PartialEq, Eq, Debug)]
pub enum IssuedHold {
    Held,
    Raw,
}

/// Whether a handle was made as one that keeps its peer alive.
#[derive(Clone, Copy, PartialEq, Eq, Debug)]
pub enum IssuedStrength {
    Strong,
    Weak,
}

/// A handle as it was issued.
#[derive(Clone, Copy)]
pub struct Handle {
    pub peer: u32,
    pub hold: IssuedHold,
    pub strength: IssuedStrength,
}

/// The peers with their sorts, the handle that each global name has, and the handles.
#[derive(Drop)]
pub(crate) struct PeerPart {
    heap: PlainHeap,
    sorts: Vec<Sort>,
    names: [Option<u32>; NAMES],
    handles: Vec<Handle>,
    made: usize,
}

impl Model for PeerPart {
    ghost use Rattle.std.specs.Prelude.{◌≡◌, ◌≤◌, map, length};
    ghost use Rattle.joint_machine.specs.Peers.{Peers};
    ghost use Rattle.joint_replay.specs.Plain.{issued_as};
    ghost use Rattle.joint_machine.specs.Numbers.{u32_max};

    ghost Value = { Peers };

    ghost view = { λ s. record {
      heap = s.heap;
      sorts = s.sorts.items;
      names = s.names;
      issued = map issued_as s.handles.items;
      made = s.made;
    } };

    ghost invariant = { λ s. (length s.handles.items ≤ u32_max) × (length s.names ≡ 64) };
}

impl PeerPart {
    /// Nothing is there.
    pub(crate) fn new(alloc: Global) -> PeerPart
        ensures { result ≡ opening_peers }
    {
        PeerPart {
            heap: PlainHeap::new(alloc),
            sorts: Vec::new(alloc),
            names: [None; NAMES],
            handles: Vec::new(alloc),
            made: 0,
        }
    }

    /// The peers' heap.
    pub(crate) fn heap(&self) -> &PlainHeap
        ensures { result.now ≡ self.now.heap }
    {
        &self.heap
    }

    /// How many handles were issued: the number of the last one.
    pub(crate) fn handles(&self) -> u32
        ensures { result ≡ length self.now.issued }
    {
        self.handles.len() as u32
    }

    /// Frees the peers of a list. Answers `AllocError` where there is no memory; the part is then as before.
    pub(crate) fn free(&mut self, freed: &[u32]) -> Result<(), AllocError>
        requires { All (IsMade self.old.heap) freed.now }
        ensures ok { OnOk result (self.new ≡ record self.old { heap = with_freed self.old.heap freed.now }) }
        ensures err { OnErr result (self.new ≡ self.old) }
    {
        self.heap.free(freed)
    }

    /// Handle `h` as it was issued; None where none was issued with that number.
    pub(crate) fn handle(&self, h: u32) -> Option<Handle>
        ensures { numbered_at self.now.issued h ≡ option_map issued_as result }
    {
        if h == 0 || h as usize > self.handles.len() {
            return None;
        }
        Some(self.handles[h as usize - 1])
    }

    /// The peer of handle `h`; None where none was issued with that number.
    pub(crate) fn peer_of(&self, h: u32) -> Option<u32>
        ensures { result ≡ peer_of self.now.issued h }
    {
        match self.handle(h) {
            None => None,
            Some(row) => Some(row.peer),
        }
    }

    /// The handle of each global name.
    pub(crate) fn names(&self) -> &[Option<u32>]
        ensures handles { result.now ≡ self.now.names }
        ensures count { length result.now ≡ 64 }
    {
        &self.names
    }

    /// The handle that global name `g` has.
    pub(crate) fn name(&self, g: usize) -> Option<u32>
        requires { g < 64 }
        ensures { slot self.now.names g ≡ result }
    {
        self.names[g]
    }

    /// Global name `g` has a handle, or none.
    pub(crate) fn set_name(&mut self, g: usize, h: Option<u32>)
        requires { g < 64 }
        ensures { self.new ≡ record self.old { names = slice_set self.old.names g h } }
    {
        self.names[g] = h;
    }

    /// The sort of a peer; `Framework` where there is no such peer.
    pub(crate) fn sort(&self, p: u32) -> Sort
        ensures { result ≡ sort_of self.now p }
    {
        if p == 0 || p as usize > self.sorts.len() {
            return Sort::Framework;
        }
        self.sorts[p as usize - 1]
    }

    /// Whether all handles are made; those that restores gave don't count.
    pub(crate) fn are_handles_full(&self) -> bool
        ensures { result ≡ handles_full self.now }
    {
        self.made >= MOST_HANDLES
    }

    /// Whether the number is the next handle's.
    pub(crate) fn is_next_handle(&self, h: u32) -> bool
        ensures room { IsTrue result → length self.now.issued < u32.MAX }
        ensures next { IsTrue result ↔ (h ≡ next_handle self.now) }
    {
        h as usize == self.handles.len() + 1
    }

    /// Whether the reply names peer `p`, the next handle, and the peer's sort and number of fields.
    pub(crate) fn names_gripped(&self, p: u32, reply: &Reply) -> bool
        ensures room { IsTrue result → length self.now.issued < u32.MAX }
        ensures says { IsTrue result ↔ (reply.now ≡ Reply.Gripped record { 0 = p }
            record { 0 = next_handle self.now } (sort_of self.now p) (length (fields_of self.now.heap p))) }
    {
        match reply {
            Reply::Gripped(peer, h, sort, fields) => {
                peer.0 == p
                    && self.is_next_handle(h.0)
                    && *sort == self.sort(p)
                    && *fields as usize == self.heap.fields_len(p)
            }
            _ => false,
        }
    }

    /// Whether the reply names the next handle.
    pub(crate) fn names_handle(&self, reply: &Reply) -> bool
        ensures room { IsTrue result → length self.now.issued < u32.MAX }
        ensures says { IsTrue result ↔ (reply.now ≡ handle_name (next_handle self.now)) }
    {
        match reply {
            Reply::H(h) => self.is_next_handle(h.0),
            _ => false,
        }
    }

    /// A further handle on a peer. Answers `AllocError` where there is no memory; the part is then as before.
    pub(crate) fn add_handle(
        &mut self,
        peer: u32,
        hold: IssuedHold,
        strength: IssuedStrength,
    ) -> Result<(), AllocError>
        requires full { handles_full self.old ≡ false }
        requires room { length self.old.issued < u32.MAX }
        ensures ok { OnOk result (self.new ≡ with_handle self.old peer (hold_as hold) (strength_as strength)) }
        ensures err { OnErr result (self.new ≡ self.old) }
    {
        self.handles.push(Handle {
            peer,
            hold,
            strength,
        })?;
        self.made += 1;
        Ok(())
    }

    /// An operation of a peer thread that both heaps have.
    pub(crate) fn plain(&mut self, caller: Thread, act: &Act, reply: &Reply) -> Verdict
        requires thread { IsPeerThread caller }
        requires act { IsHeapAct act.now }
        ensures verdict { Decides (Gives (on_peer_heap self.old
            (heap_line peer_name self.old.heap (thread_number caller) act.now)) reply.now) result self.old self.new }
        ensures issued { self.new.issued ≡ self.old.issued }
        ensures freed { self.new.heap.freed ≡ self.old.heap.freed }
        ensures made { length self.new.heap.fields ≡ length self.old.heap.fields }
    {
        self.heap.line(Naming::Peers, caller, act, reply)
    }

    /// `new` of a peer thread: a further framework peer that the variable at place `v` names. Answers `AllocError`
    /// where there is no memory; the part is then as before.
    pub(crate) fn make(
        &mut self,
        v: usize,
        fields: u8,
        reply: &Reply,
    ) -> Result<Verdict, AllocError>
        requires { v < VARS }
        ensures ok { IfOk result (λ d. Decides (Gives (peer_made self.old v fields) reply.now) d self.old self.new) }
        ensures err { OnErr result (self.new ≡ self.old) }
    {
        if self.heap.is_full() {
            return Ok(Verdict::of(Refusal::Full.is_said(reply)));
        }
        let p = self.heap.made() + 1;
        if !Naming::Peers.names(p, reply) {
            return Ok(Verdict::Unlawful);
        }
        self.sorts.reserve(1)?;
        self.heap.add_named(v, fields)?;
        self.sorts.push_reserved(Sort::Framework);
        Ok(Verdict::Lawful)
    }

    /// `wread`: the variable at place `v` names the peer to which a handle leads.
    pub(crate) fn read(&mut self, v: usize, target: Option<u32>, reply: &Reply) -> Verdict
        requires { v < VARS }
        ensures { Decides (Gives (peer_read self.old v target) reply.now) result self.old self.new }
    {
        let Some(p) = target else {
            return Verdict::of(Refusal::Gone.is_said(reply));
        };
        if !Naming::Peers.names(p, reply) {
            return Verdict::Unlawful;
        }
        self.heap.set_var(v, Some(p));
        Verdict::Lawful
    }

    /// `land`: the static holds the peer to which a handle leads.
    pub(crate) fn land(&mut self, x: usize, target: Option<u32>, reply: &Reply) -> Verdict
        requires { x < 16 }
        ensures { Decides (Gives (landed self.old x target) reply.now) result self.old self.new }
    {
        let Some(p) = target else {
            return Verdict::of(Refusal::Gone.is_said(reply));
        };
        if !Naming::Peers.names(p, reply) {
            return Verdict::Unlawful;
        }
        self.heap.set_static(x, Some(p));
        Verdict::Lawful
    }

    /// Whether no further peer or no further handle can be made.
    pub(crate) fn is_full(&self) -> bool
        ensures { result ≡ (is_full self.now.heap.fields || handles_full self.now) }
    {
        self.heap.is_full() || self.made >= MOST_HANDLES
    }

    /// Whether the reply names the next peer and the next handle.
    pub(crate) fn names_next(&self, reply: &Reply) -> bool
        ensures room { IsTrue result → length self.now.issued < u32.MAX }
        ensures says { IsTrue result ↔ (reply.now ≡ Reply.Made
            record { 0 = next_number self.now.heap } record { 0 = next_handle self.now }) }
    {
        match reply {
            Reply::Made(p, h) => {
                p.0 == self.heap.made() + 1 && h.0 as usize == self.handles.len() + 1
            }
            _ => false,
        }
    }

    /// A further peer and a held strong handle on it. Answers `AllocError` where there is no memory; the part is then
    /// as before.
    pub(crate) fn add_pair(&mut self, sort: Sort, fields: u8) -> Result<(), AllocError>
        requires full { (is_full self.old.heap.fields || handles_full self.old) ≡ false }
        requires room { length self.old.issued < u32.MAX }
        ensures ok { OnOk result (self.new ≡ with_handle
            (with_peer self.old sort fields) (next_number self.old.heap) held strong) }
        ensures err { OnErr result (self.new ≡ self.old) }
    {
        let p = self.heap.made() + 1;
        self.sorts.reserve(1)?;
        self.handles.reserve(1)?;
        self.heap.add_object(fields)?;
        self.sorts.push_reserved(sort);
        self.handles.push_reserved(Handle {
            peer: p,
            hold: IssuedHold::Held,
            strength: IssuedStrength::Strong,
        });
        self.made += 1;
        Ok(())
    }

    /// The handle that the reply of a restore names, where that is the next one.
    pub(crate) fn renewal(&self, reply: &Reply) -> Option<u32>
        ensures { MatchOption result (reply.now ≡ Reply.Renewed record { 0 = next_handle self.now } → ⊥)
            (λ h. (h ≡ next_handle self.now) × (reply.now ≡ Reply.Renewed record { 0 = h })
            × (length self.now.issued < u32.MAX)) }
    {
        match reply {
            Reply::Renewed(h) => {
                if self.is_next_handle(h.0) {
                    Some(h.0)
                } else {
                    None
                }
            }
            _ => None,
        }
    }

    /// A held strong handle on a peer, in place of one that a restore removes. Answers `AllocError` where there is no
    /// memory; the part is then as before.
    pub(crate) fn renew(&mut self, peer: u32) -> Result<(), AllocError>
        requires { length self.old.issued < u32.MAX }
        ensures ok { OnOk result (self.new ≡ with_renewed self.old peer) }
        ensures err { OnErr result (self.new ≡ self.old) }
    {
        self.handles.push(Handle {
            peer,
            hold: IssuedHold::Held,
            strength: IssuedStrength::Strong,
        })?;
        Ok(())
    }
}
