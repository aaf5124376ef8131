// What the peer side's entries say of variables, global names and handles, as far as a log needs it. It is computed of
// events and replies alone.

ghost use Rattle.std.specs.Prelude.{◌≡◌, ◌+◌, ◌≤◌, [], ◌∷◌, Some, IfOk, length};
ghost use Rattle.joint_machine.specs.declared.events.Op.{Op};
ghost use Rattle.joint_machine.specs.Heaps.{numbered_at, place, slot};
ghost use Rattle.gref_log.specs.Log.{Change};
ghost use Rattle.gref_log.specs.Tracking.{after_line, listed, name_leaves, nothing_tracked, peer_at as peer_given};
ghost use Rattle.gref_log.specs.Tracking.{peer_or_none, tracked_after, tracked_changes, with_given, with_name};
ghost use Rattle.gref_log.specs.Tracking.{with_var};

use joint_model::{Act, HNum, Op, Reply, Thread, VARS};
use log_text::Mark;
use std::alloc::{AllocError, Global};
use std::marker::Model;

/// A handle that comes or goes.
#[derive(Clone, Copy)]
pub struct Move {
    pub mark: Mark,
    pub h: HNum,
}

/// The handles that come or go by one entry, in order.
#[derive(Clone, Copy)]
pub enum Moves {
    None,
    One(Move),
    Two(Move, Move),
}

/// A handle as it was given: on which peer, and whether strong.
#[derive(Clone, Copy)]
pub struct Given {
    pub peer: u32,
    pub strong: bool,
}

/// The peer that each variable of a peer thread names, the handle of each global name, and the handles that were given,
/// with room for more of them.
#[derive(Drop)]
pub struct Tracker {
    vars: [Option<u32>; VARS],
    names: [Option<u32>; 64],
    given: Vec<Given>,
}

impl Model for Tracker {
    ghost use Rattle.std.specs.Prelude.{◌-◌, ◌≤◌, vec_capacity, vec_len};
    ghost use Rattle.gref_log.specs.Tracking.{TrackedInRoom};
    ghost use Rattle.joint_machine.specs.Numbers.{u32_max};

    ghost Value = { TrackedInRoom };

    ghost view = { λ t. record {
      tracked = record { vars = t.vars; names = t.names; given = t.given.items };
      room = vec_capacity t.given - vec_len t.given;
    } };

    ghost invariant = { λ t. vec_capacity t.given ≤ u32_max };
}

#[inline(always)]
fn one(mark: Mark, h: HNum) -> Moves
    ensures { listed result ≡ record { mark = mark; handle = h.0 } ∷ [] }
{
    Moves::One(Move { mark, h })
}

#[inline(always)]
fn two(first: Mark, h: HNum, second: Mark, g: HNum) -> Moves
    ensures { listed result ≡ record { mark = first; handle = h.0 } ∷ record { mark = second; handle = g.0 } ∷ [] }
{
    Moves::Two(Move { mark: first, h }, Move { mark: second, h: g })
}

impl Tracker {
    /// Nothing was made yet, and there is room for so many handles, which takes no memory until they are given.
    /// `AllocError` where there is no memory for them, 8 bytes for each, or where they are more than numbers of 32
    /// bits.
    pub fn with_room(alloc: Global, most: u64) -> Result<Tracker, AllocError>
        ensures nothing { IfOk result (λ t. t.tracked ≡ nothing_tracked) }
        ensures room { IfOk result (λ t. most ≤ t.room) }
        ensures limit { IfOk result (λ _. most ≤ u32.MAX) }
    {
        if most > 4_294_967_295 {
            return Err(AllocError);
        }
        Ok(Tracker {
            vars: [None; VARS],
            names: [None; 64],
            given: Vec::with_capacity(alloc, most as usize)?,
        })
    }

    /// There are no more handles than numbers of 32 bits.
    pub fn recall_numbers_fit(&self)
        ensures { length self.now.tracked.given ≤ u32.MAX }
    {
        let _ = &self.given;
    }

    // The handle with that number, as it was given; None where there is none.
    #[inline(always)]
    fn given(&self, h: u32) -> Option<Given>
        ensures { result ≡ numbered_at self.now.tracked.given h }
    {
        if h == 0 {
            return None;
        }
        self.given.get(h as usize - 1).copied()
    }

    /// The peer that a handle was given on; 0 where there is no such handle.
    #[inline(always)]
    pub fn peer_of(&self, h: HNum) -> u32
        ensures { result ≡ peer_given self.now.tracked.given h.0 }
    {
        match self.given(h.0) {
            Some(given) => given.peer,
            None => 0,
        }
    }

    // The handle of a name goes, where it names one.
    fn leaves(&self, name: u8) -> Moves
        ensures { listed result ≡ name_leaves self.now.tracked.given (slot self.now.tracked.names name) }
    {
        let Some(Some(h)) = self.names.get(name as usize).copied() else {
            return Moves::None;
        };
        match self.given(h) {
            Some(given) if given.strong => one(Mark::GMinus, HNum(h)),
            Some(_) => one(Mark::WMinus, HNum(h)),
            None => Moves::None,
        }
    }

    /// The handles that come or go by an event with its reply.
    #[inline(always)]
    pub fn moves(&self, op: &Op, reply: &Reply) -> Moves
        ensures { listed result ≡ tracked_changes self.now.tracked op.now reply.now }
    {
        match (*op, *reply) {
            (Op::Make { .. }, Reply::Made(_, h)) => one(Mark::GPlus, h),
            (Op::Grip { .. }, Reply::Gripped(_, h, _, _)) => one(Mark::GPlus, h),
            (Op::Line(Act::Global { .. }), Reply::H(h)) => one(Mark::GPlus, h),
            (Op::Line(Act::WGlobal { .. }), Reply::H(h)) => one(Mark::WPlus, h),
            (Op::Line(Act::UnGlobal { g }), Reply::Ok) => self.leaves(g.0),
            (Op::Weaken { h }, Reply::Ok) => two(Mark::WPlus, h, Mark::GMinus, h),
            (Op::Restore { h }, Reply::Renewed(g)) => two(Mark::GPlus, g, Mark::WMinus, h),
            (Op::Restore { h }, Reply::Cleared) => one(Mark::WMinus, h),
            (Op::Release { h }, Reply::Ok) => one(Mark::GMinus, h),
            _ => Moves::None,
        }
    }

    // A handle was given on a peer. It takes no memory.
    #[inline(always)]
    fn give(&mut self, peer: u32, strong: bool)
        requires { 1 ≤ self.old.room }
        ensures given { self.new.tracked ≡ with_given self.old.tracked peer strong }
        ensures room { self.old.room ≤ self.new.room + 1 }
    {
        self.given.push_reserved(Given { peer, strong });
    }

    // A variable of a thread names a peer, or none.
    fn name_var(&mut self, thread: u8, v: u8, peer: Option<u32>)
        ensures var { self.new.tracked ≡ with_var self.old.tracked thread v peer }
        ensures room { self.new.room ≡ self.old.room }
    {
        let at = 8 * thread as usize + v as usize;
        if at < self.vars.len() {
            self.vars[at] = peer;
        }
    }

    // A name names a handle, or none.
    fn name(&mut self, name: u8, h: Option<u32>)
        ensures name { self.new.tracked ≡ with_name self.old.tracked name h }
        ensures room { self.new.room ≡ self.old.room }
    {
        let at = name as usize;
        if at < self.names.len() {
            self.names[at] = h;
        }
    }

    // A name names a new handle on a variable's peer.
    fn name_new(&mut self, thread: u8, v: u8, name: u8, h: u32, strong: bool)
        requires { 1 ≤ self.old.room }
        ensures named { self.new.tracked ≡ with_name
            (with_given self.old.tracked (peer_or_none (slot self.old.tracked.vars (place thread v))) strong) name
            (Some h) }
        ensures room { self.old.room ≤ self.new.room + 1 }
    {
        let at = 8 * thread as usize + v as usize;
        let peer = match self.vars.get(at).copied() {
            Some(Some(peer)) => peer,
            _ => 0,
        };
        self.give(peer, strong);
        self.name(name, Some(h));
    }

    // Notes a line of a peer thread with its reply.
    fn note_line(&mut self, thread: u8, act: Act, reply: Reply)
        requires { 1 ≤ self.old.room }
        ensures line { self.new.tracked ≡ after_line self.old.tracked thread act reply }
        ensures room { self.old.room ≤ self.new.room + 1 }
    {
        match (act, reply) {
            (Act::NewPeer { v, .. }, Reply::P(p)) => self.name_var(thread, v.0, Some(p.0)),
            (Act::Copy { v, .. }, Reply::P(p)) => self.name_var(thread, v.0, Some(p.0)),
            (Act::Get { v, .. }, Reply::P(p)) => self.name_var(thread, v.0, Some(p.0)),
            (Act::Load { v, .. }, Reply::P(p)) => self.name_var(thread, v.0, Some(p.0)),
            (Act::WRead { v, .. }, Reply::P(p)) => self.name_var(thread, v.0, Some(p.0)),
            (Act::Get { v, .. }, Reply::Null) => self.name_var(thread, v.0, None),
            (Act::Load { v, .. }, Reply::Null) => self.name_var(thread, v.0, None),
            (Act::Drop { v }, Reply::Ok) => self.name_var(thread, v.0, None),
            (Act::Global { g, v }, Reply::H(h)) => self.name_new(thread, v.0, g.0, h.0, true),
            (Act::WGlobal { g, v }, Reply::H(h)) => self.name_new(thread, v.0, g.0, h.0, false),
            (Act::UnGlobal { g }, Reply::Ok) => self.name(g.0, None),
            _ => {}
        }
    }

    /// Notes an event with its reply. It takes the room of one handle at most, and no memory.
    #[inline(always)]
    pub fn note(&mut self, caller: Thread, op: &Op, reply: &Reply)
        requires { 1 ≤ self.old.room }
        ensures event { self.new.tracked ≡ tracked_after self.old.tracked caller op.now reply.now }
        ensures room { self.old.room ≤ self.new.room + 1 }
    {
        match (*op, *reply) {
            (Op::Make { .. }, Reply::Made(p, _)) => self.give(p.0, true),
            (Op::Grip { .. }, Reply::Gripped(p, _, _, _)) => self.give(p.0, true),
            (Op::Restore { h }, Reply::Renewed(_)) => {
                let peer = self.peer_of(h);
                self.give(peer, true);
            }
            (Op::Line(act), reply) => match caller {
                Thread::P(thread) => self.note_line(thread, act, reply),
                Thread::M(_) | Thread::C => {}
            },
            _ => {}
        }
    }
}
