// Objects that are made, the handles that they hold, and the registry of the peers' twins.

ghost use Rattle.std.specs.Prelude.{◌≡◌, ℕ, ◌+◌, ◌<◌, ◌≤◌, List, ◌++◌, ◌∷◌, [], Some, None, IfOk, OnOk, OnErr, IfSome};
ghost use Rattle.std.specs.Prelude.{length, true};
ghost use Rattle.joint_machine.specs.Heaps.{IsLive, MOST, answer, is_full, next_number, slot, with_object, with_var};
ghost use Rattle.instance_registry.specs.Pairs.{PeersDistinct};
ghost use Rattle.joint_machine.specs.Managed.{handle_of, handle_reply, made_new, twin_fields, twin_kind, with_row};
ghost use Rattle.joint_machine.specs.ManagedReplay.{registered, with_twin};
ghost use Rattle.managed_heap.specs.Rows.{RowsInvariant, number_or_none, with_adopted};
ghost use Rattle.managed_heap.specs.Steps.{by_adopt, by_meet};
ghost use Rattle.managed_heap.specs.TwinEvents.{adopt_at, give_at, give_row, handle_said, left_by, meet_at};

use crate::rows::{Header, ManagedRows};
use instance_registry::Registry;
use joint_model::{HNum, Kind, MNum, PNum, Reply, Sort, VARS};
use row_heap::RowHeap;
use std::alloc::AllocError;

impl ManagedRows {
    // A further object that stands in no pair, which the variable names. Answers `AllocError`, with the rows as before,
    // where there is no memory.
    fn add_row(
        &mut self,
        v: usize,
        kind: Kind,
        fields: u8,
        handle: Option<u32>,
    ) -> Result<u32, AllocError>
        requires v { v < VARS }
        requires few { length self.old.managed.heap.fields < MOST }
        ensures number { IfOk result (λ x. x ≡ next_number self.old.managed.heap) }
        ensures ok { OnOk result (self.new ≡ record self.old
            { managed = with_row self.old.managed v kind fields handle }) }
        ensures err { OnErr result (self.new ≡ self.old) }
    {
        self.heap.recall_marks_len();
        let held = Header {
            kind,
            handle,
            peer: None,
        };
        let x = add_object(&mut self.heap, &mut self.headers, v, fields, held)?;
        Ok(x)
    }

    /// `new`: a further object without a handle, which the variable names. Answers `AllocError`, with the rows as
    /// before, where there is no memory.
    pub(crate) fn make(&mut self, v: usize, kind: Kind, fields: u8) -> Result<Reply, AllocError>
        requires { v < VARS }
        ensures answer { IfOk result (λ r. made_new self.old.managed v kind fields ≡ answer r self.new.managed) }
        ensures rest { self.new ≡ record self.old { managed = self.new.managed } }
        ensures err { OnErr result (self.new ≡ self.old) }
    {
        if self.heap.is_full() {
            return Ok(Reply::Full);
        }
        let x = self.add_row(v, kind, fields, None)?;
        Ok(Reply::M(MNum(x)))
    }

    /// The handle that a live object holds.
    pub(crate) fn handle(&self, x: u32) -> Option<u32>
        requires live { IsLive self.now.managed.heap x }
        requires kept { RowsInvariant self.now }
        ensures { handle_of self.now.managed x ≡ result }
    {
        self.headers[x as usize - 1].handle
    }

    /// The handle of V's object, as `handle`, `lend` and `give` answer it.
    pub(crate) fn handle_at(&self, v: usize) -> Reply
        requires v { v < VARS }
        requires kept { RowsInvariant self.now }
        ensures { handle_reply self.now.managed v ≡ result }
    {
        match self.heap.var(v) {
            None => Reply::Empty,
            Some(x) => match self.handle(x) {
                None => Reply::Plain,
                Some(h) => Reply::H(HNum(h)),
            },
        }
    }

    /// The object that the registry has as the twin of a peer.
    pub(crate) fn twin(&self, p: PNum) -> Option<MNum>
        ensures { registered self.now.registry p.0 ≡ number_or_none result }
    {
        self.registry.twin(p)
    }

    // A further object that holds the handle, which the variable names, and which the registry has as the twin of the
    // peer. Answers `AllocError`, with the rows as before, where there is no memory.
    fn add_twin(
        &mut self,
        v: usize,
        kind: Kind,
        fields: u8,
        p: PNum,
        h: HNum,
    ) -> Result<u32, AllocError>
        requires v { v < VARS }
        requires few { length self.old.managed.heap.fields < MOST }
        requires alone { registered self.old.registry p.0 ≡ None }
        requires kept { RowsInvariant self.old }
        ensures number { IfOk result (λ x. x ≡ next_number self.old.managed.heap) }
        ensures ok { OnOk result (self.new ≡ record self.old {
          managed = with_row self.old.managed v kind fields (Some h.0);
          registry = self.old.registry ++ (p.0, next_number self.old.managed.heap) ∷ [];
        }) }
        ensures err { OnErr result (self.new ≡ self.old) }
    {
        self.heap.recall_marks_len();
        let next = self.heap.made() + 1;
        self.registry.add(p, MNum(next))?;
        let held = Header {
            kind,
            handle: Some(h.0),
            peer: Some(p.0),
        };
        match add_object(&mut self.heap, &mut self.headers, v, fields, held) {
            Err(error) => {
                self.registry.forget(p);
                Err(error)
            }
            Ok(x) => Ok(x),
        }
    }

    // A further object that holds the handle, which the variable names: the twin of the peer, if the peer has none.
    // Answers `AllocError`, with the rows as before, where there is no memory.
    fn add_adopted(
        &mut self,
        v: usize,
        kind: Kind,
        fields: u8,
        p: PNum,
        h: HNum,
    ) -> Result<u32, AllocError>
        requires v { v < VARS }
        requires few { length self.old.managed.heap.fields < MOST }
        requires kept { RowsInvariant self.old }
        ensures number { IfOk result (λ x. x ≡ next_number self.old.managed.heap) }
        ensures ok { OnOk result (self.new ≡ record self.old {
          managed = with_row self.old.managed v kind fields (Some h.0);
          registry = with_twin
              self.old.registry p.0 (next_number self.old.managed.heap) (registered self.old.registry p.0);
        }) }
        ensures err { OnErr result (self.new ≡ self.old) }
    {
        match self.twin(p) {
            None => self.add_twin(v, kind, fields, p, h),
            Some(_) => self.add_row(v, kind, fields, Some(h.0)),
        }
    }

    /// `adopt`: a further object that holds the handle, which the variable names; it is the peer's twin, if the peer
    /// has none. Answers `AllocError`, with the rows as before, where there is no memory.
    pub(crate) fn adopt(
        &mut self,
        v: usize,
        kind: Kind,
        fields: u8,
        p: PNum,
        h: HNum,
    ) -> Result<Reply, AllocError>
        requires v { v < VARS }
        requires kept { RowsInvariant self.old }
        ensures answer { IfOk result (λ r. (hs : List ℕ)
            → adopt_at (with_adopted self.old hs) v kind fields p h ≡ answer r
            (with_adopted self.new (hs ++ by_adopt h r))) }
        ensures err { OnErr result (self.new ≡ self.old) }
    {
        if self.heap.is_full() {
            return Ok(Reply::Full);
        }
        let x = self.add_adopted(v, kind, fields, p, h)?;
        Ok(Reply::M(MNum(x)))
    }

    // `meet` of a peer without a twin while no cycle is open: a new twin, unless there is no room. Answers
    // `AllocError`, with the rows as before, where there is no memory.
    fn meet_new(
        &mut self,
        v: usize,
        p: PNum,
        h: HNum,
        sort: Sort,
        fields: u8,
    ) -> Result<Reply, AllocError>
        requires v { v < VARS }
        requires none { self.old.managed.cycle ≡ None }
        requires alone { registered self.old.registry p.0 ≡ None }
        requires kept { RowsInvariant self.old }
        ensures answer { IfOk result (λ r. (hs : List ℕ)
            → meet_at (with_adopted self.old hs) v p h sort fields None ≡ answer r
            (with_adopted self.new (hs ++ by_meet h r))) }
        ensures err { OnErr result (self.new ≡ self.old) }
    {
        if self.heap.is_full() {
            return Ok(Reply::Full);
        }
        let x = self.add_twin(v, kind_of(sort), fields_of(sort, fields), p, h)?;
        Ok(Reply::New(MNum(x)))
    }

    // `meet` while no cycle is open: the variable names the peer's twin. Answers `AllocError`, with the rows as before,
    // where there is no memory for a new one.
    fn meet_now(
        &mut self,
        v: usize,
        p: PNum,
        h: HNum,
        sort: Sort,
        fields: u8,
    ) -> Result<Reply, AllocError>
        requires v { v < VARS }
        requires none { self.old.managed.cycle ≡ None }
        requires kept { RowsInvariant self.old }
        ensures answer { IfOk result (λ r. (hs : List ℕ)
            → meet_at (with_adopted self.old hs) v p h sort fields
            (registered self.old.registry p.0) ≡ answer r (with_adopted self.new (hs ++ by_meet h r))) }
        ensures err { OnErr result (self.new ≡ self.old) }
    {
        match self.twin(p) {
            None => self.meet_new(v, p, h, sort, fields),
            Some(m) => {
                self.heap.set_var(v, Some(m.0));
                Ok(Reply::Twin(m))
            }
        }
    }

    /// `meet`: pending while a cycle is open; else the variable names the peer's twin, or a new one that holds the
    /// handle. Answers `AllocError`, with the rows as before, where there is no memory.
    pub(crate) fn meet(
        &mut self,
        v: usize,
        p: PNum,
        h: HNum,
        sort: Sort,
        fields: u8,
    ) -> Result<Reply, AllocError>
        requires v { v < VARS }
        requires kept { RowsInvariant self.old }
        ensures answer { IfOk result (λ r. (hs : List ℕ)
            → meet_at (with_adopted self.old hs) v p h sort fields
            (registered self.old.registry p.0) ≡ answer r (with_adopted self.new (hs ++ by_meet h r))) }
        ensures err { OnErr result (self.new ≡ self.old) }
    {
        match self.open_cycle() {
            None => self.meet_now(v, p, h, sort, fields),
            Some(cycle) => Ok(Reply::Pending(cycle)),
        }
    }

    // A live object gives its handle up, and leaves the registry.
    fn give_row(&mut self, x: u32) -> Reply
        requires live { IsLive self.old.managed.heap x }
        requires kept { RowsInvariant self.old }
        ensures { give_row self.old x ≡ answer result self.new }
    {
        let held = self.headers[x as usize - 1];
        leave(&mut self.registry, held.peer);
        self.headers[x as usize - 1] = Header {
            kind: held.kind,
            handle: None,
            peer: None,
        };
        handle_said(held.handle)
    }

    /// `give V`: V's object gives its handle up.
    pub(crate) fn give(&mut self, v: usize) -> Reply
        requires v { v < VARS }
        requires kept { RowsInvariant self.old }
        ensures { give_at self.old v ≡ answer result self.new }
    {
        match self.heap.var(v) {
            None => Reply::Empty,
            Some(x) => self.give_row(x),
        }
    }
}

// Adds an object with so many fields, which the variable names, and what stands beside it. Answers `AllocError` where
// there is no memory; all is then as before.
#[inline(always)]
fn add_object(
    heap: &mut RowHeap<MNum>,
    headers: &mut Vec<Header>,
    v: usize,
    fields: u8,
    held: Header,
) -> Result<u32, AllocError>
    requires v { v < VARS }
    requires few { length heap.old.heap.fields < MOST }
    ensures number { IfOk result (λ x. x ≡ next_number heap.old.heap) }
    ensures heap { OnOk result (heap.new ≡ record heap.old {
      heap = with_var (with_object heap.old.heap fields) v (Some (next_number heap.old.heap));
      marks = heap.old.marks ++ true ∷ [];
      links = heap.old.links ++ 0 ∷ [];
    }) }
    ensures headers { OnOk result (headers.new.items ≡ headers.old.items ++ held ∷ []) }
    ensures err { OnErr result ((heap.new ≡ heap.old) × (headers.new.items ≡ headers.old.items)) }
{
    headers.reserve(1)?;
    let x = heap.add_object(fields)?;
    heap.set_var(v, Some(x));
    headers.push_reserved(held);
    Ok(x)
}

// Takes the pair of a peer out, if there is one.
fn leave(registry: &mut Registry, peer: Option<u32>)
    ensures pairs { registry.new ≡ left_by registry.old peer }
    ensures distinct { (p : ℕ) → peer ≡ Some p → PeersDistinct registry.old }
{
    if let Some(p) = peer {
        let _distinct = registry.len();
        registry.forget(PNum(p));
    }
}

// The reply that tells of an object's handle.
fn handle_said(handle: Option<u32>) -> Reply
    ensures { result ≡ handle_said handle }
{
    match handle {
        None => Reply::Plain,
        Some(h) => Reply::H(HNum(h)),
    }
}

// The kind of the twin that is made for a peer of that sort.
fn kind_of(sort: Sort) -> Kind
    ensures { result ≡ twin_kind sort }
{
    match sort {
        Sort::User => Kind::Bridge,
        Sort::Framework => Kind::LeafBridge,
    }
}

// The number of fields of the twin that is made for a peer of that sort, which has so many itself.
fn fields_of(sort: Sort, fields: u8) -> u8
    ensures { result ≡ twin_fields sort fields }
{
    match sort {
        Sort::User => fields,
        Sort::Framework => 0,
    }
}
