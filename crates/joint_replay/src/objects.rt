// The objects of the managed part: how they are made, met and disposed of.

ghost use Rattle.std.specs.Prelude.{◌≡◌, ◌+◌, ◌<◌, ◌↔◌, false, IsTrue, IfOk, OnErr, OnOk, Some, None};
ghost use Rattle.joint_machine.specs.Heaps.{answer, is_full, with_var};
ghost use Rattle.joint_machine.specs.Managed.{made_new, adopted, handle_reply, given_up, met, twin_met, twin_kind};
ghost use Rattle.joint_machine.specs.Managed.{twin_fields, without_handle, with_row};
ghost use Rattle.joint_replay.specs.Judging.{Decides, Gives};

use crate::managed::{ManagedPart, names_cycle, names_object};
use crate::replies::Refusal;
use crate::state::Verdict;
use joint_model::{Kind, Reply, Sort, VARS};
use std::alloc::AllocError;

impl ManagedPart {
    /// `new`: a further object without a handle, which the variable at place `v` names.
    pub(crate) fn make(
        &mut self,
        v: usize,
        kind: Kind,
        fields: u8,
        reply: &Reply,
    ) -> Result<Verdict, AllocError>
        requires { v < VARS }
        ensures ok { IfOk result (λ d. Decides
            (Gives (made_new self.old v kind fields) reply.now) d self.old self.new) }
        ensures err { OnErr result (self.new ≡ self.old) }
    {
        if self.heap.is_full() {
            return Ok(Verdict::of(Refusal::Full.is_said(reply)));
        }
        if !names_object(reply, self.heap.made() + 1) {
            return Ok(Verdict::Unlawful);
        }
        self.add_row(v, kind, fields, None)?;
        Ok(Verdict::Lawful)
    }

    /// `adopt`: a further object that holds the handle, which the variable at place `v` names. Answers `AllocError`
    /// where there is no memory; the part is then as before.
    pub(crate) fn adopt(
        &mut self,
        v: usize,
        kind: Kind,
        fields: u8,
        h: u32,
        reply: &Reply,
    ) -> Result<Verdict, AllocError>
        requires { v < VARS }
        ensures ok { IfOk result (λ d. Decides
            (Gives (adopted self.old v kind fields h) reply.now) d self.old self.new) }
        ensures err { OnErr result (self.new ≡ self.old) }
    {
        if self.heap.is_full() {
            return Ok(Verdict::of(Refusal::Full.is_said(reply)));
        }
        if !names_object(reply, self.heap.made() + 1) {
            return Ok(Verdict::Unlawful);
        }
        self.add_row(v, kind, fields, Some(h))?;
        Ok(Verdict::Lawful)
    }

    // A further object of that kind, which holds a handle or none, and which the variable at place `v` names.
    fn add_row(
        &mut self,
        v: usize,
        kind: Kind,
        fields: u8,
        h: Option<u32>,
    ) -> Result<(), AllocError>
        requires v { v < VARS }
        requires room { is_full self.old.heap.fields ≡ false }
        ensures ok { OnOk result (self.new ≡ with_row self.old v kind fields h) }
        ensures err { OnErr result (self.new ≡ self.old) }
    {
        self.kinds.reserve(1)?;
        self.held.reserve(1)?;
        self.heap.add_named(v, fields)?;
        self.kinds.push_reserved(kind);
        self.held.push_reserved(h);
        Ok(())
    }

    /// `meet`: the variable at place `v` names the twin of a peer, or a new one that holds handle `h`. Answers
    /// `AllocError` where there is no memory; the part is then as before.
    pub(crate) fn meet(
        &mut self,
        v: usize,
        h: u32,
        sort: Sort,
        fields: u8,
        twin: Option<u32>,
        reply: &Reply,
    ) -> Result<Verdict, AllocError>
        requires { v < VARS }
        ensures ok { IfOk result (λ d. Decides
            (Gives (met self.old v h sort fields twin) reply.now) d self.old self.new) }
        ensures err { OnErr result (self.new ≡ self.old) }
    {
        if let Some(open) = &self.cycle {
            return Ok(Verdict::of(names_cycle(reply, open.number())));
        }
        match twin {
            None => self.make_twin(v, h, sort, fields, reply),
            Some(m) => Ok(self.name_twin(v, m, reply)),
        }
    }

    // A new twin that holds handle `h`.
    fn make_twin(
        &mut self,
        v: usize,
        h: u32,
        sort: Sort,
        fields: u8,
        reply: &Reply,
    ) -> Result<Verdict, AllocError>
        requires { v < VARS }
        ensures ok { IfOk result (λ d. Decides
            (Gives (twin_met self.old v h sort fields None) reply.now) d self.old self.new) }
        ensures err { OnErr result (self.new ≡ self.old) }
    {
        if self.heap.is_full() {
            return Ok(Verdict::of(Refusal::Full.is_said(reply)));
        }
        if !names_new(reply, self.heap.made() + 1) {
            return Ok(Verdict::Unlawful);
        }
        self.add_row(v, twin_kind(sort), twin_fields(sort, fields), Some(h))?;
        Ok(Verdict::Lawful)
    }

    // The variable at place `v` names the twin that there is.
    fn name_twin(&mut self, v: usize, m: u32, reply: &Reply) -> Verdict
        requires { v < VARS }
        ensures { Decides (Gives (answer (Reply.Twin record { 0 = m })
            (record self.old { heap = with_var self.old.heap v (Some m) })) reply.now) result self.old self.new }
    {
        if !names_twin(reply, m) {
            return Verdict::Unlawful;
        }
        self.heap.set_var(v, Some(m));
        Verdict::Lawful
    }

    /// Whether the reply is that of a call that names the handle of the object of the variable at place `v`.
    pub(crate) fn says_handle(&self, v: usize, reply: &Reply) -> bool
        requires { v < VARS }
        ensures { IsTrue result ↔ (reply.now ≡ handle_reply self.now v) }
    {
        let Some(x) = self.heap.var(v) else {
            return Refusal::Empty.is_said(reply);
        };
        match self.handle(x) {
            None => Refusal::Plain.is_said(reply),
            Some(h) => match reply {
                Reply::H(said) => said.0 == h,
                _ => false,
            },
        }
    }

    /// `give`: the object of the variable at place `v` gives its handle up.
    pub(crate) fn give(&mut self, v: usize, reply: &Reply) -> Verdict
        requires { v < VARS }
        ensures { Decides (Gives (given_up self.old v) reply.now) result self.old self.new }
    {
        if !self.says_handle(v, reply) {
            return Verdict::Unlawful;
        }
        if let Some(x) = self.heap.var(v) {
            self.drop_handle(x);
        }
        Verdict::Lawful
    }

    // The object holds no handle any more.
    fn drop_handle(&mut self, x: u32)
        ensures { self.new ≡ without_handle self.old (Some x) }
    {
        if x != 0 && x as usize <= self.held.len() {
            self.held[x as usize - 1] = None;
        }
    }
}

// Whether the reply names managed object `x` as a new twin.
fn names_new(reply: &Reply, x: u32) -> bool
    ensures { IsTrue result ↔ (reply.now ≡ Reply.New record { 0 = x }) }
{
    match reply {
        Reply::New(m) => m.0 == x,
        _ => false,
    }
}

// Whether the reply names managed object `x` as the twin that there is.
fn names_twin(reply: &Reply, x: u32) -> bool
    ensures { IsTrue result ↔ (reply.now ≡ Reply.Twin record { 0 = x }) }
{
    match reply {
        Reply::Twin(m) => m.0 == x,
        _ => false,
    }
}

// The kind of the twin that is made for a peer of that sort.
fn twin_kind(sort: Sort) -> Kind
    ensures { result ≡ twin_kind sort }
{
    match sort {
        Sort::User => Kind::Bridge,
        Sort::Framework => Kind::LeafBridge,
    }
}

// How many fields the twin has that is made for a peer of that sort with so many fields.
fn twin_fields(sort: Sort, fields: u8) -> u8
    ensures { result ≡ twin_fields sort fields }
{
    match sort {
        Sort::User => fields,
        Sort::Framework => 0,
    }
}
