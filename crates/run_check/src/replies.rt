// Replies, and the lists that they name.

ghost use Rattle.std.specs.Prelude.{◌≡◌, ◌<◌, ◌≤◌, ◌↔◌, IsTrue, Some, length, slice_get};
ghost use Rattle.joint_laws.specs.Spans.{IsStretch};
ghost use Rattle.joint_machine.specs.Histories.{IsWithin, managed_numbers, peer_numbers, stretch};
ghost use Rattle.run_check.specs.Lists.{StandsInList};

use joint_model::{History, MNum, PNum, Reply, Span};
use managed_heap::ManagedSide;

// Whether two spans are the same.
fn is_same_span(a: Span, b: Span) -> bool
    ensures { IsTrue result ↔ (a ≡ b) }
{
    a.first == b.first && a.count == b.count
}

/// Whether two replies are the same.
pub(crate) fn is_same(a: &Reply, b: &Reply) -> bool
    ensures { IsTrue result ↔ (a.now ≡ b.now) }
{
    match *a {
        Reply::Ok => matches!(*b, Reply::Ok),
        Reply::Empty => matches!(*b, Reply::Empty),
        Reply::Range => matches!(*b, Reply::Range),
        Reply::Null => matches!(*b, Reply::Null),
        Reply::Taken => matches!(*b, Reply::Taken),
        Reply::Gone => matches!(*b, Reply::Gone),
        Reply::Unset => matches!(*b, Reply::Unset),
        Reply::Full => matches!(*b, Reply::Full),
        Reply::Plain => matches!(*b, Reply::Plain),
        Reply::NoMark => matches!(*b, Reply::NoMark),
        Reply::More => matches!(*b, Reply::More),
        Reply::Done => matches!(*b, Reply::Done),
        Reply::Cleared => matches!(*b, Reply::Cleared),
        Reply::M(x) => match *b {
            Reply::M(y) => x.0 == y.0,
            _ => false,
        },
        Reply::P(x) => match *b {
            Reply::P(y) => x.0 == y.0,
            _ => false,
        },
        Reply::H(x) => match *b {
            Reply::H(y) => x.0 == y.0,
            _ => false,
        },
        Reply::Renewed(x) => match *b {
            Reply::Renewed(y) => x.0 == y.0,
            _ => false,
        },
        Reply::New(x) => match *b {
            Reply::New(y) => x.0 == y.0,
            _ => false,
        },
        Reply::Twin(x) => match *b {
            Reply::Twin(y) => x.0 == y.0,
            _ => false,
        },
        Reply::Made(p, h) => match *b {
            Reply::Made(q, g) => p.0 == q.0 && h.0 == g.0,
            _ => false,
        },
        Reply::Gripped(p, h, sort, n) => match *b {
            Reply::Gripped(q, g, kind, m) => p.0 == q.0 && h.0 == g.0 && sort == kind && n == m,
            _ => false,
        },
        Reply::Pending(x) => match *b {
            Reply::Pending(y) => x.0 == y.0,
            _ => false,
        },
        Reply::Pinned(x) => match *b {
            Reply::Pinned(y) => x.0 == y.0,
            _ => false,
        },
        Reply::Mark(x) => match *b {
            Reply::Mark(y) => x.0 == y.0,
            _ => false,
        },
        Reply::MarkOpen(x) => match *b {
            Reply::MarkOpen(y) => x.0 == y.0,
            _ => false,
        },
        Reply::CycleOpen(x) => match *b {
            Reply::CycleOpen(y) => x.0 == y.0,
            _ => false,
        },
        Reply::At(x) => match *b {
            Reply::At(y) => x == y,
            _ => false,
        },
        Reply::Snapped(n, s) => match *b {
            Reply::Snapped(m, t) => n == m && is_same_span(s, t),
            _ => false,
        },
        Reply::Sccs(n, x) => match *b {
            Reply::Sccs(m, y) => n == m && x == y,
            _ => false,
        },
        Reply::Refs(x) => match *b {
            Reply::Refs(y) => x == y,
            _ => false,
        },
        Reply::Swept(j, s) => match *b {
            Reply::Swept(k, t) => j.0 == k.0 && is_same_span(s, t),
            _ => false,
        },
        Reply::Freed(s) => match *b {
            Reply::Freed(t) => is_same_span(s, t),
            _ => false,
        },
        Reply::Took(s) => match *b {
            Reply::Took(t) => is_same_span(s, t),
            _ => false,
        },
    }
}

// Whether the history's list of freed objects has at least `n`.
fn has_freed(h: &History, n: u32) -> bool
    ensures { IsTrue result ↔ (n ≤ length h.now.freed_managed) }
{
    n == 0 || h.freed_managed(n - 1).is_some()
}

// Whether that object stands at place `i` of the history's list of freed ones.
fn is_freed_at(h: &History, i: u32, m: MNum) -> bool
    ensures { IsTrue result ↔ (slice_get (managed_numbers h.now.freed_managed) i ≡ Some m.0) }
{
    match h.freed_managed(i) {
        None => false,
        Some(named) => named.0 == m.0,
    }
}

/// Whether the objects that were freed, from the place of a span on, are the ones that a history's freed list has
/// there.
pub(crate) fn freed_as_named(h: &History, freed: &[MNum], span: Span) -> bool
    requires within { span.first ≤ length freed.now }
    requires few { length freed.now ≤ u32.MAX }
    ensures { IsTrue result ↔ StandsInList (managed_numbers h.now.freed_managed) span (managed_numbers freed.now) }
{
    let many = freed.len() as u32;
    if !has_freed(h, many) {
        return false;
    }
    for i in span.first..many {
        if !is_freed_at(h, i, freed[i as usize]) {
            return false;
        }
    }
    true
}

// Whether the history's list of freed peers has at least `n`.
fn has_freed_peers(h: &History, n: u32) -> bool
    ensures { IsTrue result ↔ (n ≤ length h.now.freed_peers) }
{
    n == 0 || h.freed_peer(n - 1).is_some()
}

// Whether that peer stands at place `i` of the history's list of freed ones.
fn is_peer_freed_at(h: &History, i: u32, p: PNum) -> bool
    ensures { IsTrue result ↔ (slice_get (peer_numbers h.now.freed_peers) i ≡ Some p.0) }
{
    match h.freed_peer(i) {
        None => false,
        Some(named) => named.0 == p.0,
    }
}

/// The same of peers.
pub(crate) fn peers_as_named(h: &History, freed: &[PNum], span: Span) -> bool
    requires within { span.first ≤ length freed.now }
    requires few { length freed.now ≤ u32.MAX }
    ensures { IsTrue result ↔ StandsInList (peer_numbers h.now.freed_peers) span (peer_numbers freed.now) }
{
    let many = freed.len() as u32;
    if !has_freed_peers(h, many) {
        return false;
    }
    for i in span.first..many {
        if !is_peer_freed_at(h, i, freed[i as usize]) {
            return false;
        }
    }
    true
}

// Whether the history has at least `n` notices.
fn has_notices(h: &History, n: u32) -> bool
    ensures { IsTrue result ↔ (n ≤ length h.now.notices) }
{
    n == 0 || h.notice(n - 1).is_some()
}

// Whether the side's notice at place `i` is the history's.
fn is_notice_at(h: &History, side: &ManagedSide, i: u32) -> bool
    requires { i < length side.now.state.managed.notices }
    ensures { IsTrue result ↔ (slice_get
        (managed_numbers h.now.notices) i ≡ slice_get side.now.state.managed.notices i) }
{
    match (h.notice(i), side.notice(i)) {
        (Some(named), Some(queued)) => named.0 == queued.0,
        _ => false,
    }
}

/// Whether the notices that a span names are the ones that a history has there.
pub(crate) fn taken_as_named(h: &History, side: &ManagedSide, span: Span) -> bool
    requires within { IsWithin span (length side.now.state.managed.notices) }
    requires few { length side.now.state.managed.notices ≤ length side.now.state.managed.heap.freed }
    ensures { IsTrue result ↔ IsStretch (managed_numbers h.now.notices) span
        (stretch side.now.state.managed.notices span) }
{
    let _made = side.made();
    let _live = side.live();
    if !has_notices(h, span.first + span.count) {
        return false;
    }
    for i in span.first..span.first + span.count {
        if !is_notice_at(h, side, i) {
            return false;
        }
    }
    true
}
