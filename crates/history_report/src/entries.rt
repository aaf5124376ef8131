// The words of an entry's event and of its reply.

ghost use Rattle.std.specs.Prelude.{◌≡◌, ◌+◌, ◌≤◌, [], ◌∷◌, codes, decimal, length};
ghost use Rattle.byte_streams.specs.Drafts.{AddsText, AddsWords};
ghost use Rattle.bridge_script.specs.Words.{var_text, kind_text, sort_text, peer_static};
ghost use Rattle.history_report.specs.Report.{event_words, reply_words, managed_text, peer_text, handle_text, list_of};
ghost use Rattle.history_report.specs.Report.{head_text, tail_text, place_text};

use crate::candidates::CandidateLines;
use crate::lists::Numbers;
use crate::objects::{add_handle, add_managed, add_peer, add_phase};
use bridge_script::{
    add_act, add_kind, add_pass, add_peer_static, add_phase_word, add_sort, add_var,
    add_with_number, add_with_var,
};
use byte_streams::{Count, Line};
use joint_model::{
    EntryParts, HNum, Kind, MNum, Op, PNum, Reply, Sort, Span, StaticNo, Thread, Var,
};

// A word and a handle.
#[inline(always)]
fn add_with_handle<const N: usize>(line: &mut Line, word: [u8; N], h: HNum)
    requires { N + 23 ≤ line.old.room }
    ensures { AddsWords line.old line.new (word.entry ∷ handle_text h ∷ []) (N + 23) }
{
    line.word(word);
    add_handle(line, h);
}

// A handle whose number mostly comes in a row: those of a cycle's candidates are weakened and restored one after
// another. The count goes on at once to the number that comes next there: so its text is long written when that comes.
#[inline(always)]
fn add_next_handle(line: &mut Line, h: HNum, count: &mut Count)
    requires { 40 ≤ line.old.room }
    ensures { AddsText line.old line.new (32 ∷ handle_text h) 22 }
{
    let number = h.0 as u64;
    count.go_to(number);
    line.word(*b"h");
    line.count(count);
    count.go_to(number + 1);
}

// A word and a handle whose number mostly comes in a row.
#[inline(always)]
fn add_with_next_handle<const N: usize>(line: &mut Line, word: [u8; N], h: HNum, count: &mut Count)
    requires { N + 41 ≤ line.old.room }
    ensures { AddsWords line.old line.new (word.entry ∷ handle_text h ∷ []) (N + 23) }
{
    line.word(word);
    add_next_handle(line, h, count);
}

// `make SORT F`.
fn add_make(line: &mut Line, sort: Sort, fields: u8)
    requires { 50 ≤ line.old.room }
    ensures { AddsWords line.old line.new (codes "make" ∷ sort_text sort ∷ decimal fields ∷ []) 50 }
{
    line.word(*b"make");
    add_sort(line, sort);
    line.decimal(fields as u64);
}

// `adopt V KIND N p h`.
fn add_adopt(line: &mut Line, v: Var, kind: Kind, fields: u8, p: PNum, h: HNum)
    requires { 100 ≤ line.old.room }
    ensures { AddsWords line.old line.new
        (codes "adopt" ∷ var_text v ∷ kind_text kind ∷ decimal fields ∷ peer_text p ∷ handle_text h ∷ []) 100 }
{
    line.word(*b"adopt");
    add_var(line, v);
    add_kind(line, kind);
    line.decimal(fields as u64);
    add_peer(line, p);
    add_handle(line, h);
}

// `land h sX`.
fn add_land(line: &mut Line, h: HNum, x: StaticNo)
    requires { 60 ≤ line.old.room }
    ensures { AddsWords line.old line.new (codes "land" ∷ handle_text h ∷ peer_static x ∷ []) 60 }
{
    add_with_handle(line, *b"land", h);
    add_peer_static(line, x);
}

// `grip sX`.
fn add_grip(line: &mut Line, x: StaticNo)
    requires { 60 ≤ line.old.room }
    ensures { AddsWords line.old line.new (codes "grip" ∷ peer_static x ∷ []) 60 }
{
    line.word(*b"grip");
    add_peer_static(line, x);
}

// `meet V p h SORT F`.
fn add_meet(line: &mut Line, v: Var, p: PNum, h: HNum, sort: Sort, fields: u8)
    requires { 100 ≤ line.old.room }
    ensures { AddsWords line.old line.new
        (codes "meet" ∷ var_text v ∷ peer_text p ∷ handle_text h ∷ sort_text sort ∷ decimal fields ∷ []) 100 }
{
    line.word(*b"meet");
    add_var(line, v);
    add_peer(line, p);
    add_handle(line, h);
    add_sort(line, sort);
    line.decimal(fields as u64);
}

// The words of an event; an operation that is one event has its line's words behind the thread.
#[inline(always)]
fn add_event(line: &mut Line, thread: Thread, op: &Op, count: &mut Count)
    requires { 100 ≤ line.old.room }
    ensures { AddsWords line.old line.new (event_words thread op.now) 100 }
{
    match *op {
        Op::Line(act) => add_act(line, thread, &act),
        Op::Make { sort, fields } => add_make(line, sort, fields),
        Op::Adopt {
            v,
            kind,
            fields,
            p,
            h,
        } => add_adopt(line, v, kind, fields, p, h),
        Op::Lend { v, x } => add_pass(line, *b"lend", v, x),
        Op::Land { h, x } => add_land(line, h, x),
        Op::Grip { x } => add_grip(line, x),
        Op::Meet {
            v,
            p,
            h,
            sort,
            fields,
        } => add_meet(line, v, p, h, sort, fields),
        Op::Give { v } => add_with_var(line, *b"give", v),
        Op::Release { h } => add_with_handle(line, *b"release", h),
        Op::Snap { cycle } => add_with_number(line, *b"snap", cycle.0 as u64),
        Op::Contract { cycle } => add_with_number(line, *b"contract", cycle.0 as u64),
        Op::Mirror { cycle } => add_with_number(line, *b"mirror", cycle.0 as u64),
        Op::Weaken { h } => add_with_next_handle(line, *b"weaken", h, count),
        Op::Begin => line.word(*b"begin"),
        Op::Sweep => line.word(*b"sweep"),
        Op::Restore { h } => add_with_next_handle(line, *b"restore", h, count),
        Op::Clear { cycle } => add_with_number(line, *b"clear", cycle.0 as u64),
        Op::Resolve { cycle } => add_with_number(line, *b"resolve", cycle.0 as u64),
        Op::Abandon { cycle } => add_with_number(line, *b"abandon", cycle.0 as u64),
        Op::Refused { word } => {
            line.word(*b"refused");
            add_phase_word(line, word);
        }
    }
}

// A managed object and a word.
#[inline(always)]
fn add_with_managed<const N: usize>(line: &mut Line, m: MNum, word: [u8; N])
    requires room { 50 ≤ line.old.room }
    requires short { N ≤ 20 }
    ensures { AddsWords line.old line.new (managed_text m ∷ word.entry ∷ []) 50 }
{
    add_managed(line, m);
    line.word(word);
}

// A peer and a handle.
#[inline(always)]
fn add_made(line: &mut Line, p: PNum, h: HNum)
    requires { 50 ≤ line.old.room }
    ensures { AddsWords line.old line.new (peer_text p ∷ handle_text h ∷ []) 50 }
{
    add_peer(line, p);
    add_handle(line, h);
}

// A peer and a handle on it, with its sort and its number of fields.
fn add_gripped(line: &mut Line, p: PNum, h: HNum, sort: Sort, fields: u8)
    requires { 100 ≤ line.old.room }
    ensures { AddsWords line.old line.new (peer_text p ∷ handle_text h ∷ sort_text sort ∷ decimal fields ∷ []) 100 }
{
    add_made(line, p, h);
    add_sort(line, sort);
    line.decimal(fields as u64);
}

// A number and a word.
fn add_count<const N: usize>(line: &mut Line, n: u64, word: [u8; N])
    requires room { 50 ≤ line.old.room }
    requires short { N ≤ 20 }
    ensures { AddsWords line.old line.new (decimal n ∷ word.entry ∷ []) 50 }
{
    line.decimal(n);
    line.word(word);
}

// The numbers of components and of cross-references.
fn add_sccs(line: &mut Line, sccs: u32, xrefs: u32)
    requires { 100 ≤ line.old.room }
    ensures { AddsWords line.old line.new (decimal sccs ∷ codes "sccs" ∷ decimal xrefs ∷ codes "xrefs" ∷ []) 100 }
{
    add_count(line, sccs as u64, *b"sccs");
    add_count(line, xrefs as u64, *b"xrefs");
}

// The words of a reply before its list, which are all where it has none.
#[inline(always)]
fn add_reply(line: &mut Line, reply: &Reply, count: &mut Count)
    requires { 100 ≤ line.old.room }
    ensures { AddsWords line.old line.new (reply_words reply.now) 100 }
{
    match *reply {
        Reply::Ok => line.word(*b"ok"),
        Reply::Empty => line.word(*b"empty"),
        Reply::Range => line.word(*b"range"),
        Reply::Null => line.word(*b"null"),
        Reply::Taken => line.word(*b"taken"),
        Reply::Gone => line.word(*b"gone"),
        Reply::Unset => line.word(*b"unset"),
        Reply::Full => line.word(*b"full"),
        Reply::Plain => line.word(*b"plain"),
        Reply::NoMark => line.word(*b"nomark"),
        Reply::More => line.word(*b"more"),
        Reply::Done => line.word(*b"done"),
        Reply::Renewed(h) => {
            line.word(*b"alive");
            add_next_handle(line, h, count);
        }
        Reply::Cleared => line.word(*b"cleared"),
        Reply::M(m) => add_managed(line, m),
        Reply::P(p) => add_peer(line, p),
        Reply::H(h) => add_handle(line, h),
        Reply::New(m) => add_with_managed(line, m, *b"new"),
        Reply::Twin(m) => add_with_managed(line, m, *b"twin"),
        Reply::Made(p, h) => add_made(line, p, h),
        Reply::Gripped(p, h, sort, fields) => add_gripped(line, p, h, sort, fields),
        Reply::Pending(cycle) => add_with_number(line, *b"pending", cycle.0 as u64),
        Reply::Pinned(m) => {
            line.word(*b"pinned");
            add_managed(line, m);
        }
        Reply::Mark(marking) => line.decimal(marking.0 as u64),
        Reply::MarkOpen(marking) => add_with_number(line, *b"marking", marking.0 as u64),
        Reply::CycleOpen(cycle) => add_with_number(line, *b"open", cycle.0 as u64),
        Reply::At(phase) => {
            line.word(*b"at");
            add_phase(line, phase);
        }
        Reply::Snapped(count, _) => add_count(line, count as u64, *b"freed"),
        Reply::Sccs(sccs, xrefs) => add_sccs(line, sccs, xrefs),
        Reply::Refs(count) => add_count(line, count as u64, *b"refs"),
        Reply::Swept(marking, _) => add_count(line, marking.0 as u64, *b"freed"),
        Reply::Freed(_) => line.word(*b"freed"),
        Reply::Took(_) => {}
    }
}

/// Which list a reply shows, and which stretch of it.
pub fn list_of(reply: &Reply) -> Option<(Numbers, Span)>
    ensures { result ≡ list_of reply.now }
{
    match *reply {
        Reply::Snapped(_, span) | Reply::Freed(span) => Some((Numbers::Freed, span)),
        Reply::Swept(_, span) => Some((Numbers::FreedPeers, span)),
        Reply::Took(span) => Some((Numbers::Notices, span)),
        _ => None,
    }
}

/// The number that mostly comes next, that of the last entry's line, from which the next one's mostly follows; the
/// number that was cited last, whose text is kept once it is cited again; the handles that a cycle weakens and
/// restores in a row, and those that it gives; and the words of the lines that it has for each candidate.
#[derive(Drop)]
pub struct Counts {
    number: Count,
    index: Count,
    last_cited: u64,
    cited: Count,
    handles: Count,
    given: Count,
    pub(crate) candidates: CandidateLines,
}

impl Counts {
    /// The counts before the first entry.
    pub fn new() -> Counts {
        Counts {
            number: Count::of(0),
            index: Count::of(0),
            last_cited: 0,
            cited: Count::of(0),
            handles: Count::of(1),
            given: Count::of(1),
            candidates: CandidateLines::on(0),
        }
    }
}

/// The line of an entry up to its list: its number, who made it on which line, its event and its reply.
#[inline(always)]
pub fn add_head<E: EntryParts>(line: &mut Line, entry: &E, counts: &mut Counts)
    requires { 300 ≤ line.old.room }
    ensures { AddsText line.old line.new (head_text (E.entry entry.now)) 300 }
{
    let number = entry.number();
    counts.number.go_to(number);
    line.count(&counts.number);
    counts.number.go_to(number.saturating_add(1));
    add_place(line, entry.caller(), entry.index(), &mut counts.index);
    add_event(line, entry.caller(), entry.op(), &mut counts.handles);
    line.word(*b"=");
    add_reply(line, entry.reply(), &mut counts.given);
}

// Who made an entry, and on which line of the script.
#[inline(always)]
fn add_place(line: &mut Line, thread: Thread, index: u32, count: &mut Count)
    requires { 60 ≤ line.old.room }
    ensures { AddsWords line.old line.new (place_text thread index ∷ []) 50 }
{
    match thread {
        Thread::M(n) => line.lettered_before(b'm', n as u64, b'.'),
        Thread::P(n) => line.lettered_before(b'p', n as u64, b'.'),
        Thread::C => line.word(*b"c."),
    }
    count.go_to(index as u64);
    line.count(count);
}

// The entry that an entry cites. The weakenings of a cycle all cite its snapshot, whose text is then at hand.
#[inline(always)]
fn add_cited(line: &mut Line, number: u64, counts: &mut Counts)
    requires { 40 ≤ line.old.room }
    ensures { AddsText line.old line.new (32 ∷ 64 ∷ decimal number) 22 }
{
    if number != counts.last_cited {
        counts.last_cited = number;
        line.lettered(b'@', number);
        return;
    }
    counts.cited.go_to(number);
    line.word(*b"@");
    line.count(&counts.cited);
}

/// The end of an entry's line: the entry that it cites, where it cites one, and the newline.
#[inline(always)]
pub fn add_tail(line: &mut Line, cites: Option<u64>, counts: &mut Counts)
    requires { 50 ≤ line.old.room }
    ensures { AddsText line.old line.new (tail_text cites) 30 }
{
    if let Some(number) = cites {
        add_cited(line, number, counts);
    }
    line.text(b"\n");
}
