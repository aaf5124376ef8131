// What other threads do between two phases of a cycle, in each of its seven gaps: lines are put into a gap, the script
// is run in line order, and what these lines answer and what comes of the cycle is compared with what the rules give.
// Each whole history is judged entry by entry too.

use crate::replays::replay;
use crate::worked::{history_of, lines_of};
use byte_streams::ByteSink;
use history_report::write_report;
use joint_model::{Entry, History, Op, Thread};
use std::alloc::{AllocError, Global};
use std::process::Abort;
use std::sync::Wait;
use std::test::Fail;

// The phases of a cycle: gap 1 comes behind the first of them, gap 7 behind the last but one.
const PHASES: [&[u8]; 8] = [
    b"c snap\n",
    b"c contract\n",
    b"c mirror\n",
    b"c weaken\n",
    b"c mark\n",
    b"c sweep\n",
    b"c restore\n",
    b"c resolve\n",
];

// The lines before a cycle, and those behind it.
type Around = (&'static [u8], &'static [u8]);

// Lines that are put in; the first and the last gap that they are put into, into each by itself; what they answer; and
// the rest, which is the cycle's own sweep, its resolution, and what the lines behind it answer. Numbers of entries and
// lines and citations are left out.
type Row = (&'static [u8], u16, u16, &'static [u8], &'static [u8]);

const COLLECT: &[u8] = b"p1 collect\n";

const BEGIN: &[u8] = b"p1 begin\n";

const BEGIN_AND_SLICE: &[u8] = b"p1 begin\np1 slice 1\n";

const SLICES: &[u8] = b"p1 begin\np1 slice 9\np1 sweep\n";

const WREAD: &[u8] = b"p1 wread b G0\n";

const WREAD_AND_DROP: &[u8] = b"p1 wread b G0\np1 drop b\n";

const WREAD_AND_STORE: &[u8] = b"p1 wread b G0\np1 store s3 b\np1 drop b\n";

const READ: &[u8] = b"m1 read k0\n";

// What p1's lines are answered: where its marking is the first or the second, and what that frees; or where the
// driver's own is open.
const COLLECTED: &[u8] = b"p1 begin = 1\np1 sweep = 1 freed -\n";

const COLLECTED_SECOND: &[u8] = b"p1 begin = 2\np1 sweep = 2 freed -\n";

const PAIR_COLLECTED: &[u8] = b"p1 begin = 1\np1 sweep = 1 freed p1 p2\n";

const PAIRS_COLLECTED: &[u8] = b"p1 begin = 1\np1 sweep = 1 freed p1 p2 p3 p4\n";

const BEGUN: &[u8] = b"p1 begin = 1\n";

const BEGUN_SECOND: &[u8] = b"p1 begin = 2\n";

const BEGIN_REFUSED: &[u8] = b"p1 begin = marking 1\n";

// So it is with slices: a slice of one, which has more to do or nothing, and one of nine before a sweep.
const SLICED_ONE: &[u8] = b"p1 begin = 1\np1 slice 1 = more\n";

const SLICED_ALL: &[u8] = b"p1 begin = 1\np1 slice 1 = done\n";

const SLICED_SECOND: &[u8] = b"p1 begin = 2\np1 slice 1 = done\n";

const SLICE_REFUSED: &[u8] = b"p1 begin = marking 1\np1 slice 1 = marking 1\n";

const SLICES_COLLECTED: &[u8] = b"p1 begin = 1\np1 slice 9 = done\np1 sweep = 1 freed -\n";

const SLICES_COLLECTED_PAIR: &[u8] = b"p1 begin = 1\np1 slice 9 = done\np1 sweep = 1 freed p1 p2\n";

const SLICES_COLLECTED_SECOND: &[u8] = b"p1 begin = 2\np1 slice 9 = done\np1 sweep = 2 freed -\n";

const SLICES_REFUSED: &[u8] =
    b"p1 begin = marking 1\np1 slice 9 = marking 1\np1 sweep = marking 1\n";

// What the weak name gives while its peer is there, and once it is gone.
const FOUND: &[u8] = b"p1 wread b G0 = p1\n";

const GONE: &[u8] = b"p1 wread b G0 = gone\n";

const FOUND_AND_DROPPED: &[u8] = b"p1 wread b G0 = p1\np1 drop b = ok\n";

const GONE_AND_DROPPED: &[u8] = b"p1 wread b G0 = gone\np1 drop b = ok\n";

const FOUND_AND_STORED: &[u8] = b"p1 wread b G0 = p1\np1 store s3 b = ok\np1 drop b = ok\n";

const GONE_AND_STORED: &[u8] = b"p1 wread b G0 = gone\np1 store s3 b = empty\np1 drop b = ok\n";

// A read of the cell while the cycle is open.
const PENDING: &[u8] = b"m1 read k0 = pending 1\n";

// A pair of objects of which the first leads to the second. The cell k0 names the second one, the weak name G0 the
// first one's peer, and nothing holds them. So both are candidates, and the mirror has one reference, from p1 to p2.
// Before `weaken` their handles hold both peers. From then until the cycle's own begin what a peer thread names is
// held, by that reference p2 too. While the own marking is open a peer that G0 gives is brought back, with what it
// leads to, and stays though it is let go of. Once the sweep was made both are gone, or stay. A marking that p1 leaves
// open is ended by the driver before its own begins.
const PAIR: Around = (
    b"m1 bridge a bridge 1 user 0
m1 bridge b bridge 1 user 0
m1 set a 0 b
m1 weak k0 b
m1 pass a s0
p1 load a s0
p1 wglobal G0 a
p1 drop a
p1 store s0 -
m1 drop a
m1 drop b
",
    b"m1 read k0\n",
);

const FREED: &[u8] = b"c sweep = 1 freed p1 p2
c resolve 1 = freed m1 m2
m1 read k0 = gone
";

// A marking of p1 was the first.
const FREED_SECOND: &[u8] = b"c sweep = 2 freed p1 p2
c resolve 1 = freed m1 m2
m1 read k0 = gone
";

// A marking of p1 was the first, and freed both peers.
const FREED_BEFORE: &[u8] = b"c sweep = 2 freed -
c resolve 1 = freed m1 m2
m1 read k0 = gone
";

// A marking that p1 left open was ended by the driver, and freed neither peer, or both.
const FREED_AFTER: &[u8] = b"c sweep = 1 freed -
c sweep = 2 freed p1 p2
c resolve 1 = freed m1 m2
m1 read k0 = gone
";

const FREED_AT_ONCE: &[u8] = b"c sweep = 1 freed p1 p2
c sweep = 2 freed -
c resolve 1 = freed m1 m2
m1 read k0 = gone
";

const KEPT: &[u8] = b"c sweep = 1 freed -
c resolve 1 = freed -
m1 read k0 = m2
";

const PAIR_ROWS: [Row; 24] = [
    (COLLECT, 1, 3, COLLECTED, FREED_SECOND),
    (COLLECT, 4, 4, PAIR_COLLECTED, FREED_BEFORE),
    (COLLECT, 5, 5, BEGIN_REFUSED, FREED),
    (COLLECT, 6, 7, COLLECTED_SECOND, FREED),
    (BEGIN, 1, 3, BEGUN, FREED_AFTER),
    (BEGIN, 4, 4, BEGUN, FREED_AT_ONCE),
    (BEGIN, 5, 5, BEGIN_REFUSED, FREED),
    (BEGIN, 6, 7, BEGUN_SECOND, FREED),
    (BEGIN_AND_SLICE, 1, 3, SLICED_ONE, FREED_AFTER),
    (BEGIN_AND_SLICE, 4, 4, SLICED_ALL, FREED_AT_ONCE),
    (BEGIN_AND_SLICE, 5, 5, SLICE_REFUSED, FREED),
    (BEGIN_AND_SLICE, 6, 7, SLICED_SECOND, FREED),
    (SLICES, 1, 3, SLICES_COLLECTED, FREED_SECOND),
    (SLICES, 4, 4, SLICES_COLLECTED_PAIR, FREED_BEFORE),
    (SLICES, 5, 5, SLICES_REFUSED, FREED),
    (SLICES, 6, 7, SLICES_COLLECTED_SECOND, FREED),
    (WREAD, 1, 5, FOUND, KEPT),
    (WREAD, 6, 7, GONE, FREED),
    (WREAD_AND_DROP, 1, 4, FOUND_AND_DROPPED, FREED),
    (WREAD_AND_DROP, 5, 5, FOUND_AND_DROPPED, KEPT),
    (WREAD_AND_DROP, 6, 7, GONE_AND_DROPPED, FREED),
    (WREAD_AND_STORE, 1, 5, FOUND_AND_STORED, KEPT),
    (WREAD_AND_STORE, 6, 7, GONE_AND_STORED, FREED),
    (READ, 1, 7, PENDING, FREED),
];

// A second pair, m3 and m4 with p3 and p4, that nothing names but the cell k1: whatever is done to the first one, it
// dies in this cycle. It is read first, since a read that finds an object pins it, and the next one would answer that.
const TWO_PAIRS: Around = (
    b"m1 bridge a bridge 1 user 0
m1 bridge b bridge 1 user 0
m1 set a 0 b
m1 weak k0 b
m1 pass a s0
p1 load a s0
p1 wglobal G0 a
p1 drop a
p1 store s0 -
m1 drop a
m1 drop b
m1 bridge c bridge 1 user 0
m1 bridge d bridge 1 user 0
m1 set c 0 d
m1 weak k1 d
m1 drop c
m1 drop d
",
    b"m1 read k1
m1 read k0
",
);

const ALL_FREED: &[u8] = b"c sweep = 1 freed p1 p2 p3 p4
c resolve 1 = freed m1 m2 m3 m4
m1 read k1 = gone
m1 read k0 = gone
";

const ALL_FREED_SECOND: &[u8] = b"c sweep = 2 freed p1 p2 p3 p4
c resolve 1 = freed m1 m2 m3 m4
m1 read k1 = gone
m1 read k0 = gone
";

const ALL_FREED_BEFORE: &[u8] = b"c sweep = 2 freed -
c resolve 1 = freed m1 m2 m3 m4
m1 read k1 = gone
m1 read k0 = gone
";

const ALL_FREED_AFTER: &[u8] = b"c sweep = 1 freed -
c sweep = 2 freed p1 p2 p3 p4
c resolve 1 = freed m1 m2 m3 m4
m1 read k1 = gone
m1 read k0 = gone
";

const ALL_FREED_AT_ONCE: &[u8] = b"c sweep = 1 freed p1 p2 p3 p4
c sweep = 2 freed -
c resolve 1 = freed m1 m2 m3 m4
m1 read k1 = gone
m1 read k0 = gone
";

const FIRST_KEPT: &[u8] = b"c sweep = 1 freed p3 p4
c resolve 1 = freed m3 m4
m1 read k1 = gone
m1 read k0 = m2
";

const TWO_PAIRS_ROWS: [Row; 16] = [
    (COLLECT, 1, 3, COLLECTED, ALL_FREED_SECOND),
    (COLLECT, 4, 4, PAIRS_COLLECTED, ALL_FREED_BEFORE),
    (COLLECT, 5, 5, BEGIN_REFUSED, ALL_FREED),
    (COLLECT, 6, 7, COLLECTED_SECOND, ALL_FREED),
    (BEGIN, 1, 3, BEGUN, ALL_FREED_AFTER),
    (BEGIN, 4, 4, BEGUN, ALL_FREED_AT_ONCE),
    (BEGIN, 5, 5, BEGIN_REFUSED, ALL_FREED),
    (BEGIN, 6, 7, BEGUN_SECOND, ALL_FREED),
    (WREAD, 1, 5, FOUND, FIRST_KEPT),
    (WREAD, 6, 7, GONE, ALL_FREED),
    (WREAD_AND_DROP, 1, 4, FOUND_AND_DROPPED, ALL_FREED),
    (WREAD_AND_DROP, 5, 5, FOUND_AND_DROPPED, FIRST_KEPT),
    (WREAD_AND_DROP, 6, 7, GONE_AND_DROPPED, ALL_FREED),
    (WREAD_AND_STORE, 1, 5, FOUND_AND_STORED, FIRST_KEPT),
    (WREAD_AND_STORE, 6, 7, GONE_AND_STORED, ALL_FREED),
    (READ, 1, 7, PENDING, ALL_FREED),
];

// The pair again, but a field of p1 leads to p2.
const FIELD: Around = (
    b"m1 bridge a bridge 1 user 1
m1 bridge b bridge 1 user 1
m1 set a 0 b
m1 weak k0 b
m1 pass a s0
m1 pass b s1
p1 load a s0
p1 load b s1
p1 set a 0 b
p1 wglobal G0 a
p1 drop a
p1 drop b
p1 store s0 -
p1 store s1 -
m1 drop a
m1 drop b
",
    b"m1 read k0\n",
);

// m1 meets what the static s0 holds.
const SURFACE: &[u8] = b"m1 surface c s0\n";

const STORE_AND_SURFACE: &[u8] = b"p1 wread b G0\np1 store s0 b\np1 drop b\nm1 surface c s0\n";

// p1 moves what the field of the dead peer holds into a static, and lets that peer go; or cuts the field.
const STORE_FIELD: &[u8] = b"p1 wread b G0\np1 get c b 0\np1 store s1 c\np1 drop b\np1 drop c\n";

const CUT_FIELD: &[u8] = b"p1 wread b G0\np1 set b 0 -\np1 drop b\n";

const NOTHING_MET: &[u8] = b"m1 grip s0 = null\n";

const MEETING_PENDS: &[u8] = b"p1 wread b G0 = p1
p1 store s0 b = ok
p1 drop b = ok
m1 grip s0 = p1 h4 user 1
m1 meet c p1 h4 user 1 = pending 1
m1 release h4 = ok
";

const GONE_UNMET: &[u8] = b"p1 wread b G0 = gone
p1 store s0 b = empty
p1 drop b = ok
m1 grip s0 = null
";

const FIELD_MOVED: &[u8] = b"p1 wread b G0 = p1
p1 get c b 0 = p2
p1 store s1 c = ok
p1 drop b = ok
p1 drop c = ok
";

const FIELD_GONE: &[u8] = b"p1 wread b G0 = gone
p1 get c b 0 = empty
p1 store s1 c = empty
p1 drop b = ok
p1 drop c = ok
";

const FIELD_CUT: &[u8] = b"p1 wread b G0 = p1\np1 set b 0 - = ok\np1 drop b = ok\n";

const FIELD_UNCUT: &[u8] = b"p1 wread b G0 = gone\np1 set b 0 - = empty\np1 drop b = ok\n";

const FIRST_FREED: &[u8] = b"c sweep = 1 freed p1
c resolve 1 = freed m1
m1 read k0 = m2
";

// A meeting while a cycle is open is pending, and the handle that it took, the fourth, goes again. The static then
// holds p1 and, by its field, p2. Once p2 is held by a static of its own, nothing holds p1 and m1 any more, and m2
// leads to neither: they go alone, but for a marking that is open, in which both peers were brought back. The same
// holds of a field that is cut.
const FIELD_ROWS: [Row; 9] = [
    (SURFACE, 1, 7, NOTHING_MET, FREED),
    (STORE_AND_SURFACE, 1, 5, MEETING_PENDS, KEPT),
    (STORE_AND_SURFACE, 6, 7, GONE_UNMET, FREED),
    (STORE_FIELD, 1, 4, FIELD_MOVED, FIRST_FREED),
    (STORE_FIELD, 5, 5, FIELD_MOVED, KEPT),
    (STORE_FIELD, 6, 7, FIELD_GONE, FREED),
    (CUT_FIELD, 1, 4, FIELD_CUT, FREED),
    (CUT_FIELD, 5, 5, FIELD_CUT, KEPT),
    (CUT_FIELD, 6, 7, FIELD_UNCUT, FREED),
];

// The pair is held from afar: m2 has an object m3 whose peer p3 leads to p1.
const HELD: Around = (
    b"m1 bridge a bridge 1 user 0
m1 bridge b bridge 1 user 0
m1 set a 0 b
m1 weak k0 b
m2 bridge a bridge 1 user 1
m1 pass a s0
m2 pass a s1
p1 load a s0
p1 load b s1
p1 set b 0 a
p1 drop a
p1 drop b
p1 store s0 -
p1 store s1 -
m1 drop a
m1 drop b
",
    b"m1 read k0\n",
);

const DISPOSE: &[u8] = b"m2 dispose a\n";

const DISPOSED: &[u8] = b"m2 give a = h3\nm2 release h3 = ok\n";

const ALL_PEERS_FREED: &[u8] = b"c sweep = 1 freed p1 p2 p3
c resolve 1 = freed m1 m2
m1 read k0 = gone
";

// Once m3 has given its handle up, nothing holds p3, and with it the pair goes. At the begin of the own marking p3
// still was a root; m3 itself stays in its variable.
const HELD_ROWS: [Row; 2] = [
    (DISPOSE, 1, 4, DISPOSED, ALL_PEERS_FREED),
    (DISPOSE, 5, 7, DISPOSED, KEPT),
];

// The script with lines in a gap.
fn script_at(alloc: Global, around: Around, lines: &[u8], gap: u16) -> Result<Vec<u8>, AllocError> {
    let (before, behind) = around;
    let mut text = before.to_vec(alloc)?;
    let mut place = 0u16;
    for phase in &PHASES {
        text.extend_from_slice(phase)?;
        place = place.wrapping_add(1);
        if place == gap {
            text.extend_from_slice(lines)?;
        }
    }
    text.extend_from_slice(behind)?;
    Ok(text)
}

// Puts a caller without the number of its script line: `p1` of `p1.12`.
fn put_caller(text: &mut Vec<u8>, word: &[u8]) -> Result<(), AllocError> {
    for byte in word {
        if *byte == b'.' {
            break;
        }
        text.push(*byte)?;
    }
    Ok(())
}

// Puts a line of a report without its number, that of its script line, and its citation: `p1 begin = 1`.
fn put_line(text: &mut Vec<u8>, line: &[u8]) -> Result<(), AllocError> {
    let mut words = line.split(|b| *b == b' ');
    let _number = words.next();
    if let Some(caller) = words.next() {
        put_caller(text, caller)?;
    }
    for word in words {
        if word.first() != Some(&b'@') {
            text.push(b' ')?;
            text.extend_from_slice(word)?;
        }
    }
    text.push(b'\n')?;
    Ok(())
}

// Whether an entry tells what comes of a cycle: its sweep, its resolution, or one of a line behind it.
fn is_rest(entry: &Entry, last: u32) -> bool {
    match entry.made.op {
        Op::Sweep => entry.made.caller == Thread::C,
        Op::Resolve { .. } => true,
        _ => last < entry.made.index,
    }
}

// Puts the replies of the lines between the first and the last phase of a cycle, but for those of the driver; and what
// comes of the cycle.
fn put_seen(
    h: &History,
    report: &[u8],
    first: u32,
    last: u32,
    replies: &mut Vec<u8>,
    rest: &mut Vec<u8>,
) -> Result<(), AllocError> {
    let mut number = 0u64;
    for line in report.split(|b| *b == b'\n') {
        let Some(entry) = h.entry(number) else { break };
        number = number.wrapping_add(1);
        if is_rest(&entry, last) {
            put_line(rest, line)?;
        } else if first < entry.made.index && entry.made.caller != Thread::C {
            put_line(replies, line)?;
        }
    }
    Ok(())
}

// Compares what was seen of lines in a gap.
fn expect_text(rt: &impl Abort, lines: &[u8], gap: u16, found: &[u8], wanted: &[u8]) {
    assert_eq!(rt; found, wanted, "{lines:?} in gap {gap}");
}

// Compares what is seen of a history in which the lines of a row stand in a gap.
fn expect_seen<R: Abort>(
    rt: &R,
    alloc: Global,
    h: &History,
    before: u32,
    row: &Row,
    gap: u16,
) -> Result<(), AllocError> {
    let mut out = ByteSink::new(alloc, 4096, Vec::new(alloc));
    if write_report(h, &mut out).is_err() {
        return Err(AllocError);
    }
    let last = before.wrapping_add(lines_of(row.0)).wrapping_add(8);
    let mut replies = Vec::new(alloc);
    let mut rest = Vec::new(alloc);
    put_seen(h, out.bytes(), before, last, &mut replies, &mut rest)?;
    expect_text(rt, row.0, gap, &replies, row.3);
    expect_text(rt, row.0, gap, &rest, row.4);
    Ok(())
}

// The history of the run of a script with lines in a gap.
fn history_at<R: Wait + Abort>(
    rt: &R,
    alloc: Global,
    around: Around,
    lines: &[u8],
    gap: u16,
) -> Result<History, AllocError> {
    let text = script_at(alloc, around, lines, gap)?;
    history_of(rt, alloc, &text)
}

// Runs the script of a row in one of its gaps.
fn judge_gap<R: Wait + Abort>(
    rt: &R,
    alloc: Global,
    around: Around,
    row: &Row,
    gap: u16,
) -> Result<(), AllocError> {
    let h = history_at(rt, alloc, around, row.0, gap)?;
    expect_seen(rt, alloc, &h, lines_of(around.0), row, gap)?;
    replay(rt, alloc, &h)
}

// Runs it in each of them.
fn judge_row<R: Wait + Abort>(
    rt: &R,
    alloc: Global,
    around: Around,
    row: &Row,
) -> Result<(), AllocError> {
    for gap in row.1..row.2.wrapping_add(1) {
        judge_gap(rt, alloc, around, row, gap)?;
    }
    Ok(())
}

#[test]
fn lines_in_each_gap_of_a_cycle_answer_by_the_rules(rt: HostRuntime) -> Result<(), Fail> {
    for row in &PAIR_ROWS {
        judge_row(&rt, rt.alloc(), PAIR, row)?;
    }
    for row in &TWO_PAIRS_ROWS {
        judge_row(&rt, rt.alloc(), TWO_PAIRS, row)?;
    }
    for row in &FIELD_ROWS {
        judge_row(&rt, rt.alloc(), FIELD, row)?;
    }
    for row in &HELD_ROWS {
        judge_row(&rt, rt.alloc(), HELD, row)?;
    }
    Ok(())
}
