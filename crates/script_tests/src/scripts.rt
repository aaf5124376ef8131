// Scripts and sources by worked examples and at their limits. What is compared stands in tables, which one loop reads
// each.

use crate::comparing::{expect_at, expect_text};
use bridge_script::{ScriptError, parse, read_script, script_text};
use byte_streams::{ByteSource, PlainSource, Source};
use std::alloc::Global;
use std::test::Fail;

const LINKED: &[u8] =
    b"m1 bridge a bridge 1 user 0\nm1 bridge b bridge 1 user 0\nm1 set a 0 b\nm1 drop b\nc cycle\nm1 drop a\nc cycle\n";

// A thousand times the number of a text's first faulty line and the number of its cause; 0 where it is a script.
fn fault(alloc: Global, text: &[u8]) -> u64 {
    match parse(alloc, text) {
        Ok(_) => 0,
        Err(ScriptError::Refused(fault)) => {
            fault.line as u64 * 1000 + fault.cause.number() as u64
        }
        Err(_) => u64::MAX,
    }
}

// In each row the number of a line's first cause, 0 where it has none, and the line.
const CAUSES: &[u8] = b"0 m8 drop h
0 m5 set a 10 a
0 m4 set h 255 -
0 m1 bridge h bridge 16 user 16
0 m7 bridge a leafbridge 0 framework 16
0 c cycle
0 m1 new a plain 16
0 m1 new a leaf 0
0 m1 load a g15
0 m1 store g0 -
0 m1 weak k63 a
0 m1 pass a s15
0 p1 drop a
0 p8 new h 16
0 p1 global G0 a
0 p1 wread a G63
0 p1 collect
0 p1 begin
0 p1 slice 1
0 p8 slice 65535
0 p1 sweep
0 c finalise 65535
1 m1
1 m1\x20
1  m1 drop a
1 m1  drop a
1 m0 drop a
1 m9 drop a
1 m01 drop a
1 m18446744073709551617 drop a
1 c1 cycle
1 m1 cycle
1 m1 Drop a
1 m1 global G0 a
1 m1 collect
1 m1 finalise 1
1 m1 begin
1 m1 slice 1
1 c slice 1
1 p1 bridge a bridge 1 user 0
1 p1 handle a
1 c begin
1 c drop a
2 m1 drop
2 m1 drop a\x20
2 m1 drop i j
2 m1 set a  0 b
2 m1 bridge a bridge 1 user
2 m1 bridge a bridge 1 user 0 0
2 c cycle cycle
2 c finalise
2 m1 new a plain
2 p1 new a plain 0
2 p1 collect a
2 p1 begin 1
2 p1 slice
2 p1 sweep 1
3 m1 drop\x20
3 m1 drop i
3 m1 drop -
3 m1 drop ab
3 m1 set a x i
3 m1 set a 256 i
3 m1 bridge - leaf x sort 17
3 m1 new i plain 007
3 m1 load a g16
3 m1 load a g00
3 m1 load a s0
3 m1 load a g
3 p1 load a s16
3 p1 load a s015
3 p1 load a g0
3 p1 load a\x20
3 m1 pass a g0
3 p1 unglobal G64
3 p1 unglobal g0
3 p1 unglobal G1x
3 m1 read k64
3 m1 wait K0
3 m1 weak k-1 a
3 p1 copy a -
4 m1 set a  b
4 m1 set a 01 b
4 m1 set a +1 b
4 m1 set a 18446744073709551616 b
4 m1 bridge a plain x user 17
4 m1 bridge a bridge 17 user x
4 m1 new a plain 007
4 p1 new a x
4 c finalise 065535
4 p1 slice 01
5 m1 set a 256 b
5 m1 set a 18446744073709551615 b
5 m1 bridge a bridge 16 user 17
5 m1 bridge a plain 17 user 0
5 m1 bridge a bridge 17 framework 0
5 m1 new a leaf 17
5 p1 new a 17
5 p1 get a b 256
5 c finalise 0
5 c finalise 65536
5 p1 slice 0
5 p1 slice 65536
6 m1 bridge a plain 0 user 0
6 m1 bridge a  0 user 0
6 m1 bridge a bridge 0 users 0
6 m1 bridge a bridge 0 framework 0
6 m1 bridge a leafbridge 1 user 0
6 m1 new a leaf 1
6 m1 new a bridge 0
6 m1 new a leafbridge 0
";

#[test]
fn each_line_has_its_first_cause(rt: HostRuntime) {
    for row in CAUSES.split(|b| *b == b'\n') {
        let [cause, _, line @ ..] = row else {
            continue;
        };
        let wanted = cause.saturating_sub(b'0') as u64;
        expect_at(&rt, row, fault(rt.alloc(), line) % 1000, wanted);
    }
}

// A text: a line so many times, then so many bytes `x`, then an end. And a thousand times the number of its first
// faulty line and the number of the cause.
type Faulty = (&'static [u8], usize, usize, &'static [u8], u64);

// Texts with few lines, and texts at the limits of a script.
const FAULTS: [Faulty; 22] = [
    (b"", 0, 0, b"", 0),
    (b"", 0, 0, b"m1 drop a", 0),
    (b"", 0, 0, b"\n", 1_001),
    (b"m1 drop h\n", 1, 0, b"m1 set a 255 -", 0),
    (b"c cycle\n", 1, 0, b"\n", 2_001),
    (b"m1 drop i\n", 1, 0, b"m1 drop a\n\n", 1_003),
    (b"m1 drop a\n", 1, 0, b"m1 drop  a\nx", 2_002),
    (b"m1 drop a\n", 3, 0, b"m1 jump a\nm1 drop i\n", 4_001),
    (b"m1 drop a\n", 20_000, 0, b"", 0),
    (b"m1 drop a\n", 20_001, 0, b"", 20_001_008),
    (b"m1 drop a\n", 20_000, 1, b"\n", 20_001_008),
    (b"m1 drop a\n", 20_000, 8_188_609, b"", 20_001_009),
    (b"c cycle\n", 256, 0, b"m1 drop a", 0),
    (b"c cycle\n", 257, 0, b"", 257_007),
    (b"c cycle\n", 256, 0, b"c cycle", 257_007),
    (b"c cycle\n", 256, 0, b"c cycle a", 257_002),
    (b"c cycle\n", 256, 0, b"c snap", 257_007),
    (b"c snap\n", 256, 0, b"c resolve", 0),
    (b"", 0, 8_388_607, b"\n", 1_001),
    (b"", 0, 8_388_607, b"\nm1 drop i\n", 1_001),
    (b"", 0, 8_388_608, b"", 1_001),
    (b"", 0, 8_388_608, b"\n", 1_009),
];

#[test]
fn the_first_faulty_line_is_named(rt: HostRuntime) -> Result<(), Fail> {
    for (line, often, filler, end, wanted) in &FAULTS {
        let mut text = Vec::new(rt.alloc());
        for _ in 0..*often {
            text.extend_from_slice(line)?;
        }
        text.extend_from_slice(&vec![in rt.alloc(); b'x'; *filler]?)?;
        text.extend_from_slice(end)?;
        expect_at(&rt, end, fault(rt.alloc(), &text), *wanted);
    }
    Ok(())
}

// Scripts in which each line has its newline, the last with every operation.
const SCRIPTS: [&[u8]; 4] = [
    b"",
    LINKED,
    b"m8 bridge h leafbridge 0 framework 16\nm2 set a 255 -\nc cycle\nm3 bridge a leafbridge 0 user 0\n",
    b"m1 new a plain 16\nm2 new b leaf 0\nm3 bridge c bridge 1 user 2\nm4 copy d e\nm5 set f 3 g\nm6 get h a 255\nm7 drop b\nm8 load c g15\nm1 store g0 -\nm1 store g1 d\nm2 weak k0 e\nm3 read k63\nm4 wait k1\nm5 take f\nm6 pass g s2\nm7 surface h s3\nm8 dispose a\nm1 handle b\np1 new a 16\np2 set b 0 -\np3 get c d 1\np4 copy e f\np5 drop g\np6 load h s15\np7 store s0 a\np8 global G0 b\np1 wglobal G63 c\np2 unglobal G1\np3 wread d G2\np4 collect\np5 begin\np6 slice 1\np7 slice 65535\np5 sweep\nc cycle\nc snap\nc contract\nc mirror\nc weaken\nc mark\nc sweep\nc restore\nc resolve\nc finalise 65535\n",
];

#[test]
fn a_script_is_printed_back(rt: HostRuntime) -> Result<(), Fail> {
    for text in SCRIPTS {
        let script = parse(rt.alloc(), text)?;
        expect_text(&rt, script_text(rt.alloc(), &script)?.as_bytes(), text);
        expect_at(
            &rt,
            text,
            script.line(1).is_some() as u64,
            !script.is_empty() as u64,
        );
    }
    Ok(())
}

#[test]
fn a_source_is_read_to_one_byte_past_the_limit(rt: HostRuntime) -> Result<(), Fail> {
    let mut source = PlainSource::new(vec![in rt.alloc(); b'x'; 8_388_700]?);
    assert!(rt; read_script(rt.alloc(), &mut source).is_err());
    let mut rest = [0u8; 100];
    assert!(rt; source.read(&mut rest) == Ok(91));
    Ok(())
}

// Three lines of 51 bytes together: a piece of 16 KiB ends within a line, the first three each at another place.
const LINES: &[u8] = b"m1 bridge a bridge 1 user 0\nm1 set a 0 b\nm1 drop b\n";

#[test]
fn a_line_in_two_pieces_is_read_as_one(rt: HostRuntime) -> Result<(), Fail> {
    let mut text = Vec::new(rt.alloc());
    for _ in 0..1_000 {
        text.extend_from_slice(LINES)?;
    }
    let mut source = PlainSource::new(text.as_slice().to_vec(rt.alloc())?);
    let script = read_script(rt.alloc(), &mut source)?;
    expect_text(&rt, script_text(rt.alloc(), &script)?.as_bytes(), &text);
    Ok(())
}

#[test]
fn a_source_that_fails_gives_no_script(rt: HostRuntime) -> Result<(), Fail> {
    for call in 1..4u32 {
        let text = LINKED.to_vec(rt.alloc())?;
        let mut source = ByteSource::new(text, [call].to_vec(rt.alloc())?);
        let found = match read_script(rt.alloc(), &mut source) {
            Ok(script) => script.len() as u64,
            Err(ScriptError::ReadFault) => 0,
            Err(_) => u64::MAX,
        };
        expect_at(&rt, &[], found, if call < 3 { 0 } else { 7 });
    }
    Ok(())
}
