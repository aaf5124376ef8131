// Tables of known scripts: how long they are, and some of their lines.

use joint_model::{Act, PhaseWord, StaticNo, Thread, Var};
use script_generator::generate;
use std::alloc::{AllocError, Global};
use std::test::Fail;

const LENGTHS: [(u64, u32, u32); 5] = [
    (3, 1, 6),
    (7, 0, 0),
    (0, 4, 27),
    (7, 2000, 13520),
    (u64::MAX, 2800, 18928),
];

const PEER: Act = Act::NewPeer {
    v: Var(0),
    fields: 1,
};

const STORE: Act = Act::Store {
    x: StaticNo(2),
    v: Some(Var(1)),
};

const CYCLE: Act = Act::PhaseLine {
    word: PhaseWord::Cycle,
};

// Of the script of a seed and a size, a line by its number; none where it has no such line.
const LINES: [(u64, u32, u32, Option<(Thread, Act)>); 6] = [
    // the third shape comes first
    (3, 1, 0, None),
    (3, 1, 1, Some((Thread::P(1), PEER))),
    (3, 1, 6, Some((Thread::P(1), Act::Drop { v: Var(1) }))),
    (3, 1, 7, None),
    // a family has its own static
    (u64::MAX, 4, 19, Some((Thread::M(3), STORE))),
    (u64::MAX, 2800, 18928, Some((Thread::C, CYCLE))),
];

// The place of the first script that has another length.
fn other_length(alloc: Global) -> Result<Option<usize>, AllocError> {
    for (i, (seed, size, wanted)) in LENGTHS.as_slice().iter().enumerate() {
        if *size > 2800 || generate(alloc, *seed, *size)?.len() != *wanted {
            return Ok(Some(i));
        }
    }
    Ok(None)
}

// The place of the first line that is another one.
fn other_line(alloc: Global) -> Result<Option<usize>, AllocError> {
    for (i, (seed, size, n, wanted)) in LINES.as_slice().iter().enumerate() {
        if *size > 2800 || generate(alloc, *seed, *size)?.line(*n) != *wanted {
            return Ok(Some(i));
        }
    }
    Ok(None)
}

#[test]
fn known_scripts_have_their_lengths_and_lines(rt: HostRuntime) -> Result<(), Fail> {
    assert_eq!(rt; other_length(rt.alloc())?, None);
    assert_eq!(rt; other_line(rt.alloc())?, None);
    Ok(())
}
