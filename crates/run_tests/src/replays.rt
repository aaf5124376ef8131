// A finished history, judged by the joint machine.

use joint_model::{Act, Entry, History, Op, Reply};
use joint_replay::{JointState, Verdict};
use run_check::{Finding, check};
use std::alloc::{AllocError, Global};
use std::process::Abort;

// Whether the entry is a step of the joint machine. What a cycle does between its snapshot and its end is none, but for
// the marking and the restores; nor is a read that is pending or finds its cell unset.
fn is_step(entry: &Entry) -> bool {
    match entry.made.op {
        Op::Line(Act::Read { .. } | Act::Await { .. }) => {
            !matches!(entry.made.reply, Reply::Pending(_) | Reply::Unset)
        }
        Op::Line(Act::Slice { .. }) | Op::Refused { .. } => false,
        Op::Contract { .. } | Op::Mirror { .. } | Op::Weaken { .. } | Op::Clear { .. } => false,
        _ => true,
    }
}

// The entry with a reply that its event doesn't have there: only a sweep that finds no open marking answers so.
fn otherwise(entry: &Entry) -> Entry {
    let mut made = entry.made;
    made.reply = match made.reply {
        Reply::NoMark => Reply::Ok,
        _ => Reply::NoMark,
    };
    Entry {
        number: entry.number,
        made,
    }
}

// Each step of the joint machine is lawful, also after an unlawful one, and what is no step isn't.
fn judge_entries(rt: &impl Abort, state: &mut JointState, h: &History) -> Result<(), AllocError> {
    for i in 0..h.len() {
        let Some(entry) = h.entry(i) else {
            unreachable!()
        };
        let other = state.judge(h, &otherwise(&entry))?;
        assert!(rt; other == Verdict::Unlawful, "entry {i} with another reply");
        let lawful = state.replay_step(h, i)? == Verdict::Lawful;
        assert!(rt; lawful == is_step(&entry), "entry {i}: {lawful}");
    }
    Ok(())
}

/// Judges a history entry by entry, and has it checked as a whole. Answers `AllocError` where memory is wanting.
pub(crate) fn replay(rt: &impl Abort, alloc: Global, h: &History) -> Result<(), AllocError> {
    let mut state = JointState::new(alloc)?;
    let judged = judge_entries(rt, &mut state, h);
    drop(state);
    judged?;
    let found = check(alloc, h)?;
    assert!(rt; found == Finding::Legal, "{found:?}");
    Ok(())
}
