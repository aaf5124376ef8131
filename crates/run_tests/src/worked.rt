// Worked scripts in line order, whose finished histories the joint machine judges to their end.

use crate::replays::replay;
use bridge_script::{Script, ScriptError, parse};
use joint_model::History;
use script_runs::run_serial;
use std::alloc::{AllocError, Global};
use std::process::Abort;
use std::sync::Wait;
use std::test::Fail;
use worked_texts::{SUBJECTS, parts_of, rows_of};

// The history of a script's run.
#[tactic(auto, using(script_runs::proofs::Runnable::can_run))]
fn run(rt: &impl Wait, alloc: Global, script: &Script) -> Result<History, AllocError> {
    run_serial(rt, alloc, script.lines())
}

/// The script that a text is.
pub(crate) fn script_of(rt: &impl Abort, alloc: Global, text: &[u8]) -> Result<Script, AllocError> {
    match parse(alloc, text) {
        Ok(script) => Ok(script),
        Err(error) => {
            assert!(rt; error == ScriptError::OutOfMemory, "no script");
            Err(AllocError)
        }
    }
}

/// The history of the run of a script's text.
pub(crate) fn history_of<R: Wait + Abort>(
    rt: &R,
    alloc: Global,
    text: &[u8],
) -> Result<History, AllocError> {
    let script = script_of(rt, alloc, text)?;
    run(rt, alloc, &script)
}

/// How many lines there are.
pub(crate) fn lines_of(text: &[u8]) -> u32 {
    let mut lines = 0u32;
    for byte in text {
        if *byte == b'\n' {
            lines = lines.wrapping_add(1);
        }
    }
    lines
}

// Runs a script, and has each entry judged: as many as its report has lines before the last one.
fn judge_script<R: Wait + Abort>(
    rt: &R,
    alloc: Global,
    text: &[u8],
    report: &[u8],
) -> Result<(), AllocError> {
    let h = history_of(rt, alloc, text)?;
    let entries = lines_of(report).wrapping_sub(1) as u64;
    assert!(rt; h.len() == entries, "{} entries", h.len());
    replay(rt, alloc, &h)
}

// Each row whose text is a script.
fn judge_rows<R: Wait + Abort>(rt: &R, alloc: Global, rows: &[u8]) -> Result<(), AllocError> {
    for row in rows.split(|b| *b == b'#') {
        if let Some((0, text, report)) = parts_of(row) {
            judge_script(rt, alloc, text, report)?;
        }
    }
    Ok(())
}

#[test]
fn a_finished_history_is_lawful_to_its_end(rt: HostRuntime) -> Result<(), Fail> {
    for subject in 0..SUBJECTS {
        judge_rows(&rt, rt.alloc(), rows_of(subject))?;
    }
    Ok(())
}
