// Drawn scripts over all threads and all operations, the lines of each thread in a thread of their own.

ghost use Rattle.std.specs.Prelude.{◌<◌, ◌≤◌};

use crate::replays::replay;
use crate::worked::script_of;
use bridge_script::{Script, Turnstile};
use joint_model::{History, Thread};
use script_runs::run_threads;
use std::alloc::{AllocError, Global};
use std::process::Abort;
use std::sync::Wait;
use std::sync::atomic::{AtomicU64, Ordering};
use std::test::Fail;
use std::thread;
use std::thread::Threads;

// How many short scripts are drawn, how many lines a long one has, and how many scripts are run at a time.
const SCRIPTS: usize = 200;

const LONG: usize = 2_000;

const AT_ONCE: usize = 4;

// What a managed thread does: `?` stands for one of two variables, and `#` for 0 or 1. What others build on is drawn
// more often.
const MANAGED: [&[u8]; 26] = [
    b"new ? plain #",
    b"new ? leaf 0",
    b"bridge ? bridge 1 user #",
    b"bridge ? bridge 1 user 1",
    b"bridge ? bridge 2 user 2",
    b"bridge ? bridge 2 user 2",
    b"bridge ? leafbridge 0 user #",
    b"bridge ? leafbridge 0 framework #",
    b"copy ? ?",
    b"set ? # ?",
    b"set ? 0 ?",
    b"set ? # -",
    b"get ? ? #",
    b"drop ?",
    b"load ? g#",
    b"store g# ?",
    b"store g# -",
    b"weak k# ?",
    b"read k#",
    b"wait k#",
    b"take ?",
    b"pass ? s#",
    b"pass ? s#",
    b"surface ? s#",
    b"dispose ?",
    b"handle ?",
];

// What a peer thread does.
const PEER: [&[u8]; 21] = [
    b"new ? #",
    b"new ? 2",
    b"new ? 2",
    b"copy ? ?",
    b"set ? # ?",
    b"set ? 0 ?",
    b"set ? # -",
    b"get ? ? #",
    b"drop ?",
    b"load ? s#",
    b"load ? s#",
    b"store s# ?",
    b"store s# -",
    b"global G# ?",
    b"wglobal G# ?",
    b"unglobal G#",
    b"wread ? G#",
    b"collect",
    b"begin",
    b"slice 1#",
    b"sweep",
];

// What the driver does: the phases of a cycle in their order, and what else there is.
const DRIVER: [&[u8]; 10] = [
    b"snap",
    b"contract",
    b"mirror",
    b"weaken",
    b"mark",
    b"sweep",
    b"restore",
    b"resolve",
    b"cycle",
    b"finalise 1#",
];

// Numbers that are drawn, each from the one before.
#[derive(Drop)]
struct Draws {
    state: u64,
}

impl Draws {
    // A number below `most`.
    fn below(&mut self, most: u8) -> u8
        requires { 1 ≤ most }
        ensures { result < most }
    {
        self.state = self
            .state
            .wrapping_mul(6_364_136_223_846_793_005)
            .wrapping_add(1_442_695_040_888_963_407);
        ((self.state >> 33) % most as u64) as u8
    }
}

// Puts a line last: a form with a variable for each `?` and a number for each `#`.
fn put_form(text: &mut Vec<u8>, draws: &mut Draws, form: &[u8]) -> Result<(), AllocError> {
    for byte in form {
        let shown = match *byte {
            b'?' => b'a' + draws.below(2),
            b'#' => b'0' + draws.below(2),
            other => other,
        };
        text.push(shown)?;
    }
    text.push(b'\n')?;
    Ok(())
}

// Puts a line of the driver last: the phase after the last one that was drawn so, or in one of three lines any.
fn put_driver_line(
    text: &mut Vec<u8>,
    draws: &mut Draws,
    phases: &mut usize,
) -> Result<(), AllocError> {
    text.extend_from_slice(b"c ")?;
    if draws.below(3) == 0 {
        let word = draws.below(10) as usize;
        return put_form(text, draws, DRIVER[word]);
    }
    let next = *phases % 8;
    *phases = next + 1;
    put_form(text, draws, DRIVER[next])
}

// Puts a line of a thread last, one of so many of each heap, or a line of the driver.
fn put_line(
    text: &mut Vec<u8>,
    draws: &mut Draws,
    threads: u8,
    phases: &mut usize,
) -> Result<(), AllocError>
    requires { (1 ≤ threads) × (threads ≤ 8) }
{
    let heap = draws.below(5);
    if heap == 0 {
        return put_driver_line(text, draws, phases);
    }
    let is_managed = heap < 3;
    text.push(if is_managed { b'm' } else { b'p' })?;
    text.push(b'1' + draws.below(threads))?;
    text.push(b' ')?;
    if is_managed {
        let form = draws.below(26) as usize;
        return put_form(text, draws, MANAGED[form]);
    }
    let form = draws.below(21) as usize;
    put_form(text, draws, PEER[form])
}

// The script of a seed, with so many lines over one, two or eight threads of each heap, and the driver.
fn draw_script(alloc: Global, seed: usize, lines: usize) -> Result<Vec<u8>, AllocError> {
    let mut draws = Draws { state: seed as u64 };
    let threads = [1, 1, 2, 8][draws.below(4) as usize];
    let mut phases = 0;
    let mut text = Vec::new(alloc);
    for _ in 0..lines {
        put_line(&mut text, &mut draws, threads, &mut phases)?;
    }
    Ok(text)
}

// A turnstile that holds each line back for some turns, the driver's the longest, so that the threads' lines come in
// between each other's.
#[derive(Drop)]
struct Jostle {
    turns: AtomicU64,
}

impl Turnstile for Jostle {
    fn pass(&self, thread: Thread, line: u32) {
        let drawn = self.turns.fetch_add(line as u64 + 1, Ordering::SeqCst) % 7;
        let most = match thread {
            Thread::C => 2_000,
            _ => 1_000,
        };
        for _ in 0..drawn * most {
            let _ = self.turns.load(Ordering::SeqCst);
        }
    }
}

// The history of a script's run on threads.
#[tactic(auto, using(script_runs::proofs::Runnable::can_run))]
fn run<R: Threads + Wait + Sync>(
    rt: &R,
    alloc: Global,
    script: &Script,
) -> Result<History, AllocError> {
    let turn = Jostle {
        turns: AtomicU64::new(0),
    };
    run_threads(rt, alloc, script.lines(), &turn)
}

// The history of the run on threads of the script of a seed.
fn history_drawn<R: Threads + Wait + Sync + Abort>(
    rt: &R,
    alloc: Global,
    seed: usize,
    lines: usize,
) -> Result<History, AllocError> {
    let text = draw_script(alloc, seed, lines)?;
    let read = script_of(rt, alloc, &text);
    drop(text);
    let script = read?;
    assert!(rt; script.len() as usize == lines, "seed {seed}");
    run(rt, alloc, &script)
}

// Draws the script of a seed, runs it on threads, and has each entry judged.
fn judge_seed<R: Threads + Wait + Sync + Abort>(
    rt: &R,
    alloc: Global,
    seed: usize,
    lines: usize,
) -> Result<(), AllocError> {
    let h = history_drawn(rt, alloc, seed, lines)?;
    assert!(rt; h.len() >= lines as u64, "seed {seed}");
    replay(rt, alloc, &h)
}

// Every short script whose turn it is, of 20 to 40 lines, and a long one.
fn judge_share<R: Threads + Wait + Sync + Abort>(
    rt: &R,
    alloc: Global,
    share: usize,
) -> Result<(), AllocError> {
    for seed in 0..SCRIPTS {
        if seed % AT_ONCE == share {
            judge_seed(rt, alloc, seed, 20 + seed % 21)?;
        }
    }
    judge_seed(rt, alloc, share, LONG)
}

#[test]
fn drawn_scripts_on_threads_are_runs(rt: HostRuntime) -> Result<(), Fail> {
    let alloc = rt.alloc();
    let judged = thread::map_indices(&rt, alloc, AT_ONCE, &|share| judge_share(&rt, alloc, share))?;
    for end in judged {
        end?;
    }
    Ok(())
}
