// The top call over a text: its status, what it writes, and tables of calls with both.

use bridge_program::bridge_main;
use bridge_script::{FreeTurn, Turnstile};
use byte_streams::{ByteSink, ByteSource, PlainSource, Sink, Source};
use std::alloc::{AllocError, Global};
use std::process::Abort;
use std::sync::Wait;
use std::thread::Threads;
use worked_texts::parts_of;

/// What is written for words that are no command.
pub const USAGE: &[u8] = b"usage: bridge_run COMMAND\n";

/// The command that runs the lines one after another.
pub const SERIAL: &[&str] = &["serial"];

/// The command that runs each thread's lines in a thread of its own.
pub const THREADS: &[&str] = &["threads"];

// The words of a command.
fn words_of(alloc: Global, words: &[&str]) -> Result<Vec<String>, AllocError> {
    let mut owned = Vec::new(alloc);
    for word in words {
        owned.push(String::from_str(alloc, word)?)?;
    }
    Ok(owned)
}

/// Makes the top call with these words, and answers its status. (It has no clause, so that its callers' proofs don't
/// carry those of the top call.)
pub fn status_of<R: Threads + Wait + Sync, S: Source + Drop, K: Sink, T: Turnstile + Sync>(
    rt: &R,
    alloc: Global,
    words: &[&str],
    mut source: S,
    out: &mut K,
    turn: &T,
) -> Result<u8, AllocError> {
    let words = words_of(alloc, words)?;
    Ok(bridge_main(rt, alloc, &words, &mut source, out, turn))
}

/// Runs the command over a text, each of whose lines passes the turnstile, and answers what is written. The status has
/// to be 0.
pub fn written_at<R: Threads + Wait + Sync + Abort, T: Turnstile + Sync>(
    rt: &R,
    alloc: Global,
    words: &[&str],
    text: &[u8],
    turn: &T,
) -> Result<ByteSink, AllocError> {
    let source = PlainSource::new(text.to_vec(alloc)?);
    let mut out = ByteSink::new(alloc, 100, Vec::new(alloc));
    let status = status_of(rt, alloc, words, source, &mut out, turn)?;
    assert_eq!(rt; status, 0, "for {text:?}");
    Ok(out)
}

/// Runs the command over a text, and compares the status.
pub fn expect<R: Threads + Wait + Sync + Abort>(
    rt: &R,
    alloc: Global,
    words: &[&str],
    text: &[u8],
    read_fault: u32,
    out: &mut ByteSink,
    wanted: u8,
) -> Result<(), AllocError> {
    let fails = [read_fault].to_vec(alloc)?;
    let source = ByteSource::new(text.to_vec(alloc)?, fails);
    let status = status_of(rt, alloc, words, source, out, &FreeTurn)?;
    assert_eq!(rt; status, wanted, "for {text:?}");
    Ok(())
}

/// Compares what was written.
pub fn expect_text(rt: &impl Abort, found: &[u8], wanted: &[u8]) {
    assert_eq!(rt; found, wanted);
}

/// The words; the text, or rows of which the first one has it; the number of the source's call that fails and of the
/// sink's, 0 for none; and the status and what is written. A sink of which a call fails takes one byte a call.
pub type Run = (
    &'static [&'static str],
    &'static [u8],
    u32,
    u32,
    u8,
    &'static [u8],
);

// The text that is meant: a row's script.
fn script_of(text: &[u8]) -> &[u8] {
    match text.strip_prefix(b"#").and_then(|row| parts_of(row)) {
        Some((_, script, _)) => script,
        None => text,
    }
}

/// Makes each run, and compares its status and what is written.
pub fn expect_runs<R: Threads + Wait + Sync + Abort>(
    rt: &R,
    alloc: Global,
    runs: &[Run],
) -> Result<(), AllocError> {
    for (words, text, read_fault, write_fault, status, written) in runs {
        let most = if *write_fault == 0 { 7 } else { 1 };
        let text = script_of(text);
        let mut out = ByteSink::new(alloc, most, [*write_fault].to_vec(alloc)?);
        expect(rt, alloc, words, text, *read_fault, &mut out, *status)?;
        expect_text(rt, out.bytes(), written);
    }
    Ok(())
}
