// Streams that fail, or pass a byte on at a time, and the arguments of a process with its exit code.

ghost use Rattle.std.specs.Prelude.{Some};

use crate::expecting::{SERIAL, USAGE, expect_text, status_of};
use bridge_program::run_program;
use bridge_script::FreeTurn;
use byte_streams::{ByteSink, PlainSource};
use std::alloc::{AllocError, Global};
use std::env::{Args, Env, FillError};
use std::io;
use std::process::ExitCode;
use std::sync::Wait;
use std::test::Fail;
use std::thread::Threads;
use std_streams::{StdSink, StdSource};
use worked_texts::{LINKED, LINKED_REPORT};

// A reader and writer that fails at each call.
#[derive(Drop)]
struct Broken;

impl io::Read for Broken {
    fn read(&mut self, _: &mut [u8]) -> io::Result<usize> {
        Err(io::Error::from(io::ErrorKind::TimedOut))
    }
}

impl io::Write for Broken {
    fn write(&mut self, _: &[u8]) -> io::Result<usize> {
        Err(io::Error::from(io::ErrorKind::TimedOut))
    }

    fn flush(&mut self) -> io::Result<()> {
        Ok(())
    }
}

// A reader in memory that gives one byte a call.
#[derive(Drop)]
struct Drip<'a> {
    bytes: &'a [u8],
}

impl io::Read for Drip<'_> {
    ghost remaining = { λ r. Some r.bytes.now };

    fn read(&mut self, buf: &mut [u8]) -> io::Result<usize> {
        let most = buf.len().min(1);
        self.bytes.read(&mut buf[..most])
    }
}

// A writer in memory that takes at most `most` bytes of a piece, and no more than half of it, rounded up.
#[derive(Drop)]
struct Slow {
    most: usize,
    bytes: Vec<u8>,
}

impl io::Write for Slow {
    ghost contents = { λ w. Some w.bytes.items };

    fn write(&mut self, buf: &[u8]) -> io::Result<usize> {
        let count = (buf.len() - buf.len() / 2).min(self.most);
        self.bytes.extend_from_slice(&buf[..count])?;
        Ok(count)
    }

    fn flush(&mut self) -> io::Result<()> {
        Ok(())
    }
}

// The status of a run of the example over these streams.
fn status_over<R: Threads + Wait + Sync, I: io::Read + Drop, O: io::Write + Drop>(
    rt: &R,
    alloc: Global,
    reader: I,
    writer: O,
) -> Result<u8, AllocError> {
    let mut out = StdSink::new(writer);
    status_of(
        rt,
        alloc,
        SERIAL,
        StdSource::new(reader),
        &mut out,
        &FreeTurn,
    )
}

#[test]
fn streams_pass_each_byte_on_or_fail(rt: HostRuntime) -> Result<(), Fail> {
    let alloc = rt.alloc();
    for (most, wanted) in [(0, 4), (1, 0), (usize::MAX, 0)] {
        let mut slow = Slow {
            most,
            bytes: Vec::new(alloc),
        };
        let status = status_over(&rt, alloc, Drip { bytes: LINKED }, &mut slow)?;
        assert!(rt; status == wanted && LINKED_REPORT.starts_with(&slow.bytes));
        assert!(rt; status == 4 || slow.bytes.len() == LINKED_REPORT.len());
    }
    assert!(rt; status_over(&rt, alloc, Drip { bytes: LINKED }, Broken)? == 4);
    assert!(rt; status_over(&rt, alloc, Broken, Broken)? == 2);
    Ok(())
}

// The arguments of a process, which need not be text.
#[derive(Drop)]
struct GivenArgs<'a> {
    args: &'a [&'a [u8]],
}

impl Env for GivenArgs<'_> {
    fn arg(&self, i: usize, buf: &mut [u8]) -> Result<usize, FillError> {
        if i >= self.args.len() {
            return Err(FillError::NotPresent);
        }
        let arg = self.args[i];
        if arg.len() > buf.len() {
            return Err(FillError::TooLong);
        }
        buf[..arg.len()].copy_from_slice(arg);
        Ok(arg.len())
    }

    fn var(&self, _name: &str, _buf: &mut [u8]) -> Result<usize, FillError> {
        Err(FillError::NotPresent)
    }

    fn var_at(&self, _i: usize, _buf: &mut [u8]) -> Result<usize, FillError> {
        Err(FillError::NotPresent)
    }
}

// The exit code of a process with these arguments and this input.
fn exit_code_of<R: Threads + Wait + Sync>(
    rt: &R,
    alloc: Global,
    args: io::Result<Args>,
    text: Vec<u8>,
    out: &mut ByteSink,
) -> ExitCode {
    let mut source = PlainSource::new(text);
    run_program(rt, alloc, args, &mut source, out, &FreeTurn)
}

// The arguments of a process, its input, the exit code, and what is written.
type Process = ([&'static [u8]; 2], &'static [u8], u8, &'static [u8]);

const PROCESSES: [Process; 4] = [
    ([b"run", b"serial"], b"", 0, b"end 0\n"),
    ([b"serial", b"run"], b"", 1, USAGE),
    ([b"run", b"ser\xffial"], b"", 1, USAGE),
    ([b"run", b"serial"], b"\n", 3, b"line 1: cause 1 unknown\n"),
];

#[test]
fn the_exit_code_is_the_status_for_the_words_that_were_given(rt: HostRuntime) -> Result<(), Fail> {
    let alloc = rt.alloc();
    for (given, text, wanted, written) in &PROCESSES {
        let text = text.to_vec(alloc)?;
        let args = std::env::args(&(GivenArgs { args: given }, alloc));
        let mut out = ByteSink::new(alloc, 100, Vec::new(alloc));
        let code = exit_code_of(&rt, alloc, args, text, &mut out);
        assert!(rt; code == ExitCode::from(*wanted));
        expect_text(&rt, out.bytes(), written);
    }
    let mut out = ByteSink::new(alloc, 100, Vec::new(alloc));
    let full = Err(io::Error::from(io::ErrorKind::OutOfMemory));
    let code = exit_code_of(&rt, alloc, full, Vec::new(alloc), &mut out);
    assert!(rt; code == ExitCode::from(5) && out.bytes().is_empty());
    Ok(())
}
