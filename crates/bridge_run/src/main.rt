// The program `bridge_run`: `main` hands the process's words and streams to `run_program` of `bridge_program`, where
// all that it does and promises stands. `StdSource` and `StdSink` make a source and a sink of any reader and writer,
// and each counts its errors.
#![tactic(auto)]

use bridge_program::run_program;
use bridge_script::FreeTurn;
use std::alloc::Global;
use std::process::ExitCode;
use std_streams::{StdSink, StdSource};

// So many bytes: most that a cycle takes at once is shorter, and a list of entries longer.
const KEPT: usize = 1_048_576;

// Takes one block and lets it go, untouched. The C library's allocator gives a block back to the system when it is let
// go, and takes the next one page by page, unless one as long was let go before (mallopt(3), M_MMAP_THRESHOLD). So from
// here on what a cycle lets go is kept for the next one, while a longer block still grows by moving its pages. Where
// there is no memory for the block nothing is lost but that.
fn keep_what_is_let_go(alloc: Global) {
    drop(Vec::<u8>::with_capacity(alloc, KEPT));
}

// No clause may stand here, so this only puts the real objects together: what happens with them, and the exit code,
// are `run_program`'s.
fn main(rt: HostRuntime) -> ExitCode {
    keep_what_is_let_go(rt.alloc());
    run_program(
        &rt,
        rt.alloc(),
        std::env::args(&rt),
        &mut StdSource::new(rt.reader()),
        &mut StdSink::new(std::io::writer(&rt)),
        &FreeTurn,
    )
}
