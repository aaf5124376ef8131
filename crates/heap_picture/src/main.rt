// The program `heap_picture`: `main` hands the process's words and streams to `run_program` of `picture_program`, where
// all that it does and promises stands.
#![tactic(auto)]

use picture_program::run_program;
use std::process::ExitCode;
use std_streams::{StdSink, StdSource};

// No clause may stand here, so this only puts the real objects together: what happens with them, and the exit code, are
// `run_program`'s.
fn main(rt: HostRuntime) -> ExitCode {
    run_program(
        rt.alloc(),
        std::env::args(&rt),
        &mut StdSource::new(rt.reader()),
        &mut StdSink::new(std::io::writer(&rt)),
    )
}
