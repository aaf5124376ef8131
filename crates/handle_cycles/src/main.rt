// Cycles over a table of handles, shown and measured: each makes all of its handles weak, and then restores each, which
// comes back under a new number.
//
//     handle_cycles 1000000 1000     a million cycles over a thousand handles
//
// It prints how many handles there are in the end, how many were made otherwise than by a restore, and the greatest
// number that was given: the first two are as before the cycles, and the last is one more for each restore. What it
// takes of time and memory is looked at from outside; the memory doesn't grow with the cycles.
//
// The one thread makes the table, runs the cycles and prints; nothing else runs. Nothing is promised but by the table's
// own contract. The status is 1, with nothing on the standard output, for words that aren't two numbers of which the
// second is at most 65,535, or where the numbers of the handles would pass 4,294,967,295.
#![tactic(auto)]

mod cycles;

use cycles::{make_all, run_cycles};
use global_handles::HandleTable;
use std::process::ExitCode;
use std::{env, io};

fn main(rt: HostRuntime) -> io::Result<ExitCode> {
    let words: Vec<String> = env::args(&rt)?.skip(1).collect(rt.alloc())?;
    let Some((cycles, count)) = numbers_of(&words) else {
        eprintln!(rt; "usage: handle_cycles CYCLES HANDLES")?;
        return Ok(ExitCode::from(1));
    };
    let mut table = HandleTable::new(rt.alloc());
    let mut handles = make_all(rt.alloc(), &mut table, count)?;
    if !run_cycles(&mut table, &mut handles, cycles) {
        return Ok(ExitCode::from(1));
    }
    println!(rt;
        "handles {} made {} last {}",
        table.len(),
        table.made(),
        table.last()
    )?;
    Ok(ExitCode::SUCCESS)
}

// How many cycles, and over how many handles; None where the words aren't two such numbers.
fn numbers_of(words: &[String]) -> Option<(u32, u16)> {
    let [cycles, count] = words else {
        return None;
    };
    Some((cycles.as_str().parse().ok()?, count.as_str().parse().ok()?))
}
