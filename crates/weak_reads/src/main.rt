// Weak reads on real threads, shown and measured.
//
//     weak_reads time 1000 4 20000       four threads read for a second in each way, over a heap of 20,000 objects:
//                                        reads a second, the longest and all but the longest thousandth, cycles a
//                                        second, and how many reads answered that one was open
//     weak_reads count 20 2 300          the same for 20 milliseconds, and only what is left then, which is the same
//                                        whatever the schedule
//
// One race for each way of reading: `read_now`, which takes no lock and answers at once; the same where the thread's
// pin is filled; `read_wait`, which takes no lock and waits for the end of a cycle; `managed`, the same read under the
// managed lock; and, to compare with, an addition to a plain atomic word. Meanwhile the driver runs cycles, a peer
// thread allocates, and so does a managed thread where one is left; each rests for a millisecond now and then, and to
// the end once its heap has made the last of its 65,535 objects, after most of a second. In the first half of a race no
// clock is read between reads, and that half gives the reads a second; in the other half each read is timed.
//
// Words that it doesn't take are answered with what is wrong, the forms and an example, and status 1.
//
// `race.rt` is the page to read for whoever wants threads on the bridge; `jobs.rt` has what the threads do. Who runs:
// this thread sets up a race, waits for its threads, and has the history finished before it prints.
//
// What is promised, of each race: its history is linked, whatever the schedule, and the numbers that are printed of
// objects, peers and handles are those of its last state; no more reads are counted as pending than were made; the
// longest and the all but longest waits are those of the list. That a race ends, and what a clock says, is not
// promised.
#![tactic(auto)]

mod callers;
mod figures;
mod heap;
mod jobs;
mod plan;
mod race;
mod words;

use figures::a_second;
use plan::{Setup, Way};
use race::{Over, run_race};
use std::process::ExitCode;
use std::{env, io};
use words::{USAGE, command_of};

// Each way of reading, and what it is called.
const WAYS: [(&'static str, Way); 5] = [
    ("word", Way::Word),
    ("read_now", Way::Now),
    ("pinned", Way::Pinned),
    ("read_wait", Way::Wait),
    ("managed", Way::Locked),
];

fn main(rt: HostRuntime) -> io::Result<ExitCode> {
    let words: Vec<String> = env::args(&rt)?.skip(1).collect(rt.alloc())?;
    let command = match command_of(&words) {
        Ok(command) => command,
        Err(mistake) => {
            println!(rt; "weak_reads: {}\n{USAGE}", mistake.what())?;
            return Ok(ExitCode::from(1));
        }
    };
    if command.timed {
        println!(rt;
            "way              reads a second   longest, ns     99.9 %, ns  cycles a second  pending of all"
        )?;
    }
    for (name, way) in WAYS {
        let setup = Setup {
            way,
            readers: command.readers,
            objects: command.objects,
            nanos: u64::from(command.millis) * 1_000_000,
        };
        let over = run_race(&rt, rt.alloc(), &setup)?;
        print(&rt, name, &setup, command.timed, over)?;
    }
    Ok(ExitCode::SUCCESS)
}

// Prints the line of a race: its figures, or what is left when it has ended.
fn print(rt: &impl Print, name: &str, setup: &Setup, timed: bool, over: Over) -> io::Result<()> {
    let Over {
        figures,
        nanos,
        end,
    } = over;
    if !timed {
        return println!(rt;
            "{name}: left are {} objects, {} peers and {} handles",
            end.managed.left, end.peers.left, end.handles.left
        );
    }
    let cycles = a_second(u64::from(end.cycles), nanos.max(1));
    let rate = a_second(figures.untimed(), (setup.nanos / 2).max(1));
    let (reads, pending) = (figures.reads(), figures.pending());
    let times = figures.times();
    println!(rt;
        "{name:<12} {rate:>18} {:>13} {:>14} {cycles:>16}  {pending} of {reads}",
        times.longest, times.most
    )
}
