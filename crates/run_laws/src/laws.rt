// Laws on the runs of scripts, each the contract of a function that does nothing.

ghost use Rattle.run_laws.specs.FinalLaws.{HeldByThreadsIsRun, HeldInOrderIsRun, RunsInOrderAreOne};
ghost use Rattle.run_laws.specs.LastCycle.{CycleLinesEndRuns, CyclesEndRuns};
ghost use Rattle.run_laws.specs.Lines.{OperationsAreAnswered, OperationsAreLines, OthersKeepStanding};
ghost use Rattle.run_laws.specs.Serial.{AllAreGiven, DriverRunsOn, DriversAdd, NothingIsRun, OthersRunOn};
ghost use Rattle.run_laws.specs.Serial.{RunsHoldScript, ToldCallersAdd};
ghost use Rattle.run_laws.specs.Threads.{CallersWaitsEnd, MoreWaitsEnd, OperationsWaitsEnd, OthersLinesPass};
ghost use Rattle.run_laws.specs.Threads.{OwnLinesAdd, OwnLinesEnd, ThreadsHoldScript};

/// The entries of a thread's operation are those of its line, and leave the driver where it stands; a read among them
/// that is exact by what its caller knows is answered by the managed list that it knows.
pub fn operations_are_lines()
    ensures lines { OperationsAreLines }
    ensures standing { OthersKeepStanding }
    ensures answered { OperationsAreAnswered }
{}

/// Thread by thread: a caller that passes over the lines of others, and makes the entries of each of its own lines and
/// at the end those of the phases left, holds its thread's lines. Where each caller that was given out does, and nobody
/// else has a line, the finished history holds the script thread by thread; and where no wait of any caller answered
/// `pending`, none of the history does.
pub fn threads_hold_scripts()
    ensures pass { OthersLinesPass }
    ensures add { OwnLinesAdd }
    ensures end { OwnLinesEnd }
    ensures hold { ThreadsHoldScript }
    ensures more { MoreWaitsEnd }
    ensures operation { OperationsWaitsEnd }
    ensures waits { CallersWaitsEnd }
{}

/// Line after line: where the driver's seat tells each line's caller what it knows and hears of its entries, the run
/// holds a line more, and once all lines have been run and the phases left are made, the finished history holds the
/// script in line order, and each of its reads that is set aside is right by the managed list before it.
pub fn runs_hold_scripts()
    ensures told { ToldCallersAdd }
    ensures driven { DriversAdd }
    ensures first { NothingIsRun }
    ensures others { OthersRunOn }
    ensures driver { DriverRunsOn }
    ensures hold { RunsHoldScript }
    ensures given { AllAreGiven }
{}

/// A linked history with all notices that were queued, which holds the lines of a script, is the history of its run: in
/// line order the only one, and thread by thread one of those that can be.
pub fn held_scripts_are_runs()
    ensures in_order { HeldInOrderIsRun }
    ensures one { RunsInOrderAreOne }
    ensures by_threads { HeldByThreadsIsRun }
{}

/// Where the driver, once all threads have ended, hears of what each has made and then runs a cycle more, the finished
/// history is that of the script's run thread by thread with the cycle's entries behind all others. So is the history
/// of a run line after line whose last line is a cycle, where all other lines of the driver are cycles too.
pub fn cycles_end_runs()
    ensures threads { CyclesEndRuns }
    ensures in_order { CycleLinesEndRuns }
{}
