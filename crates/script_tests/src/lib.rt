// Tests of `byte_streams`, `bridge_script`, `history_report`, `command_words`, `script_generator` and `run_summary` by
// their public calls: scripts and their first faults, sources, sinks, the reports of worked histories, command lines,
// scripts that are made, and a summary.
//
// They stand in a crate of their own since a crate with tests is proved twice, with them and without, and these are
// what a program is built on. Nothing but tests stands here, and no other crate builds on it.
//
// Nothing is promised to anybody. A test makes its source, sink or history, makes the calls, and compares what they
// answer with a table; each runs alone.
#![tactic(auto)]

#[cfg(test)]
mod commands;
#[cfg(test)]
mod comparing;
#[cfg(test)]
mod generated;
#[cfg(test)]
mod reports;
#[cfg(test)]
mod scripts;
#[cfg(test)]
mod summaries;
