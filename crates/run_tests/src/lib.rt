// Tests of whole runs against the joint machine: the finished history of a script's run is judged entry by entry.
//
// They stand in a crate of their own since they need the run of scripts and the joint machine both, and neither needs
// the other. Nothing but tests stands here, and no other crate builds on it.
//
// Worked scripts are run in line order, each of which makes as many entries as its worked report has. Drawn scripts are
// run by a thread for each script thread, several at a time; each has another history whatever the draw, and each is a
// run of the joint machine.
//
// Nothing is promised to anybody.
#![tactic(auto)]

#[cfg(test)]
mod drawn;
#[cfg(test)]
mod gaps;
#[cfg(test)]
mod replays;
#[cfg(test)]
mod worked;
