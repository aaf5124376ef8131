// Tests of the joint machine as a program: steps from the opening state with the verdict on each, by the rules of the
// events; and of its marking, on a small graph.
//
// They stand in a crate of their own since a crate with tests is proved twice, with them and without, and the machine
// is large. Nothing but tests stands here, and no other crate builds on it. A table of steps is played by one helper,
// which is proved once.
//
// Nothing is promised to anybody. Each case has a state of its own, and no other thread runs.
#![tactic(auto)]

#[cfg(test)]
mod cases;
#[cfg(test)]
mod marking;
#[cfg(test)]
mod steps;
