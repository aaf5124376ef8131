// Tests of whole runs by the public calls of `joint_history`: callers from the desk, operations of both heaps' threads,
// and the finished history.
//
// They stand in a crate of their own since a crate with tests is proved twice, with them and without, and
// `joint_history` is large. Nothing but tests stands here, and no other crate builds on it.
//
// A run makes its order first and does its work in a function that is generic over `N: OrderName`, which the test calls
// at `Brand`. What the calls answer is compared with what the rules of the events say, check by check. Nothing is
// promised to anybody. Unless a test says otherwise its callers run in turn on its own thread.
#![tactic(auto)]

#[cfg(test)]
mod desks;
#[cfg(test)]
mod gates;
#[cfg(test)]
mod given;
#[cfg(test)]
mod memory;
#[cfg(test)]
mod readers;
#[cfg(test)]
mod rooms;
#[cfg(test)]
mod runs;
#[cfg(test)]
mod slices;
#[cfg(test)]
mod threads;
#[cfg(test)]
mod told;
