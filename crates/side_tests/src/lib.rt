// Tests of both sides by their public calls, where memory is ample: tables of calls with what each answers, by the
// rules of the events.
//
// They stand in a crate of their own since a crate with tests is proved twice, with them and without, and the sides are
// large. Nothing but tests stands here, and no other crate builds on it. A table is played on a new side by one helper,
// which is proved once.
//
// The life of a side in a test: it is made for the test, takes the calls of a table one after another, and ends as its
// lists, also where a call failed (a function that drops a side is dear to prove, once more for each way out). It
// stands behind no lock, and no other thread runs. Nothing is promised to anybody: what each call answers, and what the
// lists are, is compared with what the rules of the events say.
#![tactic(auto)]

#[cfg(test)]
mod callers;
#[cfg(test)]
mod cells;
#[cfg(test)]
mod gates;
#[cfg(test)]
mod loose;
#[cfg(test)]
mod managed;
#[cfg(test)]
mod managed_checks;
#[cfg(test)]
mod managed_rows;
#[cfg(test)]
mod mirror_rows;
#[cfg(test)]
mod mirrors;
#[cfg(test)]
mod peer_rows;
#[cfg(test)]
mod peers;
