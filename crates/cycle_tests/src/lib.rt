// Tests of the driver of the bridge, by its public calls over a shared bridge, beside a managed thread: tables of calls
// with what each answers, by the rules of the phases and events; a cycle that finds no memory, with the report of its
// run; and a peer thread that collects in a gap of a cycle.
//
// They stand in a crate of their own since a crate with tests is proved twice, with them and without, and
// `bridge_cycle` is large. Nothing but tests stands here, and no other crate builds on it.
//
// Nothing is promised to anybody. Each test makes a run of its own, whose callers call in turn on its own thread.
#![tactic(auto)]

#[cfg(test)]
mod abandoned;
#[cfg(test)]
mod gaps;
#[cfg(test)]
mod runs;
