// Whose turn it is: what callers are in the midst of, and where the driver stands, as far as a checker of entries has
// to know.
//
// Entry by entry, in the order of their numbers:
//
//     if !turns.is_turn(caller, index, &op, &part) { .. }
//     if !turns.cites_so(caller, &op, cites) { .. }
//     ..
//     turns.note(&entry, phase);
//
// An operation of a managed thread that takes several events has them in their order on one line, each behind the first
// citing the one before it; a phase of the driver has its events behind those of the phase before. `Turns` keeps for
// each managed thread the half of an operation that was made, the line of each caller's last entry, and the phase of
// the driver with how many of its events were made. What it can't know, how many candidates the open cycle has, which
// handle is next and whether a marking is open, is given as a `Part`.
//
// Nobody else is concerned: a `Turns` is a value of its own, and takes no memory.
//
// What is promised: each test answers exactly what its definition says, and these are the first two tests of an entry
// in the state of a linked history, as the laws at the end say: no list is looked through for them.
#![tactic(auto)]

mod driver;
mod hands;
mod laws;
mod roles;
mod stands;
mod turns;

pub use laws::{callers_go_on, cites_are_tested, turns_are_tested, whole_is_tested};
pub use stands::{Doing, OpenSnap, Part, Stand};
pub use turns::Turns;
