// Endings that the headline refuses: the definitions of what holds afterwards, and of which peers stay, computed on
// short lists of entries and on runs that break them.
//
// Each function is a law about those definitions: its body is empty, and its contract is a statement of `specs/`. No
// machine has these lists; they stand here so that a definition which let one pass would be found. That no mirrored
// reference stands after a clear can't be broken by any list of entries, since a clear empties the list of references
// and a mirror alone fills it: so no list is refused by it.
#![tactic(auto)]

mod endings;
mod gates;

pub use endings::{
    abandoned_and_open_cycles_are_refused, freed_peers_of_the_living_are_refused,
    reads_of_the_freed_are_refused, waits_without_an_end_are_refused,
};
pub use gates::{freed_pins_are_refused, reads_past_the_gate_are_refused};
