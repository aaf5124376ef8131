// Laws of the joint machine and of linked histories, over the definitions of `joint_model` alone.
//
// Each function is a law: its body is empty, and its contract is a statement of `specs/`.
//
// No value is made and nothing runs. What is promised is said of every linked history, whatever threads and whatever
// schedule led to it.
#![tactic(auto)]

mod afterwards;
mod freeing;
mod graphs;
mod linked;
mod managed;
mod markings;
mod readings;
mod runs;
mod told;

pub use afterwards::{
    none_is_mirrored_after_a_clear, reads_of_freed_objects_are_gone,
    weak_reads_of_freed_peers_are_gone,
};
pub use freeing::{resolutions_free_unreached_rows, snapshots_free_unreached_rows};
pub use graphs::{EdgeGraph, mirror_edges_follow_walks, walks_follow_mirror_edges};
pub use linked::{
    adopted_peer_has_no_twin, alive_candidates_lead_to_alive_ones, both_invariants_hold,
    held_handles_by_phase, joint_twin_is_registered, reached_peers_are_spared,
};
pub use managed::{dead_part_is_frozen, dead_part_is_mirrored, managed_invariant_holds};
pub use markings::{own_marking_is_one, reached_rows_are_closed};
pub use readings::{
    exact_readings_are_lawful, kept_pins_are_lawful, reading_projection_is_complete,
};
pub use runs::{
    joint_projection_is_a_run, joint_projection_is_complete, joint_projection_is_sound,
    run_states_are_both_sides, snapshots_are_sound, sweeps_are_sound,
};
pub use told::{linked_histories_fit_their_lists, taken_notices_are_named, told_lists_are_named};
