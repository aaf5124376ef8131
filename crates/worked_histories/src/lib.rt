// Worked histories: the definitions of `joint_model`, computed on histories and graphs whose outcome is known
// beforehand.
//
// Each function is a law about those definitions: its body is empty, and its contract is a statement of `specs/`. A law
// that could not be proved would show a mistake in a definition, so they are checked before anything stands on them.
//
// No value is made and nothing runs. What is promised is the outcome of each example: lawful, or broken at the entry
// that breaks a rule.
#![tactic(auto)]

mod broken;
mod further;
mod gaps;
mod graphs;
mod histories;
mod readings;
mod refused;
mod runs;

pub use broken::{
    mirror_holds_the_second_peer, mirror_outlasts_the_restores, promoted_peer_is_kept,
    temporary_holds_what_it_leads_to, weak_handle_is_no_root,
};
pub use further::{
    abandoned_is_lawful, ended_marking_is_lawful, global_names_is_lawful, held_peer_is_lawful,
    kept_object_has_its_new_handle, meeting_is_lawful, moved_peer_is_lawful,
    one_object_has_two_lists, one_object_is_freed_in_time, one_object_is_lawful,
    peer_marking_is_lawful, pending_read_is_lawful, plain_between_is_lawful,
    plain_object_is_lawful, rare_answers_are_lawful, refusals_is_lawful, renewed_handle_is_lawful,
    resurrected_is_lawful, two_markings_is_lawful,
};
pub use gaps::{
    begins_in_gaps, collections_in_gaps, drops_in_gaps, reads_in_gaps, stores_in_gaps,
    waits_in_gaps,
};
pub use graphs::{
    components_of_a_circle, components_of_a_diamond, components_of_a_light_meeting,
    components_of_a_meeting, components_without_detours,
};
pub use histories::{
    cycle_across_both_heaps, deleted_reference_holds, disposed_and_surfaced_object,
    field_emptied_in_a_marking, filled_pin_is_told, finished_histories_are_linked,
    mirror_leaves_nothing_out, object_in_a_pin, reached_object_stays,
    resolution_keeps_the_answered, set_answers_ok, two_linked_objects_by_phases,
};
pub use readings::{
    own_cell_is_set, pending_reads_by_readers, pending_reads_end, pinned_reads_by_readers,
};
pub use refused::{
    broken_cycle_is_incomplete, early_freeing_is_unsound, freeing_without_its_sweep_is_unsound,
    left_garbage_is_incomplete, taken_and_freed_are_shown, unlawful_entries_are_refused,
};
pub use runs::{
    cycle_across_both_heaps_run, disposed_and_surfaced_object_run, field_emptied_in_a_marking_run,
    object_in_a_pin_run, two_linked_objects_by_phases_run,
};
