// Worked answers: what is said of the texts that the program's commands read and write, computed on
// small examples whose outcome is known beforehand.
//
// Each function is a law about those definitions: its body is empty, and its contract is a statement of `specs/`. A
// definition that is only concluded, or only asked for, could say less than its comment, and all that stands on it would
// stay proved; so each is used once the other way here. No value is made and nothing runs.
#![tactic(auto)]

mod commands;
mod histories;
mod logs;
mod reports;
mod streams;

pub use commands::{commands_are_told, wants_are_told};
pub use histories::{listings_are_told, threads_are_told};
pub use logs::{keys_are_told, log_faults_are_told};
pub use reports::report_faults_are_told;
pub use streams::{counts_are_told, parts_are_told, taking_is_told};
