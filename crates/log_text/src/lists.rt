// Handles that were never released.

use joint_model::HNum;

/// The handles that are live at the end of a log in each strength, in rising number. One that is cleared but was never
/// removed is live.
#[derive(Drop)]
pub struct Unreleased {
    pub strong: Vec<HNum>,
    pub weak: Vec<HNum>,
}
