//! What the top call answers.
ghost use Rattle.std.specs.Prelude.{◌≡◌, count_by, option_map};
ghost use Rattle.ba_lanes.specs.Legal.{is_memory};
ghost use Rattle.ba_lanes.specs.declared.journal.Journal.{Journal as ServedLines};

use ba_input::Detail;
use ba_lanes::Journal;

/// What the top call answers: the exit status, its cause, and the journal where lines were answered. A
/// check, an audit and a printed script have none.
#[derive(Drop)]
pub struct Outcome {
    pub status: u8,
    pub detail: Detail,
    pub journal: Option<Journal>,
}
