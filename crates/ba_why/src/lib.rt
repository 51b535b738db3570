//! The replies of a run in words, from the evidence in its journal.
#![tactic(auto)]

mod cover;
mod derivation;
mod explanation;
mod given;
mod page;
mod proof;
mod refuted;
mod scene;
mod step;
mod telling;
mod text;
mod undecided;
mod unread;
mod words;

pub use explanation::{Telling, tell_all};
pub use given::Given;
pub use page::USUAL_COLUMNS;
pub use words::{Names, Wanted};
