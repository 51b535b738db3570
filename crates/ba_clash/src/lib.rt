//! Told rows that contradict each other plainly: they are one row of a table by a key of it, and
//! differ in a column that both tell.
#![tactic(auto)]

mod clash;
mod count;
mod known;
pub mod laws;

pub use clash::clashes;
pub use count::MAX_COMPARED;
