//! The database that questions are sent to, and which schemas it can serve.
#![tactic(auto)]

mod names;
mod target;

pub use names::{Misnamed, check_names};
pub use target::{Database, Target};
