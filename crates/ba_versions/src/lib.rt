//! The versions of the tables, as a value with a history that threads may share by a turn.
#![tactic(auto)]

mod call;
mod turns;
mod versions;

pub use call::VersionCall;
pub use turns::{pin, publish};
pub use versions::Versions;
