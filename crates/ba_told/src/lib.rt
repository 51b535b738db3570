//! Told rows of a question as entries of a trace, each under the part that it can be of.
#![tactic(auto)]

mod can_be;
mod entries;

pub use can_be::can_be_of;
pub use entries::{Misfit, alone, entries_of};
