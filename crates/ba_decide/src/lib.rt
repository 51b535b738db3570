//! The decision service: lines in, decisions out, a line each.
#![tactic(auto)]

mod answer;
mod evident;
pub mod laws;
mod serve;
mod top;

pub use top::{Ending, decide};
