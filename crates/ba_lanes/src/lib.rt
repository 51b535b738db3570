//! Serves a script: its questions are answered or blocked, by several workers, each a lane of the
//! lines.
#![tactic(auto)]

mod journal;
mod lane;
mod lanes;
mod loads;
mod share;
mod work;

pub use journal::{Entry, Journal, LineKind};
pub use lanes::serve;
