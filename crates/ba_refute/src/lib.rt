//! Counterexamples to strong compliance, checked.
#![tactic(auto)]

mod clause;
mod compared;
mod conform;
mod image;
pub mod laws;
mod literals;
mod numbers;
mod once;
mod question;
mod refutal;
mod rising;
mod rows;
mod texts;
mod unknowns;
mod unmet;
mod used;
mod values;
mod wide;
mod within;

pub use clause::{Clause, Counterexample};
pub use question::Question;
pub use refutal::{Refutal, try_pair};
pub use unmet::first_unmet;
