//! The generaliser: of a proof of one question a decision template for all that are proved alike.
#![tactic(auto)]

mod condition;
mod copies;
mod dropping;
mod gap;
mod general;
mod guessing;
pub mod laws;
mod layout;
mod leaving;
mod making;
mod naming;
mod others;
mod pattern;
mod retold;
mod staying;

pub use general::{GeneralFault, generalise};
