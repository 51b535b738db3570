//! The search for a proof: each step that is taken is the due one, by rounds and the order of
//! steps, until no branch is open, a branch has no new step, or the budget is spent.
#![tactic(auto)]

mod agenda;
mod alike;
mod asked;
mod batch;
mod chases;
mod choices;
mod due;
mod ends;
mod fresh;
mod given;
mod keys;
pub mod laws;
mod loose;
mod mapped;
mod memory;
mod moves;
mod outlook;
mod partners;
mod parts;
mod quiet;
mod reach;
mod recent;
mod scan;
mod splits;
mod spread;
mod standing;
mod told;
mod waiting;

pub use ends::{InOrder, settle, settle_in};
