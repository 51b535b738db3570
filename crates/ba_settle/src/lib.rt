//! How a search for a proof ends, whatever makes it: due steps, the orders in which they are taken,
//! and a trait of what ends a search.
#![tactic(auto)]

mod ends;
pub mod laws;
mod order;
mod settle;

pub use ends::{Leaf, Settled};
pub use order::{Pick, compare_steps};
pub use settle::Settle;
