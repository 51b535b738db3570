//! Prints queries as SQL.
#![tactic(auto)]

mod atom;
pub mod laws;
mod operand;
mod part;
mod query;
mod value;

pub use query::print_query;
