//! Rows of tables with indexes that last: for each key of a table its rows in the order of their values there.
#![tactic(auto)]

mod indexed;
mod order;
mod place;

pub use indexed::{Indexed, orders_of};
pub use order::Order;
