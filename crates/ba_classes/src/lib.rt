//! What a branch knows of its terms beside its facts: which of them are equal, and by how much one
//! is at least another.
//!
//! [`classes::Classes`] keeps the equations that were made, as labels of the terms.
//! [`order::Order`] keeps facts `low + gap <= high` over whole numbers, and all that follows from
//! them by addition. [`image`] chooses numbers between bounds.
#![tactic(auto)]

mod best;
mod classes;
mod grid;
pub mod image;
pub mod laws;
mod order;
mod row;
mod seats;
mod tied;

pub use classes::Classes;
pub use order::{Difference, Order};
