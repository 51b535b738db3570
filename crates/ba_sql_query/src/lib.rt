//! Reads a text as a query.
#![tactic(auto)]

mod columns;
mod count;
mod expand;
mod fault;
mod kinds;
mod lacking;
pub mod laws;
mod names;
mod query;
mod read;
mod resolve;
mod resolved;
mod scope;
mod sources;
mod spot;
mod tables;

pub use fault::ReadQueryFault;
pub use read::{read_query, read_words};
