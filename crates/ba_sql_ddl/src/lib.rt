//! Reads a file as a schema.
#![tactic(auto)]

mod brackets;
mod draft;
mod fault;
mod inclusion;
pub mod laws;
mod names;
mod read;
mod scan;
mod schema;
mod statement;
mod written;

pub use fault::DdlFault;
pub use schema::read_schema;
