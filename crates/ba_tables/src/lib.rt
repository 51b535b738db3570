//! The tables of a database: the rows of a table's file, and rows that conform to their schema.
#![tactic(auto)]

mod broken;
mod by_order;
mod conforming;
mod fault;
mod field;
mod file;
pub mod laws;
mod line;
mod lines;
mod null;
mod pairs;
mod rules;
mod tables;

pub use broken::{TablesFault, broken_table};
pub use conforming::conform;
pub use fault::TableFault;
pub use file::{read_table, rows_of_file};
pub use tables::Tables;
