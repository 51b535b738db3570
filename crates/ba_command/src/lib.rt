//! The words of a command line.
#![tactic(auto)]

mod audit;
mod check;
mod command;
mod decide;
mod form;
mod generate;
mod given;
mod number;
mod run;
mod served;
mod store;
mod words;

pub use command::{Command, ORDERS, WordsFault};
pub use decide::{Deciding, read_decide};
pub use words::read_words;
