//! The written form of queries.
#![tactic(auto)]

mod compare;
mod condition;
mod fault;
mod front;
pub mod laws;
mod scan;
mod select;
mod side;
mod text;
mod word;
mod written;

pub use fault::SyntaxFault;
pub use text::read_written;
pub use written::{Constant, Heads, Item, Named, Node, QueryText, Select, Side, Source, Test};
