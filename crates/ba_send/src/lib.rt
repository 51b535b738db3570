//! What is sent to a database: a query under a context as one text that reads back.
#![tactic(auto)]

mod atom;
mod column;
mod fault;
pub mod laws;
mod name;
mod null_test;
mod operand;
mod part;
mod query;
mod text;
mod zero;

pub use fault::Unsendable;
pub use query::{MAX_SENT_BYTES, sent_text};
