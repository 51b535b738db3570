//! Whether what a request was told can be in no database: a search over the told rows alone.
#![tactic(auto)]

mod search;

pub use search::contradiction;
