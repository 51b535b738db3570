//! The queries behind a policy's cache keys, for given values of the keys' arguments.
#![tactic(auto)]

mod literals;

pub use literals::key_queries;
