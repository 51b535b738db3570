//! Reads a file as a policy.
#![tactic(auto)]

mod cache_key;
mod draft;
mod error;
pub mod laws;
mod names;
mod policy;
mod statement;

pub use error::PolicyFault;
pub use policy::read_policy;
