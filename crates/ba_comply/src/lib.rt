//! Traces of answered queries, and compliance with a policy (Blockaid, OSDI 2022).
#![tactic(auto)]

pub mod laws;
mod trace;

pub use trace::{Trace, TraceEntry};
