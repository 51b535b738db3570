//! Tests of answers and of the machine that takes events one by one, over schemas, policies, tables and queries
//! that are written as texts, and a law of an answer's steps.
//!
//! They stand outside the crates that they test, whose proofs would else be made a second time with their tests.
#![tactic(auto)]

pub mod laws;
#[cfg(test)]
mod tests;
