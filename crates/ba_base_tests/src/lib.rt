//! Tests of the crates that stand lowest: copies of whole values, what each form of the outside does, turns between
//! threads, and what threads share under them, as shelves of templates.
//!
//! They stand outside these crates, whose proofs would else be made a second time with their tests.
#![tactic(auto)]

#[cfg(test)]
mod tests;
pub mod versions;
