//! Weaker rows: told rows of a question of several parts as rows of one part, which has the
//! conditions that all of them share.
#![tactic(auto)]

pub mod laws;
mod weaken;

pub use weaken::weakened;
