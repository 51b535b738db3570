//! Texts, table files, scripts and words that are read, and lines that are printed, as worked out by hand.
//!
//! They stand outside the crates that read and print, so that the proofs of these aren't made a second time with their tests.
#![tactic(auto)]

#[cfg(test)]
mod tests;
