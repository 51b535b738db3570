//! Tests of problems and searches (ba_kernel) over branches (ba_facts), of how they end (ba_instant, ba_portfolio), of decision
//! templates (ba_template), their making (ba_general) and their matches (ba_match), and of proof files and the checker
//! (ba_proof), by values worked out by hand.
//!
//! They stand outside these crates, so that no crate's proofs are made a second time with tests.
#![tactic(auto)]

#[cfg(test)]
mod tests;
