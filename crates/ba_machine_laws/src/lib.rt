//! What requests and whole runs tell (`ba_session`, `ba_lanes`) is what the machine that decides which
//! questions are answered replies (`ba_core`): laws alone, and nothing that runs.
#![tactic(auto)]

pub mod laws;
