//! Unions part by part: laws of strong compliance, and of told rows under the parts that they can be
//! of. Nothing here runs.
#![tactic(auto)]

pub mod laws;
