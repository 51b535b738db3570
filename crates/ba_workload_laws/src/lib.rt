//! Laws alone: what the texts of a workload's schema and policy read as.
#![tactic(auto)]

pub mod laws;
