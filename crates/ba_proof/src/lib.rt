//! Proof files, and the checker of proofs.
//!
//! A proof file is a question with what it was asked after, and the steps that prove it. [`read_proof`] reads one for
//! a policy, [`check`] takes its steps one after another from the start of the question's problem, by the kernel alone,
//! and [`write_proof`] writes one. [`steps_of`] and [`steps_json`] read and write steps that have variables too.
#![tactic(auto)]

mod checking;
mod entries;
mod fault;
mod fields;
pub mod laws;
mod proof;
mod read;
mod shapes;
mod steps;
mod terms;
mod version;
mod write;

pub use checking::{CheckFault, check};
pub use fault::{ProofFault, ProofField};
pub use proof::Proof;
pub use read::read_proof;
pub use shapes::{as_list, as_short};
pub use steps::steps_of;
pub use terms::op_of;
pub use version::{LAST_VERSION, RULE_VERSION};
pub use write::{marked, op_name, param_name, steps_json, value_json, write_proof};
