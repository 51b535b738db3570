//! Workers: one thread for each job, all joined.
#![tactic(auto)]

mod job;
mod workers;

pub use job::Job;
pub use workers::fan_out;
