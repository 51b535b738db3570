//! What a command is given, and how it is read, file by file, over the readers alone.
#![tactic(auto)]

mod audit_input;
mod command;
mod deciding;
mod detail;
mod input;
mod proof_input;
mod refusal;
mod run_input;
mod task;
mod template_input;
mod workload;

pub use command::read_task;
pub use deciding::{PolicyInput, read_policy_input};
pub use detail::Detail;
pub use input::Input;
pub use refusal::fault_of;
pub use task::{Task, Told};
