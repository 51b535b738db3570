//! The machine that decides which questions are answered, as a function of its events: whatever a list of events brings, each
//! answer is its query's answer in the tables of its request's version, and complies with the policy (Blockaid, OSDI 2022) after
//! what the request was told before.
//!
//! Nothing here waits or reads: who runs the machine brings the events one by one, with the ground of each decision.
#![tactic(auto)]

mod event;
mod ground;
mod machine;
mod opened;
mod requests;
mod running;

pub use event::{Asked, CoreFault, CoreReply, Event, Ground};
pub use machine::Core;
pub use opened::{Answered, Opened};
pub use running::run;
