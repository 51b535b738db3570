//! Requests: what a user is told, question after question, by threads that share versions of the
//! tables and templates of proofs.
#![tactic(auto)]

mod judge;
mod keep;
mod key;
mod reply;
mod request;
mod service;
mod sharing;

pub use reply::{By, Judgement, Keeping, KeyReply, Reply, Why};
pub use request::Request;
pub use service::{Closed, Passes, Service};
