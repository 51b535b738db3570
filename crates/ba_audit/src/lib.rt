//! Whether every line of an output follows, and which is the first that doesn't: by cover, by the
//! kernel's steps, by answers and by the clauses of a counterexample alone. Nothing is searched for
//! but covers, and nothing that a run kept is asked.
#![tactic(auto)]

mod against;
mod answers;
mod auditing;
mod counts;
mod fault;
mod heard;
mod kinds;
pub mod laws;
mod numbered;
mod numbers;
mod printed;
mod reads;
mod request;
mod stored;
mod told;

pub use auditing::audit;
pub use ba_wire::{AuditFault, AuditReason as Reason, Audited};
pub use numbered::Numbered;
pub use request::{Asker, Begun};
