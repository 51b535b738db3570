//! The proof kernel: problems, the steps of a derivation, and what a derivation proves.
//!
//! A [`Search`] keeps the cases of a proof as branches, and keeps in its type that every
//! two databases that break strong compliance fit one of them. A [`Proved`] is a search that
//! has none left (the condition is that of Blockaid, OSDI 2022).
#![tactic(auto)]

mod cases;
mod draft;
mod fact;
pub mod laws;
mod news;
mod passes;
mod problem;
mod proved;
mod replaying;
mod search;
mod start;
mod step;

pub use draft::{ProblemDraft, ProblemFault};
pub use problem::{Problem, ProblemEntry};
pub use proved::Proved;
pub use replaying::{ReplayFault, replay};
pub use search::Search;
pub use step::{Step, StepFault};
