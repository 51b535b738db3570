//! Findings on a policy: its faults, and where it may show too much or too little.
//!
//! They are told in words for a person. Nothing is proved of them but that making them is safe and
//! ends.
#![tactic(auto)]

mod absurd;
mod columns;
mod faults;
mod finding;
mod fits;
mod linter;
mod literals;
mod lost;
mod overlap;
mod refuted;
mod report;
mod schema;
mod terms;
mod ties;
mod usage;
mod words;
mod written;

pub use finding::{Finding, Scope, Weight};
pub use linter::{Unread, lint};
pub use refuted::{Refuted, find_refuted};
pub use report::{File, Format, Report};
pub use words::LintWords;
