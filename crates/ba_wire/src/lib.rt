//! The lines that the program prints.
#![tactic(auto)]

mod answer;
mod audit;
mod brief;
mod fault;
pub mod laws;
mod line;
mod names;
mod object;
mod reads;
mod rows;
mod said;
mod summary;
mod verdict;

pub use audit::{AuditFault, AuditReason, Audited, finding_text};
pub use fault::{Fault, Reason, TemplateFault, fault_text};
pub use line::{Block, By, Line, line_text};
pub use said::{SaidLine, said_text};
pub use summary::{Summary, summary_text};
pub use verdict::{Verdict, verdict_text};
