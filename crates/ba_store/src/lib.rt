//! Template files: decision templates that outlive a run.
//!
//! [`write_templates`] writes templates, one JSON object in each line. [`read_templates`] reads a
//! file for a policy, and believes nothing in it: each line's steps are taken anew from the start of
//! its problem, by the checker of proofs, so that whatever the bytes are, what is read is proved.
#![tactic(auto)]

mod draft;
mod fault;
mod fields;
pub mod laws;
mod operands;
mod queries;
mod read;
mod shapes;
mod write;

pub use fault::{LineFault, StoreFault, StoreField};
pub use read::read_templates;
pub use write::{template_line, write_templates};
