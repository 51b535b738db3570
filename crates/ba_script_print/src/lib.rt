//! Scripts printed as text that reads back.
#![tactic(auto)]

mod entry;
pub mod laws;
mod text;

pub use text::script_text;
