//! Where lines come from: a trait, and its forms, in memory and over the real outside.
#![tactic(auto)]

mod count;
mod mem_source;
mod source;
mod std_source;
mod unread;

pub use mem_source::MemSource;
pub use source::{Source, SourceFail};
pub use std_source::StdSource;
