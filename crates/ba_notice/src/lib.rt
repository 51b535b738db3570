//! One line for whoever gave the words of a run that ended with another status than 0: what is wrong, where, and what would mend it.
//!
//! It is told from how the run ended, and from reading the named file once more where that is a plain file.
#![tactic(auto)]

mod files;
mod input;
mod output;
mod proof;
mod telling;
mod template;
mod usage;

pub use telling::notice;
