//! Scripts: the lines of a file that begin requests, ask and end them, and publish table sets.
#![tactic(auto)]

mod context;
mod entry;
mod fault;
pub mod laws;
mod line;
mod lines;
mod read;
mod requests;

pub use context::{context_of, of_kind};
pub use entry::{Script, ScriptEntry};
pub use fault::{LineFault, ScriptFault};
pub use line::{Given, Member, ScriptLine, given_value, read_line, read_members};
pub use lines::{Lines, count_lines, script_lines};
pub use read::read_script;
