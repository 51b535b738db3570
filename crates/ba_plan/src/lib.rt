//! Reading files by a plan, and writing a text piece by piece.
//!
//! A *plan* says which file is asked for next, given what came so far, and what the whole comes to.
//! A function that reads files says in its contract which plan it follows: so the order of the
//! files, the names asked for, the first fault and the result are one definition, whatever the
//! files do.
#![tactic(auto)]

mod files;
mod sink;
mod stop;

pub use files::read_file;
pub use sink::send;
pub use stop::Stop;
