//! The lines of an output, as `run --proofs` prints them, read exactly.
//!
//! [`read_printed`] reads one line. Nothing in it is believed: what it says is what was printed,
//! whether or not that follows.
#![tactic(auto)]

mod evidence;
mod forms;
pub mod laws;
mod line;
mod names;
mod read;
mod reads;
mod rows;
mod shapes;

pub use line::{Evidence, LineReason, PrintedBlock, PrintedLine};
pub use read::{count_printed, printed_lines, read_printed};
