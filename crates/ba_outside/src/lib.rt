//! The outside as a program sees it: files that are read whole, a sink that takes pieces of bytes,
//! and a gate where a worker may be held. What each holds is a meaning that contracts see; what
//! fails is counted, and nothing else is, so that whoever calls can tell a failure of the outside
//! from one of its own making.
//!
//! A count has 64 bits, never falls and stops at its last value. It *rose* in a call where it is
//! greater than before or stands at its last value.
#![tactic(auto)]

mod count;
mod disk_files;
mod files;
mod first_piece;
mod folder_files;
mod free_gate;
mod gate;
mod hold_gate;
mod kept_files;
mod mem_files;
mod mem_sink;
mod sink;
mod std_sink;
mod sure_files;
mod sure_sink;

pub use disk_files::DiskFiles;
pub use files::{Files, ReadFail};
pub use first_piece::FirstPiece;
pub use folder_files::FolderFiles;
pub use free_gate::FreeGate;
pub use gate::Gate;
pub use hold_gate::HoldGate;
pub use kept_files::KeptFiles;
pub use mem_files::{Held, MemFiles};
pub use mem_sink::MemSink;
pub use sink::{Sink, WriteFail};
pub use std_sink::StdSink;
pub use sure_files::SureFiles;
pub use sure_sink::SureSink;
