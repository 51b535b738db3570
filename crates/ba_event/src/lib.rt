//! Lines of a conversation with a decision service, read exactly: requests begin, ask, read cache
//! keys, are told rows, and end.
#![tactic(auto)]

mod event;
pub mod laws;
mod told;

pub use event::{Event, EventFault, read_event};
