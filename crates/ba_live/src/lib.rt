//! A decision service as a value: which requests are open, what they were told, and which of their
//! questions may still be told. Each event of a conversation is answered by a decision.
#![tactic(auto)]

mod ask;
mod books;
mod contradict;
mod decision;
pub mod laws;
mod live;
mod open;
mod read;
mod step;

pub use contradict::{MAX_SEARCHED_ROWS, MAX_SEARCHED_STEPS};
pub use decision::{Decision, Refusal, Subject};
pub use live::{Live, MAX_OPEN, MAX_TOLD_ROWS};
pub use open::{Asked, Lines, MAX_OPEN_ASKS, Open};
