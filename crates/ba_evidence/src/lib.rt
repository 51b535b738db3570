//! Lines of a run and of a decision service that tell their evidence: what an answer, an allowed
//! question or a read of a cache key rests on, and the two databases and the row that refute a
//! question.
//!
//! They stand in place of the plain ones where a run is asked for proofs, and a service for
//! evidence. Each is one compact JSON object with its keys in byte order, and a line feed.
#![tactic(auto)]

mod answer;
mod line;
mod reads;
mod refuted;
mod rows;
mod said;
mod said_reads;

pub use answer::{Ground, answer_line};
pub use reads::{Rests, read_line};
pub use refuted::{refuted_line, refuted_read_line};
pub use said::{Grounds, allowed_line, pair_line, weaker_line};
pub use said_reads::{ReadGrounds, allowed_read_line, pair_read_line};
