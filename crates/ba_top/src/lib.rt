//! The top call. Words name a schema, a policy, a table set and a script, and each question of the
//! script is answered or blocked, and each read of a cache key let through or blocked, a line each. Or
//! they name a schema, a policy and a proof, and one line says whether it is accepted. Or they name an
//! output beside the files of a run, and one line says whether each of its lines follows. Or they give
//! the seed of a workload, whose script is printed, or is run, and then the summary is told.
#![tactic(auto)]

mod asking;
mod auditing;
mod checking;
mod ending;
mod evident;
pub mod laws;
mod outcome;
mod print;
mod requests;
mod summary;
mod top;

pub use asking::ask;
pub use ba_input::{Detail, Input, Told};
pub use outcome::Outcome;
pub use summary::lines_without_memory;
pub use top::blockaid;
