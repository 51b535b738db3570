//! Runs the top call, and tells what became of it: why it ended so, and in words why each question
//! was answered or not, from the evidence in the journal; or what the linter finds of a policy.
//! Runs the decision service in the same way.
#![tactic(auto)]

mod ended;
mod explanation;
mod findings;
mod serving;

pub use ba_why::{Telling, USUAL_COLUMNS, Wanted};
pub use ended::{Ended, run_words};
pub use explanation::{Asked, explain};
pub use findings::{BadWords, lint_words};
pub use serving::serve_words;
