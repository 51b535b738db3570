//! The matcher: whether a decision template serves a question after a trace, and how; and the template's
//! steps for the question.
#![tactic(auto)]

mod accepted;
mod alike;
mod bindings;
mod condition;
mod instances;
pub mod laws;
mod matching;
mod tested;

pub use accepted::closes_question;
pub use instances::instance;
pub use matching::match_template;
pub use tested::is_match;
