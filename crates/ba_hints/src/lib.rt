//! Where a fault of a text stands, and what would mend it.
//!
//! A hint says no more than what was found in the text: where a small reader of its own finds none
//! of a fault, it tells no place. Long texts are cut; control characters and bytes that are no text
//! are shown as `?`.
#![tactic(auto)]

mod grammar;
mod hint;
mod lex;
mod lines;
mod names;
mod policy;
mod query;
mod rows;
mod rule;
mod rules;
mod schema;
mod script;
mod sight;
mod template;
mod walk;
mod words;

pub use grammar::{POLICY, QUERY, SCHEMA, Stage, Step, Term, When};
pub use hint::{Hint, Spot, listed};
pub use names::{column_name, literal_text, view_name};
pub use policy::{end_of, policy_hint};
pub use query::question_hint;
pub use rows::{key_hint, link_hint, rows_hint};
pub use rules::rule_hint;
pub use schema::{schema_hint, tokens_in};
pub use script::script_hint;
pub use sight::{Sight, Sources};
pub use template::template_hint;
pub use walk::{State, Taken, Walk, take_tokens};
pub use words::Words;
