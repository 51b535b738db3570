//! Places in a text as a person reads them: lines and columns, marks, and how little of a text is shown.
#![tactic(auto)]

mod place;

pub use place::{LIST_CHARS, Mark, Place, WORD_CHARS, Window, shown};
