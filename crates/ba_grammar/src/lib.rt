//! Grammars over the words of a text, which are read from the left.
#![tactic(auto)]

mod error;
mod several;
mod sign;
mod word;
mod words;

pub use error::Syntax;
pub use several::{Element, all, listed};
pub use sign::{Signed, begins_with_sign, past_sign, skip_sign};
pub use word::{begins_with_keyword, is_among, is_keyword, is_sign, name, number, past_keyword};
pub use words::lexemes;
