//! The tokens of a text: of a query, a schema or a policy.
#![tactic(auto)]

mod all;
mod byte;
mod decode;
mod front;
pub mod laws;
mod token;
mod word;

pub use all::{tokens, tokens_of_bytes};
pub use token::{LexFault, Lexeme, Sign, Token};
pub use word::is_word;
