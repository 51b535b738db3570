//! What tokens say, without their places.
ghost use Rattle.std.specs.Prelude.{◌≡◌, IfOk};
ghost use Rattle.ba_lex.specs.Tokens.{lexemes_of};

use ba_lex::{Lexeme, Token};
use ba_model::List;
use std::alloc::{AllocError, Global};

/// What the tokens say, in order.
pub fn lexemes(alloc: Global, tokens: List<Token>) -> Result<List<Lexeme>, AllocError>
    ensures { IfOk result (λ words. words ≡ lexemes_of tokens) }
{
    let words = tokens
        .into_vec()
        .into_iter()
        .map(|token| token.lexeme)
        .collect(alloc)?;
    Ok(List::from_vec(words))
}
