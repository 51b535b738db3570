//! Several of one sort, one after the other.
ghost use Rattle.std.specs.Prelude.{◌≡◌, length};
ghost use Rattle.ba_model.specs.Readings.{Gives, Sees};
ghost use Rattle.ba_grammar.specs.Front.{all, listed};
ghost use Rattle.ba_lex.specs.declared.token.Sign.TheVariants.{Comma};

use crate::error::Syntax;
use crate::sign::{Signed, begins_with_sign};
use ba_lex::{Lexeme, Sign};
use ba_model::{Failure, List};
use std::alloc::Global;

/// What a grammar reads at the front of words.
pub trait Element<W>: Drop {
    ghost use Rattle.ba_grammar.specs.Front.{ReadOf};
    ghost use Rattle.std.specs.Prelude.{List as Sequence};

    ghost read_at: { Sequence W → ReadOf W Self };

    fn read(alloc: Global, words: &[W]) -> Result<(Self, &[W]), Failure<Syntax>>
        ensures { Sees (λ x. (x.0, x.1.now)) result (read_at words.now) };
}

/// One or more, with commas between them, and the words behind.
pub fn listed<W: Signed, T: Element<W>>(
    alloc: Global,
    words: &[W],
) -> Result<(List<T>, &[W]), Failure<Syntax>>
    ensures { Sees (λ x. (x.0, x.1.now)) result (listed (W.sign_test Comma) T.read_at words.now) }
{
    let (first, behind) = T::read(alloc, words)?;
    let mut found = List::new(alloc);
    found.push(first)?;
    let mut rest = behind;
    for _ in 0..words.len() {
        if !begins_with_sign(rest, Sign::Comma) {
            return Ok((found, rest));
        }
        let (next, behind) = T::read(alloc, &rest[1..])?;
        found.push(next)?;
        rest = behind;
    }
    Ok((found, rest))
}

/// All of the words, one after the other; of no words none.
pub fn all<T: Element<Lexeme>>(alloc: Global, words: &[Lexeme]) -> Result<List<T>, Failure<Syntax>>
    ensures { Gives result (all T.read_at (length words.now) words.now) }
{
    let mut found = List::new(alloc);
    let mut rest = words;
    for _ in 0..words.len() {
        if rest.is_empty() {
            return Ok(found);
        }
        let (next, behind) = T::read(alloc, rest)?;
        found.push(next)?;
        rest = behind;
    }
    if !rest.is_empty() {
        return Err(Failure::Fault(Syntax));
    }
    Ok(found)
}
