//! One terminal at the front.
ghost use Rattle.std.specs.Prelude.{◌≡◌};
ghost use Rattle.ba_grammar.specs.Front.{begins, past, skip};
ghost use Rattle.ba_model.specs.Readings.{Sees};
ghost use Rattle.ba_sql_syntax.specs.Reader.{constant_at, is_name, name_at};
ghost use Rattle.ba_sql_syntax.specs.Terminals.{is_key};

use crate::word::{Key, Terminal};
use crate::written::Constant;
use ba_grammar::{Signed, Syntax};
use ba_lex::Sign;
use ba_model::{Duplicate, Failure, Str};
use std::alloc::Global;

fn is_key(word: &Terminal, key: Key) -> bool
    ensures { result ≡ is_key key word.now }
{
    match word {
        Terminal::Key(found) => *found as u8 == key as u8,
        _ => false,
    }
}

impl Signed for Terminal {
    ghost use Rattle.ba_sql_syntax.specs.Terminals.{is_sign};

    ghost sign_test = { is_sign };

    fn has_sign(&self, sign: Sign) -> bool {
        match self {
            Terminal::Sign(found) => *found as u8 == sign as u8,
            _ => false,
        }
    }
}

pub fn begins_with(words: &[Terminal], key: Key) -> bool
    ensures { result ≡ begins (is_key key) words.now }
{
    match words {
        [] => false,
        [first, ..] => is_key(first, key),
    }
}

pub fn begins_with_name(words: &[Terminal]) -> bool
    ensures { result ≡ begins is_name words.now }
{
    match words {
        [Terminal::Name(_), ..] => true,
        _ => false,
    }
}

/// The words behind a keyword.
pub fn past(words: &[Terminal], key: Key) -> Result<&[Terminal], Failure<Syntax>>
    ensures { Sees (λ rest. rest.now) result (past (is_key key) words.now) }
{
    match words {
        [first, rest @ ..] if is_key(first, key) => Ok(rest),
        _ => Err(Failure::Fault(Syntax)),
    }
}

/// The words without a keyword at the front.
pub fn skip(words: &[Terminal], key: Key) -> &[Terminal]
    ensures { result.now ≡ skip (is_key key) words.now }
{
    match words {
        [first, rest @ ..] if is_key(first, key) => rest,
        _ => words,
    }
}

/// A name: a word that isn't reserved, or a quoted name.
#[tactic(auto, unfolding(crate::specs::Reader::name_at))]
pub fn name(alloc: Global, words: &[Terminal]) -> Result<(Str, &[Terminal]), Failure<Syntax>>
    ensures { Sees (λ x. (x.0, x.1.now)) result (name_at words.now) }
{
    match words {
        [Terminal::Name(name), rest @ ..] => Ok((name.copy(alloc)?, rest)),
        _ => Err(Failure::Fault(Syntax)),
    }
}

/// A number, a text, a parameter, TRUE or FALSE.
#[tactic(auto, unfolding(crate::specs::Reader::constant_at))]
pub fn constant(
    alloc: Global,
    words: &[Terminal],
) -> Result<(Constant, &[Terminal]), Failure<Syntax>>
    ensures { Sees (λ x. (x.0, x.1.now)) result (constant_at words.now) }
{
    match words {
        [Terminal::Constant(constant), rest @ ..] => Ok((constant.copy(alloc)?, rest)),
        _ => Err(Failure::Fault(Syntax)),
    }
}
