//! One word at the front.
ghost use Rattle.std.specs.Prelude.{◌≡◌, true, map};
ghost use Rattle.std.specs.List.{list_any};
ghost use Rattle.ba_lex.specs.Word.{is_word};
ghost use Rattle.ba_model.specs.Readings.{Sees};
ghost use Rattle.ba_grammar.specs.Items.{is_among};
ghost use Rattle.ba_grammar.specs.Front.{begins, is_keyword, is_sign, name_at, number_at, past};

use crate::error::Syntax;
use ba_lex::{Lexeme, Sign, is_word};
use ba_model::{Duplicate, Failure, Str};
use std::alloc::Global;

fn is_any(word: &Str, keywords: &[&str]) -> bool
    ensures { result ≡ list_any (λ keyword. is_word word.now keyword.now) keywords.now }
{
    keywords.iter().any(|keyword| is_word(word, keyword))
}

/// Whether the word is one of the keywords, in any case.
pub fn is_among(word: &Str, keywords: &[&str]) -> bool
    ensures { result ≡ is_among (map (λ keyword. keyword.now) keywords.now) word.now }
{
    is_any(word, keywords)
}

pub fn is_sign(word: &Lexeme, sign: Sign) -> bool
    ensures { result ≡ is_sign sign word.now }
{
    match word {
        Lexeme::Sign(found) => *found as u8 == sign as u8,
        _ => false,
    }
}

pub fn is_keyword(word: &Lexeme, keyword: &str) -> bool
    ensures { result ≡ is_keyword keyword.now word.now }
{
    match word {
        Lexeme::Word(found) => is_word(found, keyword),
        _ => false,
    }
}

pub fn begins_with_keyword(words: &[Lexeme], keyword: &str) -> bool
    ensures { result ≡ begins (is_keyword keyword.now) words.now }
{
    match words {
        [] => false,
        [first, ..] => is_keyword(first, keyword),
    }
}

pub fn past_keyword<'a>(words: &'a [Lexeme], keyword: &str) -> Result<&'a [Lexeme], Failure<Syntax>>
    ensures { Sees (λ rest. rest.now) result (past (is_keyword keyword.now) words.now) }
{
    match words {
        [first, rest @ ..] if is_keyword(first, keyword) => Ok(rest),
        _ => Err(Failure::Fault(Syntax)),
    }
}

/// A name: a word that isn't one of the reserved ones, or a quoted name.
#[tactic(auto, unfolding(crate::specs::Front::name_at))]
pub fn name<'a>(
    alloc: Global,
    words: &'a [Lexeme],
    reserved: &[&str],
) -> Result<(Str, &'a [Lexeme]), Failure<Syntax>>
    ensures { Sees (λ x. (x.0, x.1.now)) result
        (name_at (map (λ keyword. keyword.now) reserved.now) words.now) }
{
    match words {
        [Lexeme::Word(word), rest @ ..] => {
            if is_among(word, reserved) {
                return Err(Failure::Fault(Syntax));
            }
            Ok((word.copy(alloc)?, rest))
        }
        [Lexeme::Quoted(name), rest @ ..] => Ok((name.copy(alloc)?, rest)),
        _ => Err(Failure::Fault(Syntax)),
    }
}

#[tactic(auto, unfolding(crate::specs::Front::number_at))]
pub fn number(words: &[Lexeme]) -> Result<(i64, &[Lexeme]), Failure<Syntax>>
    ensures { Sees (λ x. (x.0, x.1.now)) result (number_at words.now) }
{
    match words {
        [Lexeme::Number(n), rest @ ..] => Ok((*n, rest)),
        _ => Err(Failure::Fault(Syntax)),
    }
}
