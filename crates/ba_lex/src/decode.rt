//! What a spelling says.
ghost use Rattle.std.specs.Prelude.{◌≡◌, ◌≤◌, ◌^◌, false, pos, neg_ℤ, IfOk, MatchOption, ◌++◌, ◌∷◌, length};
ghost use Rattle.std.specs.Str.{IsUtf8};
ghost use Rattle.ba_model.specs.Readings.{Gives};
ghost use Rattle.ba_lex.specs.Spelling.{digits_value};
ghost use Rattle.ba_lex.specs.Tokens.{HasNoQuote, IsOfShape, after_quote, inside, lexeme_of, number_of, signed_value, undoubled};

use crate::front::Shape;
use crate::token::{LexFault, Lexeme};
use ba_model::{Failure, Str};
use std::alloc::{AllocError, Global};

/// The least number that is past 64 bits with a sign. Negated it is the least that they hold.
const PAST: u64 = 0x8000_0000_0000_0000;

fn as_text(bytes: &[u8]) -> &str
    requires { IsUtf8 bytes.now }
    ensures { result.now ≡ bytes.now }
{
    match str::from_utf8(bytes) {
        Ok(text) => text,
        Err(_) => unreachable!(),
    }
}

/// Without the first byte and the last.
fn inside(spelling: &[u8]) -> &[u8]
    requires { 2 ≤ length spelling.now }
    ensures { result.now ≡ inside spelling.now }
{
    &spelling[1..spelling.len() - 1]
}

/// The text before the first quote, and the text behind it.
fn split_at_quote(text: &str) -> Option<(&str, &str)>
    ensures { MatchOption result (HasNoQuote text.now)
        (λ parts. HasNoQuote parts.0.now × (text.now ≡ parts.0.now ++ 39 ∷ parts.1.now)) }
{
    text.split_once('\'')
}

/// Without a quote at the front.
fn after_quote(text: &str) -> &str
    ensures { result.now ≡ after_quote text.now }
{
    match text.strip_prefix('\'') {
        Some(rest) => rest,
        None => text,
    }
}

/// A text whose doubled quotes are single.
fn undoubled(alloc: Global, text: &str) -> Result<Str, AllocError>
    ensures { IfOk result (λ found. found ≡ undoubled false text.now) }
{
    let mut found = String::new(alloc);
    let mut rest = text;
    while let Some((before, after)) = split_at_quote(rest) {
        found.push_str(before)?;
        found.push_str("'")?;
        rest = after_quote(after);
    }
    found.push_str(rest)?;
    Ok(Str::from_string(found))
}

/// The number that decimal digits say, if it has at most 64 bits without a sign.
fn value(digits: &[u8]) -> Option<u64>
    ensures { MatchOption result (2 ^ 64 ≤ digits_value digits.now)
        (λ n. n ≡ digits_value digits.now) }
{
    let mut value = 0_u64;
    for digit in digits {
        let Some(shifted) = 10_u64.checked_mul(value) else {
            return None;
        };
        let Some(more) = shifted.checked_add(digit.saturating_sub(b'0') as u64) else {
            return None;
        };
        value = more;
    }
    Some(value)
}

fn plain(digits: &[u8]) -> Result<Lexeme, Failure<LexFault>>
    ensures { Gives result (number_of (pos (digits_value digits.now))) }
{
    match value(digits) {
        Some(n) if n < PAST => Ok(Lexeme::Number(n as i64)),
        _ => Err(Failure::Fault(LexFault::NumberTooLarge)),
    }
}

fn negative(digits: &[u8]) -> Result<Lexeme, Failure<LexFault>>
    ensures { Gives result (number_of (neg_ℤ (pos (digits_value digits.now)))) }
{
    match value(digits) {
        Some(n) if n < PAST => Ok(Lexeme::Number(-(n as i64))),
        Some(PAST) => Ok(Lexeme::Number(i64::MIN)),
        _ => Err(Failure::Fault(LexFault::NumberTooLarge)),
    }
}

fn number(spelling: &[u8]) -> Result<Lexeme, Failure<LexFault>>
    ensures { Gives result (number_of (signed_value spelling.now)) }
{
    match spelling {
        [b, digits @ ..] if *b == b'-' => negative(digits),
        _ => plain(spelling),
    }
}

/// What a spelling of a shape says.
#[tactic(auto, unfolding(crate::specs::Tokens::lexeme_of))]
pub fn lexeme(alloc: Global, shape: Shape, spelling: &[u8]) -> Result<Lexeme, Failure<LexFault>>
    requires spelled { IsOfShape shape spelling.now }
    requires utf8 { IsUtf8 spelling.now }
    ensures { Gives result (lexeme_of shape spelling.now) }
{
    match shape {
        Shape::Word => Ok(Lexeme::Word(Str::new(alloc, as_text(spelling))?)),
        Shape::Quoted => {
            let name = as_text(inside(spelling));
            Ok(Lexeme::Quoted(Str::new(alloc, name)?))
        }
        Shape::Number => number(spelling),
        Shape::Text => {
            let text = as_text(inside(spelling));
            Ok(Lexeme::Text(undoubled(alloc, text)?))
        }
        Shape::Param => {
            let name = as_text(&spelling[1..]);
            Ok(Lexeme::Param(Str::new(alloc, name)?))
        }
        Shape::Sign(sign) => Ok(Lexeme::Sign(sign)),
    }
}
