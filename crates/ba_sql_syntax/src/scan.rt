//! The first word or sign that isn't supported.
ghost use Rattle.std.specs.Prelude.{◌≡◌, IfOk};
ghost use Rattle.ba_sql_syntax.specs.Scan.{after, begins_null, in_null_test, is_refused, nothing, scan, sign_unsupported, unsupported_there, word_unsupported};

use crate::word::{has_meaning, is_unsupported};
use ba_grammar::{begins_with_keyword, begins_with_sign, is_keyword, is_sign};
use ba_lex::{Lexeme, Sign, is_word};
use ba_model::Str;
use std::alloc::{AllocError, Global};

/// Directly behind what a word stands.
#[derive(Clone, Copy)]
pub struct Behind {
    /// `(`
    pub bracket: bool,
    /// IS
    pub is: bool,
    /// IS NOT
    pub is_not: bool,
}

/// At the start.
const NOTHING: Behind = Behind {
    bracket: false,
    is: false,
    is_not: false,
};

impl Behind {
    /// Behind what the next word stands.
    fn after(self, word: &Lexeme) -> Behind
        ensures { result ≡ after self word.now }
    {
        let is_not = self.is && is_keyword(word, "NOT");
        Behind {
            bracket: is_sign(word, Sign::LeftParen),
            is: is_keyword(word, "IS"),
            is_not,
        }
    }
}

/// Whether NULL or NOT NULL comes next.
#[tactic(auto, unfolding(crate::specs::Scan::begins_null))]
fn begins_with_null(words: &[Lexeme]) -> bool
    ensures { result ≡ begins_null words.now }
{
    match words {
        [] => false,
        [first, rest @ ..] => {
            is_keyword(first, "NULL")
                || (is_keyword(first, "NOT") && begins_with_keyword(rest, "NULL"))
        }
    }
}

/// Whether a word is one of an IS NULL or of an IS NOT NULL.
#[tactic(auto, unfolding(crate::specs::Scan::in_null_test))]
fn is_in_null_test(behind: Behind, word: &Str, others: &[Lexeme]) -> bool
    ensures { result ≡ in_null_test behind word.now others.now }
{
    (is_word(word, "IS") && begins_with_null(others))
        || (behind.is && is_word(word, "NOT") && begins_with_keyword(others, "NULL"))
        || ((behind.is || behind.is_not) && is_word(word, "NULL"))
}

/// Whether a word isn't supported where it stands.
#[tactic(auto, unfolding(crate::specs::Scan::is_refused))]
fn is_refused(behind: Behind, word: &Str, others: &[Lexeme]) -> bool
    ensures { result ≡ is_refused behind word.now others.now }
{
    if is_unsupported(word) {
        return !is_in_null_test(behind, word, others);
    }
    let is_subquery = behind.bracket && is_word(word, "SELECT");
    let is_call = begins_with_sign(others, Sign::LeftParen) && !has_meaning(word);
    is_subquery || is_call
}

/// The name of a word that isn't supported where it stands.
fn word_fault(
    alloc: Global,
    behind: Behind,
    word: &Str,
    others: &[Lexeme],
) -> Result<Option<Str>, AllocError>
    ensures { IfOk result (λ called. called ≡ word_unsupported behind word.now others.now) }
{
    if is_refused(behind, word, others) {
        let upper = word.as_str().to_ascii_uppercase(alloc)?;
        return Ok(Some(Str::from_string(upper)));
    }
    Ok(None)
}

fn sign_fault(alloc: Global, sign: Sign) -> Result<Option<Str>, AllocError>
    ensures { IfOk result (λ called. called ≡ sign_unsupported sign) }
{
    let text = match sign {
        Sign::Plus => "+",
        Sign::Minus => "-",
        Sign::Slash => "/",
        Sign::Percent => "%",
        _ => return Ok(None),
    };
    Ok(Some(Str::new(alloc, text)?))
}

fn fault_there(
    alloc: Global,
    behind: Behind,
    word: &Lexeme,
    others: &[Lexeme],
) -> Result<Option<Str>, AllocError>
    ensures { IfOk result (λ called. called ≡ unsupported_there behind word.now others.now) }
{
    match word {
        Lexeme::Word(text) => word_fault(alloc, behind, text, others),
        Lexeme::Sign(sign) => sign_fault(alloc, *sign),
        _ => Ok(None),
    }
}

/// The first that isn't supported: a word in upper case, or a sign.
#[tactic(auto, unfolding(crate::specs::Scan::scan))]
pub fn scan(alloc: Global, words: &[Lexeme]) -> Result<Option<Str>, AllocError>
    ensures { IfOk result (λ called. called ≡ scan nothing words.now) }
{
    let mut behind = NOTHING;
    let mut rest = words;
    while let [word, others @ ..] = rest {
        let called = fault_there(alloc, behind, word, others)?;
        if called.is_some() {
            return Ok(called);
        }
        behind = behind.after(word);
        rest = others;
    }
    Ok(None)
}
