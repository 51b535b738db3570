//! The first unsupported word outside of the queries of inclusion rules.
ghost use Rattle.std.specs.Prelude.{◌≡◌, Option, Some, None, map, option_map};
ghost use Rattle.ba_sql_ddl.specs.Scan.{behind_word, keyword_of, past_queries, scan, unsupported_keyword, unsupported_of};

use crate::brackets::inside;
use crate::statement::{behind_rule, behind_within};
use ba_grammar::is_sign;
use ba_lex::{Lexeme, Sign, is_word};
use ba_model::Str;

/// The words that a schema may not have, in any case.
const UNSUPPORTED: [&str; 13] = [
    "DEFAULT",
    "CHECK",
    "INDEX",
    "ENGINE",
    "AUTO_INCREMENT",
    "AUTOINCREMENT",
    "ON",
    "CASCADE",
    "ALTER",
    "DROP",
    "INSERT",
    "TEMPORARY",
    "IF",
];

/// The first of the keywords that the word is, in any case.
fn keyword_of<'a>(word: &Str, keywords: &[&'a str]) -> Option<&'a str>
    ensures { option_map (λ k. k.now) result ≡ keyword_of (map (λ k. k.now) keywords.now) word.now }
{
    for keyword in keywords {
        if is_word(word, *keyword) {
            return Some(*keyword);
        }
    }
    None
}

#[tactic(auto, unfolding(crate::specs::Scan::unsupported_keyword))]
fn unsupported_keyword(word: &Str) -> Option<&'static str>
    ensures { option_map (λ k. k.now) result ≡ unsupported_keyword word.now }
{
    keyword_of(word, &UNSUPPORTED)
}

fn unsupported_of(word: &Lexeme) -> Option<&'static str>
    ensures { option_map (λ k. k.now) result ≡ unsupported_of word.now }
{
    match word {
        Lexeme::Word(word) => unsupported_keyword(word),
        _ => None,
    }
}

/// Where a statement begins with these words: those behind the queries of a rule, or all of them.
#[tactic(auto, unfolding(crate::specs::Scan::past_queries))]
fn past_queries(words: &[Lexeme]) -> &[Lexeme]
    ensures { result.now ≡ past_queries words.now }
{
    let Some(left) = behind_rule(words) else {
        return words;
    };
    let (_, rest) = inside(left);
    let Some(right) = behind_within(rest) else {
        return rest;
    };
    let (_, rest) = inside(right);
    rest
}

/// The words to look at behind a word: a statement begins behind each `;`.
fn behind_word<'a>(word: &Lexeme, behind: &'a [Lexeme]) -> &'a [Lexeme]
    ensures { result.now ≡ behind_word word.now behind.now }
{
    if is_sign(word, Sign::Semicolon) {
        past_queries(behind)
    } else {
        behind
    }
}

/// The first unsupported word, in upper case. Those of the queries of rules are passed over: a query
/// goes to the bracket that matches the one before it, or to the end where that stays open.
#[tactic(auto, unfolding(crate::specs::Scan::scan))]
pub fn first_unsupported(words: &[Lexeme]) -> Option<&'static str>
    ensures { option_map (λ k. k.now) result ≡ scan words.now }
{
    let mut rest = past_queries(words);
    for _ in 0..words.len() {
        let [word, behind @ ..] = rest else {
            return None;
        };
        let found = unsupported_of(word);
        if found.is_some() {
            return found;
        }
        rest = behind_word(word, behind);
    }
    None
}
