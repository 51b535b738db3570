//! Statements read from the left: tables, and inclusion rules.
ghost use Rattle.std.specs.Prelude.{◌≡◌, option_map};
ghost use Rattle.ba_model.specs.Readings.{Sees};
ghost use Rattle.ba_sql_ddl.specs.Reader as reader;
ghost use Rattle.ba_sql_ddl.specs.Written.{seen, seen_text};

use crate::brackets::inside;
use crate::read::table;
use crate::written::TableText;
use ba_grammar::{Syntax, begins_with_keyword, is_keyword, is_sign};
use ba_lex::{Lexeme, Sign};
use ba_model::{Failure, List};
use std::alloc::Global;

/// The words of an inclusion rule's two queries.
#[derive(Clone, Copy)]
pub struct Inclusion<'a> {
    pub left: &'a [Lexeme],
    pub right: &'a [Lexeme],
}

/// The tables and the inclusion rules that are written, each in their order.
#[derive(Drop)]
pub struct SchemaText<'a> {
    pub tables: List<TableText>,
    pub inclusions: List<Inclusion<'a>>,
}

/// The words behind `RULE (`, if these begin so.
#[tactic(auto, unfolding(crate::specs::Reader::behind_rule))]
pub fn behind_rule(words: &[Lexeme]) -> Option<&[Lexeme]>
    ensures { option_map (λ rest. rest.now) result ≡ reader.behind_rule words.now }
{
    match words {
        [rule, open, rest @ ..] if is_keyword(rule, "RULE") && is_sign(open, Sign::LeftParen) =>
            Some(rest),
        _ => None,
    }
}

/// The words behind `) WITHIN (`, if these begin so.
#[tactic(auto, unfolding(crate::specs::Reader::behind_within))]
pub fn behind_within(words: &[Lexeme]) -> Option<&[Lexeme]>
    ensures { option_map (λ rest. rest.now) result ≡ reader.behind_within words.now }
{
    match words {
        [close, within, open, rest @ ..]
            if is_sign(close, Sign::RightParen)
                && is_keyword(within, "WITHIN")
                && is_sign(open, Sign::LeftParen) => Some(rest),
        _ => None,
    }
}

/// The words behind `) ;`, if these begin so.
#[tactic(auto, unfolding(crate::specs::Reader::behind_end))]
fn behind_end(words: &[Lexeme]) -> Option<&[Lexeme]>
    ensures { option_map (λ rest. rest.now) result ≡ reader.behind_end words.now }
{
    match words {
        [close, end, rest @ ..]
            if is_sign(close, Sign::RightParen) && is_sign(end, Sign::Semicolon) => Some(rest),
        _ => None,
    }
}

/// `RULE ( words ) WITHIN ( words ) ;`, the words going to the bracket that matches.
#[tactic(auto, unfolding(crate::specs::Reader::inclusion_at))]
fn read_inclusion(words: &[Lexeme]) -> Result<(Inclusion<'_>, &[Lexeme]), Failure<Syntax>>
    ensures { Sees (λ x. (seen x.0, x.1.now)) result (reader.inclusion_at words.now) }
{
    let Some(words) = behind_rule(words) else {
        return Err(Failure::Fault(Syntax));
    };
    let (left, rest) = inside(words);
    let Some(words) = behind_within(rest) else {
        return Err(Failure::Fault(Syntax));
    };
    let (right, rest) = inside(words);
    let Some(rest) = behind_end(rest) else {
        return Err(Failure::Fault(Syntax));
    };
    Ok((Inclusion { left, right }, rest))
}

fn add_inclusion<'a>(
    text: &mut SchemaText<'a>,
    words: &'a [Lexeme],
) -> Result<&'a [Lexeme], Failure<Syntax>>
    ensures { Sees (λ rest. (seen_text text.new, rest.now)) result
        (reader.inclusion_added (seen_text text.old) words.now) }
{
    let (inclusion, rest) = read_inclusion(words)?;
    text.inclusions.push(inclusion)?;
    Ok(rest)
}

fn add_table<'a>(
    alloc: Global,
    text: &mut SchemaText<'_>,
    words: &'a [Lexeme],
) -> Result<&'a [Lexeme], Failure<Syntax>>
    ensures { Sees (λ rest. (seen_text text.new, rest.now)) result
        (reader.table_added (seen_text text.old) words.now) }
{
    let (table, rest) = table(alloc, words)?;
    text.tables.push(table)?;
    Ok(rest)
}

/// Reads the statement at the front, and gives the words behind it. After a refusal the text is of
/// no use.
#[tactic(auto, unfolding(crate::specs::Reader::statement_at))]
fn add_statement<'a>(
    alloc: Global,
    text: &mut SchemaText<'a>,
    words: &'a [Lexeme],
) -> Result<&'a [Lexeme], Failure<Syntax>>
    ensures { Sees (λ rest. (seen_text text.new, rest.now)) result
        (reader.statement_added (seen_text text.old) words.now) }
{
    if begins_with_keyword(words, "RULE") {
        return add_inclusion(text, words);
    }
    add_table(alloc, text, words)
}

/// All of the words as statements, one after the other.
#[tactic(auto, unfolding(crate::specs::Reader::text_at))]
pub fn statements(alloc: Global, words: &[Lexeme]) -> Result<SchemaText<'_>, Failure<Syntax>>
    ensures { Sees seen_text result (reader.text_at words.now) }
{
    let mut text = SchemaText {
        tables: List::new(alloc),
        inclusions: List::new(alloc),
    };
    let mut rest = words;
    for _ in 0..words.len() {
        if rest.is_empty() {
            return Ok(text);
        }
        rest = add_statement(alloc, &mut text, rest)?;
    }
    if !rest.is_empty() {
        return Err(Failure::Fault(Syntax));
    }
    Ok(text)
}
