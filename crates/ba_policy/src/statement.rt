//! Statements, as a policy writes them.
ghost use Rattle.std.specs.Prelude.{◌≡◌, IfOk, codes, drop, length, map};
ghost use Rattle.ba_grammar.specs.Front.{any_at, begins, is_keyword};
ghost use Rattle.ba_model.specs.Readings.{Sees};
ghost use Rattle.ba_policy.specs.Reader as reader;
ghost use Rattle.ba_policy.specs.Statements.{seen};

use ba_grammar::{
    Element, Syntax, begins_with_keyword, is_keyword, is_sign, listed, past_keyword, past_sign,
};
use ba_lex::{Lexeme, Sign};
use ba_model::{Duplicate, Failure, Kind, List, Parameter, Str};
use std::alloc::{AllocError, Global};
use std::marker::Model;

/// An argument of a cache key: `name ( INT | TEXT )`.
#[derive(Drop)]
pub struct Argument {
    pub parameter: Parameter,
}

impl Model for Argument {
    ghost use Rattle.ba_model.specs.declared.policy.Parameter.{Parameter as Declared};

    ghost Value = { Declared };

    ghost view = { λ it. it.parameter };
}

/// A statement of a policy.
#[derive(Drop)]
pub enum Statement<'a> {
    /// `PARAM name kind ;`
    Param {
        name: &'a Str,
        kind: Kind,
    },
    /// `CREATE VIEW name AS words ;`
    View {
        name: &'a Str,
        words: &'a [Lexeme],
    },
    /// `CREATE KEY name ( arguments ) AS words { ALSO words } ;`, with the words of each query
    Key {
        name: &'a Str,
        arguments: List<Argument>,
        queries: List<&'a [Lexeme]>,
    },
}

/// Any word.
#[tactic(auto, unfolding(ba_grammar::specs::Front::any_at))]
fn word(words: &[Lexeme]) -> Result<(&Str, &[Lexeme]), Failure<Syntax>>
    ensures { Sees (λ x. (x.0.now, x.1.now)) result (any_at words.now) }
{
    match words {
        [Lexeme::Word(word), rest @ ..] => Ok((word, rest)),
        _ => Err(Failure::Fault(Syntax)),
    }
}

#[tactic(auto, unfolding(crate::specs::Reader::kind_at))]
fn kind(words: &[Lexeme]) -> Result<(Kind, &[Lexeme]), Failure<Syntax>>
    ensures { Sees (λ x. (x.0, x.1.now)) result (reader.kind_at words.now) }
{
    match words {
        [first, rest @ ..] if is_keyword(first, "INT") => Ok((Kind::Int, rest)),
        [first, rest @ ..] if is_keyword(first, "TEXT") => Ok((Kind::Text, rest)),
        _ => Err(Failure::Fault(Syntax)),
    }
}

/// The words up to the next `;`, and those behind it.
fn up_to_end(words: &[Lexeme]) -> Result<(&[Lexeme], &[Lexeme]), Failure<Syntax>>
    ensures { Sees (λ x. (x.0.now, x.1.now)) result (reader.up_to_end words.now) }
{
    for at in 0..words.len() {
        if is_sign(&words[at], Sign::Semicolon) {
            return Ok((&words[..at], &words[at + 1..]));
        }
    }
    Err(Failure::Fault(Syntax))
}

#[tactic(auto, unfolding(crate::specs::Reader::param_at))]
fn param(words: &[Lexeme]) -> Result<(Statement<'_>, &[Lexeme]), Failure<Syntax>>
    ensures { Sees (λ x. (seen x.0, x.1.now)) result (reader.param_at words.now) }
{
    let rest = past_keyword(words, "PARAM")?;
    let (name, rest) = word(rest)?;
    let (kind, rest) = kind(rest)?;
    let rest = past_sign(rest, Sign::Semicolon)?;
    Ok((Statement::Param { name, kind }, rest))
}

#[tactic(auto, unfolding(crate::specs::Reader::view_at))]
fn view(words: &[Lexeme]) -> Result<(Statement<'_>, &[Lexeme]), Failure<Syntax>>
    ensures { Sees (λ x. (seen x.0, x.1.now)) result (reader.view_at words.now) }
{
    let rest = past_keyword(words, "CREATE")?;
    let rest = past_keyword(rest, "VIEW")?;
    let (name, rest) = word(rest)?;
    let rest = past_keyword(rest, "AS")?;
    let (words, rest) = up_to_end(rest)?;
    Ok((Statement::View { name, words }, rest))
}

impl Element<Lexeme> for Argument {
    ghost use Rattle.ba_policy.specs.Reader.{argument_at};

    ghost read_at = { argument_at };

    #[tactic(auto, unfolding(crate::specs::Reader::argument_at))]
    fn read(alloc: Global, words: &[Lexeme]) -> Result<(Argument, &[Lexeme]), Failure<Syntax>> {
        let (name, rest) = word(words)?;
        let (kind, rest) = kind(rest)?;
        let name = name.copy(alloc)?;
        let parameter = Parameter { name, kind };
        Ok((Argument { parameter }, rest))
    }
}

/// One argument or more, and the bracket behind them.
#[tactic(auto, unfolding(crate::specs::Reader::some_arguments_at))]
fn some_arguments(
    alloc: Global,
    words: &[Lexeme],
) -> Result<(List<Argument>, &[Lexeme]), Failure<Syntax>>
    ensures { Sees (λ x. (x.0, x.1.now)) result (reader.some_arguments_at words.now) }
{
    let (arguments, rest) = listed::<Lexeme, Argument>(alloc, words)?;
    let rest = past_sign(rest, Sign::RightParen)?;
    Ok((arguments, rest))
}

/// The arguments, and the bracket behind them.
#[tactic(auto, unfolding(crate::specs::Reader::arguments_at))]
fn arguments(
    alloc: Global,
    words: &[Lexeme],
) -> Result<(List<Argument>, &[Lexeme]), Failure<Syntax>>
    ensures { Sees (λ x. (x.0, x.1.now)) result (reader.arguments_at words.now) }
{
    match words {
        [first, rest @ ..] if is_sign(first, Sign::RightParen) => Ok((List::new(alloc), rest)),
        _ => some_arguments(alloc, words),
    }
}

/// The words between the words ALSO.
fn parted(alloc: Global, words: &[Lexeme]) -> Result<List<&[Lexeme]>, AllocError>
    ensures { IfOk result (λ found. map (λ query. query.now) found ≡ reader.parted words.now) }
{
    let mut found = List::new(alloc);
    let mut start = 0;
    for at in 0..words.len() {
        if is_keyword(&words[at], "ALSO") {
            found.push(&words[start..at])?;
            start = at + 1;
        }
    }
    found.push(&words[start..])?;
    Ok(found)
}

#[tactic(auto, unfolding(crate::specs::Reader::key_at))]
fn key(alloc: Global, words: &[Lexeme]) -> Result<(Statement<'_>, &[Lexeme]), Failure<Syntax>>
    ensures { Sees (λ x. (seen x.0, x.1.now)) result (reader.key_at words.now) }
{
    let rest = past_keyword(words, "CREATE")?;
    let rest = past_keyword(rest, "KEY")?;
    let (name, rest) = word(rest)?;
    let rest = past_sign(rest, Sign::LeftParen)?;
    let (arguments, rest) = arguments(alloc, rest)?;
    let rest = past_keyword(rest, "AS")?;
    let (words, rest) = up_to_end(rest)?;
    let queries = parted(alloc, words)?;
    Ok((
        Statement::Key {
            name,
            arguments,
            queries,
        },
        rest,
    ))
}

/// Whether the second word is KEY.
fn creates_key(words: &[Lexeme]) -> bool
    ensures { result ≡ begins (is_keyword (codes "KEY")) (drop 1 words.now) }
{
    match words {
        [] => false,
        [_, rest @ ..] => begins_with_keyword(rest, "KEY"),
    }
}

#[tactic(auto, unfolding(crate::specs::Reader::created_at))]
fn created(alloc: Global, words: &[Lexeme]) -> Result<(Statement<'_>, &[Lexeme]), Failure<Syntax>>
    ensures { Sees (λ x. (seen x.0, x.1.now)) result (reader.created_at words.now) }
{
    if creates_key(words) {
        return key(alloc, words);
    }
    view(words)
}

#[tactic(auto, unfolding(crate::specs::Reader::statement_at))]
fn next_statement(
    alloc: Global,
    words: &[Lexeme],
) -> Result<(Statement<'_>, &[Lexeme]), Failure<Syntax>>
    ensures { Sees (λ x. (seen x.0, x.1.now)) result (reader.statement_at words.now) }
{
    if begins_with_keyword(words, "PARAM") {
        return param(words);
    }
    created(alloc, words)
}

/// All of the words as statements, one after the other.
pub fn statements(alloc: Global, words: &[Lexeme]) -> Result<List<Statement<'_>>, Failure<Syntax>>
    ensures { Sees (λ found. map seen found) result (reader.statements_at words.now) }
{
    let mut found = List::new(alloc);
    let mut rest = words;
    for _ in 0..words.len() {
        if rest.is_empty() {
            return Ok(found);
        }
        let (next, behind) = next_statement(alloc, rest)?;
        found.push(next)?;
        rest = behind;
    }
    if !rest.is_empty() {
        return Err(Failure::Fault(Syntax));
    }
    Ok(found)
}
