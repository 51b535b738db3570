//! Questions that aren't read.

use crate::grammar::{QUERY, Stage, Step, Term};
use crate::hint::{Hint, either, listed};
use crate::lex::lex_hint;
use crate::sight::Sight;
use crate::walk::{State, is_reserved, take_tokens};
use crate::words::Words;
use ba_grammar::{is_keyword, is_sign};
use ba_lex::{Lexeme, Sign, Token, tokens};
use ba_model::{Failure, MAX_QUERY_BYTES, Parameter, Schema};
use ba_sql_query::ReadQueryFault;
use std::alloc::{AllocError, Global};

// What is told where no token is found to have the fault.
fn general_text(fault: &ReadQueryFault) -> &'static str {
    match fault {
        ReadQueryFault::Lex(_) => "its characters aren't those of words",
        ReadQueryFault::Unsupported(_) => "something in it isn't supported",
        ReadQueryFault::Syntax => "its words aren't those of a query",
        ReadQueryFault::UnknownTable => {
            "a table in it isn't in the schema, or the name before a column's isn't that of a source"
        }
        ReadQueryFault::UnknownColumn => {
            "a column in it isn't in its source, or, without a source's name before it, in none"
        }
        ReadQueryFault::Ambiguous => {
            "a name before a column's is that of two sources, or a column without one is in several"
        }
        ReadQueryFault::UnknownParam => "a parameter in it isn't one of the policy",
        ReadQueryFault::KindDiffers => "it compares a number with a text",
        ReadQueryFault::OrderOnText => {
            "it asks for an order of texts: <, <=, > and >= are for numbers"
        }
        ReadQueryFault::HeadDiffers => "two of its selects give rows of different lengths or kinds",
        ReadQueryFault::TooMany => {
            "it has more than 32 parts, or a part with more than 8 tables, 64 conditions or 256 columns"
        }
    }
}

/// What was wanted where the words could be read no further.
pub fn stop_hint(
    alloc: Global,
    steps: &[Step],
    bytes: &[u8],
    words: &Words<'_>,
    state: &State,
) -> Result<Hint, AllocError> {
    let at = words.taken.len();
    let wanted = state.wanted(alloc, steps)?;
    let wanted = either(alloc, &wanted)?;
    let text = if at < words.tokens.len() {
        let found = words.spelled(alloc, bytes, at)?;
        format!(in alloc; "{found} stands where {wanted} is expected")?
    } else {
        format!(in alloc; "the words end where {wanted} is expected")?
    };
    Ok(words.hint(bytes.len(), Some(at), text))
}

// Whether a bracket opens at a token.
fn is_open(tokens: &[Token], at: usize) -> bool {
    match tokens.get(at) {
        Some(token) => is_sign(&token.lexeme, Sign::LeftParen),
        None => false,
    }
}

// Whether a token is a keyword.
fn is_keyword_at(tokens: &[Token], at: usize, keyword: &str) -> bool {
    match tokens.get(at) {
        Some(token) => is_keyword(&token.lexeme, keyword),
        None => false,
    }
}

// How many tokens an IS NULL or an IS NOT NULL has that begins there; 0 if there is none.
fn null_test_length(tokens: &[Token], at: usize) -> usize {
    if !is_keyword_at(tokens, at, "IS") {
        return 0;
    }
    let second = at.saturating_add(1);
    if is_keyword_at(tokens, second, "NULL") {
        return 2;
    }
    let third = at.saturating_add(2);
    if is_keyword_at(tokens, second, "NOT") && is_keyword_at(tokens, third, "NULL") {
        return 3;
    }
    0
}

// Whether a token is one of an IS NULL or of an IS NOT NULL.
fn is_in_null_test(tokens: &[Token], at: usize) -> bool {
    for before in 0..3 {
        let Some(first) = at.checked_sub(before) else {
            return false;
        };
        if null_test_length(tokens, first) > before {
            return true;
        }
    }
    false
}

// Why a token that spells the word that isn't supported is the one that isn't.
fn unsupported_text(tokens: &[Token], at: usize) -> Option<&'static str> {
    let token = tokens.get(at)?;
    if is_in_null_test(tokens, at) {
        return None;
    }
    if is_keyword(&token.lexeme, "IS")
        || is_keyword(&token.lexeme, "NOT")
        || is_keyword(&token.lexeme, "NULL")
    {
        return Some("is supported in IS NULL and IS NOT NULL alone");
    }
    if is_keyword(&token.lexeme, "SELECT") {
        let before = at.checked_sub(1)?;
        return is_open(tokens, before).then_some("isn't supported inside brackets");
    }
    if is_reserved(&token.lexeme) || matches!(&token.lexeme, Lexeme::Sign(_)) {
        return Some("isn't supported");
    }
    is_open(tokens, at.saturating_add(1)).then_some(
        "before a bracket isn't supported: there are no functions",
    )
}

fn unsupported_hint(
    alloc: Global,
    bytes: &[u8],
    words: &Words<'_>,
    word: &str,
) -> Result<Hint, AllocError> {
    for at in 0..words.tokens.len() {
        let mark = words.mark(bytes.len(), at);
        let spelling = bytes.get(mark.start..mark.end).unwrap_or(&[]);
        if spelling.eq_ignore_ascii_case(word.as_bytes())
            && let Some(why) = unsupported_text(words.tokens, at)
        {
            let text = format!(in alloc; "{word} {why}")?;
            return Ok(words.hint(bytes.len(), Some(at), text));
        }
    }
    let text = format!(in alloc; "{word} isn't supported")?;
    Hint::plain(alloc, text.as_str())
}

// The names that there are in the place of a token's.
fn names_there(
    alloc: Global,
    sight: &Sight<'_>,
    fault: &ReadQueryFault,
    at: usize,
) -> Result<String, AllocError> {
    let names = match fault {
        ReadQueryFault::UnknownTable if sight.words.is(at, Term::Table) => sight.tables(alloc),
        ReadQueryFault::UnknownColumn => sight.columns(alloc, at),
        ReadQueryFault::UnknownParam => sight.params(alloc),
        _ => sight.called_there(alloc, at),
    };
    let names = names?;
    if names.is_empty() {
        return String::from_str(alloc, "(none)");
    }
    listed(alloc, &names)
}

// The fault of a token in words, with the names that there are.
fn name_text(
    alloc: Global,
    bytes: &[u8],
    sight: &Sight<'_>,
    fault: &ReadQueryFault,
    at: usize,
) -> Result<String, AllocError> {
    let word = sight.words.spelled(alloc, bytes, at)?;
    let names = names_there(alloc, sight, fault, at)?;
    match fault {
        ReadQueryFault::UnknownTable if sight.words.is(at, Term::Table) => {
            format!(in alloc; "there is no table {word}; the tables are {names}")
        }
        ReadQueryFault::UnknownTable => {
            format!(in alloc; "no source is called {word}; the sources are {names}")
        }
        ReadQueryFault::UnknownColumn => {
            format!(in alloc; "there is no column {word}; the columns are {names}")
        }
        ReadQueryFault::Ambiguous if sight.words.is(at, Term::Qualifier) => {
            format!(in alloc;
                "two sources are called {word}: give one another name behind its table's"
            )
        }
        ReadQueryFault::Ambiguous => {
            format!(in alloc;
                "several sources have a column {word}: put the name of one before it, and a dot; the sources are {names}"
            )
        }
        ReadQueryFault::UnknownParam => {
            format!(in alloc; "there is no parameter {word}; the parameters are {names}")
        }
        _ => String::from_str(alloc, general_text(fault)),
    }
}

// A hint on the first of the names and comparisons that has the fault.
fn sight_hint(
    alloc: Global,
    bytes: &[u8],
    sight: &Sight<'_>,
    fault: &ReadQueryFault,
) -> Result<Hint, AllocError> {
    match sight.first(fault) {
        Some(at) => {
            let text = name_text(alloc, bytes, sight, fault, at)?;
            Ok(sight.words.hint(bytes.len(), Some(at), text))
        }
        None => Hint::plain(alloc, general_text(fault)),
    }
}

/// A hint on why these tokens of a text are no query.
pub fn words_hint<'a>(
    alloc: Global,
    schema: &'a Schema,
    params: &'a [Parameter],
    bytes: &[u8],
    tokens: &'a [Token],
    fault: &ReadQueryFault,
) -> Result<Hint, AllocError> {
    let walk = take_tokens(alloc, &QUERY, Stage::Query, tokens)?;
    let words = Words {
        tokens,
        taken: &walk.taken,
    };
    let sight = Sight {
        schema,
        params,
        words,
    };
    match fault {
        ReadQueryFault::Unsupported(word) => unsupported_hint(alloc, bytes, &words, word.as_str()),
        ReadQueryFault::Syntax if !walk.is_whole => {
            stop_hint(alloc, &QUERY, bytes, &words, &walk.state)
        }
        _ => sight_hint(alloc, bytes, &sight, fault),
    }
}

/// A hint on why a text is no question.
pub fn question_hint(
    alloc: Global,
    schema: &Schema,
    params: &[Parameter],
    text: &str,
    fault: &ReadQueryFault,
) -> Result<Hint, AllocError> {
    if let ReadQueryFault::Lex(fault) = fault {
        return lex_hint(alloc, text.as_bytes(), *fault, MAX_QUERY_BYTES);
    }
    let found = match tokens(alloc, text, MAX_QUERY_BYTES) {
        Ok(found) => found,
        Err(Failure::NoMemory) => return Err(AllocError),
        Err(Failure::Fault(_)) => return Hint::plain(alloc, general_text(fault)),
    };
    let words = found.as_slice();
    words_hint(alloc, schema, params, text.as_bytes(), words, fault)
}
