//! Rules of a schema that aren't read.

use crate::grammar::Term;
use crate::hint::Hint;
use crate::query::words_hint;
use crate::words::Words;
use ba_lex::Token;
use ba_model::{Failure, List, Schema};
use ba_sql_ddl::read_schema;
use ba_sql_query::{ReadQueryFault, read_query};
use std::alloc::{AllocError, Global};

/// A hint on the bracket before a query of a rule, where all words behind it were taken for words
/// of the query.
pub fn open_hint(
    alloc: Global,
    bytes: &[u8],
    words: &Words<'_>,
) -> Result<Option<Hint>, AllocError> {
    if words.taken.len() < words.tokens.len() {
        return Ok(None);
    }
    for at in (0..words.taken.len()).rev() {
        if words.is(at, Term::QueryOpen) {
            let text = String::from_str(alloc, "no bracket closes the one there")?;
            return Ok(Some(words.hint(bytes.len(), Some(at), text)));
        }
        if !words.is(at, Term::Any) && !words.is(at, Term::Open) && !words.is(at, Term::Close) {
            return Ok(None);
        }
    }
    Ok(None)
}

// The place of the first token of a term, at or behind a place.
fn place_of(words: &Words<'_>, term: Term, from: usize) -> Option<usize> {
    for at in from..words.taken.len() {
        if words.is(at, term) {
            return Some(at);
        }
    }
    None
}

// The place of RULE of the rule of a number, from 0.
fn place_of_rule(words: &Words<'_>, number: u32) -> Option<usize> {
    let mut count = 0u32;
    for at in 0..words.taken.len() {
        if words.is(at, Term::RuleKey) {
            if count == number {
                return Some(at);
            }
            count = count.saturating_add(1);
        }
    }
    None
}

// The bytes of a schema with blanks in place of its rules.
fn tables_alone(alloc: Global, bytes: &[u8], words: &Words<'_>) -> Result<Vec<u8>, AllocError> {
    let mut text = Vec::new(alloc);
    let mut from = 0;
    for at in 0..words.taken.len() {
        if !words.is(at, Term::RuleKey) {
            continue;
        }
        let right = place_of(words, Term::WithinKey, at).unwrap_or(words.tokens.len());
        let end = place_of(words, Term::QueryClose, right).unwrap_or(words.tokens.len());
        let start = words.mark(bytes.len(), at).start;
        text.extend_from_slice(bytes.get(from..start).unwrap_or(&[]))?;
        from = words.mark(bytes.len(), end.saturating_add(1)).end;
    }
    text.extend_from_slice(bytes.get(from..).unwrap_or(&[]))?;
    Ok(text)
}

// The schema of the tables of a text, if they are one.
fn schema_of_tables(
    alloc: Global,
    bytes: &[u8],
    words: &Words<'_>,
) -> Result<Option<Schema>, AllocError> {
    let text = tables_alone(alloc, bytes, words)?;
    match read_schema(alloc, text.as_slice()) {
        Ok(schema) => Ok(Some(schema)),
        Err(Failure::NoMemory) => Err(AllocError),
        Err(Failure::Fault(_)) => Ok(None),
    }
}

// The text of tokens.
fn text_of<'a>(bytes: &'a [u8], tokens: &[Token]) -> &'a str {
    match tokens {
        [first, .., last] => {
            let text = bytes.get(first.start..last.end).unwrap_or(&[]);
            std::str::from_utf8(text).unwrap_or("")
        }
        _ => "",
    }
}

// The query of a rule between the brackets at and behind a place.
fn query_behind<'a>(words: &Words<'a>, from: usize) -> &'a [Token] {
    let open = place_of(words, Term::QueryOpen, from).unwrap_or(words.tokens.len());
    let close = place_of(words, Term::QueryClose, open).unwrap_or(words.tokens.len());
    words.between(open.saturating_add(1), close)
}

// The fault of a query without parameters, if it has one.
fn query_fault(
    alloc: Global,
    schema: &Schema,
    text: &str,
) -> Result<Option<ReadQueryFault>, AllocError> {
    let params = List::new(alloc);
    match read_query(alloc, schema, &params, text) {
        Ok(_) => Ok(None),
        Err(Failure::NoMemory) => Err(AllocError),
        Err(Failure::Fault(fault)) => Ok(Some(fault)),
    }
}

// A hint on the first query of a rule that has a fault, or on its heads, where RULE stands at a
// place.
fn queries_hint(
    alloc: Global,
    schema: &Schema,
    bytes: &[u8],
    words: &Words<'_>,
    at: usize,
) -> Result<Hint, AllocError> {
    let left = query_behind(words, at);
    if let Some(fault) = query_fault(alloc, schema, text_of(bytes, left))? {
        return words_hint(alloc, schema, &[], bytes, left, &fault);
    }
    let within = place_of(words, Term::WithinKey, at).unwrap_or(words.tokens.len());
    let right = query_behind(words, within);
    if let Some(fault) = query_fault(alloc, schema, text_of(bytes, right))? {
        return words_hint(alloc, schema, &[], bytes, right, &fault);
    }
    let text = String::from_str(
        alloc,
        "its two queries give rows of different lengths or kinds",
    )?;
    Ok(words.hint(bytes.len(), Some(at), text))
}

/// A hint on the rule of a number, which has a fault.
pub fn rule_hint(
    alloc: Global,
    bytes: &[u8],
    words: &Words<'_>,
    number: u32,
) -> Result<Hint, AllocError> {
    let plain =
        "a query of it isn't read, or its two queries give rows of different lengths or kinds";
    let schema = schema_of_tables(alloc, bytes, words)?;
    let hint = match (schema, place_of_rule(words, number)) {
        (Some(schema), Some(at)) => queries_hint(alloc, &schema, bytes, words, at)?,
        _ => Hint::plain(alloc, plain)?,
    };
    let text = format!(in alloc; "rule {number}: {}", hint.text)?;
    Ok(Hint {
        spot: hint.spot,
        text,
    })
}
