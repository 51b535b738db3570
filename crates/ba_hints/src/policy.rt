//! Policies that aren't read.

use crate::grammar::{POLICY, Stage, Term};
use crate::hint::Hint;
use crate::lex::lex_hint;
use crate::query::{stop_hint, words_hint};
use crate::schema::{count_hint, tokens_in};
use crate::walk::take_tokens;
use crate::words::Words;
use ba_grammar::is_sign;
use ba_lex::{Sign, Token};
use ba_model::{Failure, MAX_TEXT_BYTES, Schema, Shared};
use ba_policy::{PolicyFault, read_policy};
use ba_sql_query::ReadQueryFault;
use std::alloc::{AllocError, Global};

// A hint on the first that is called by a name.
fn twice_hint(
    alloc: Global,
    bytes: &[u8],
    words: &Words<'_>,
    term: Term,
    name: &str,
) -> Result<Hint, AllocError> {
    let text = format!(in alloc; "{name} is declared twice")?;
    let place = words.find(term, None, name, words.taken.len());
    Ok(words.hint(bytes.len(), place, text))
}

// Where an argument has a name again: that of a parameter before its key, or of an argument of the
// same key.
fn argument_again(words: &Words<'_>, name: &str) -> Option<usize> {
    let mut is_known = false;
    for at in 0..words.taken.len() {
        if words.is(at, Term::CacheKey) {
            is_known = words.find(Term::Param, None, name, at).is_some();
        }
        if words.is(at, Term::Argument) && words.word(at) == name {
            if is_known {
                return Some(at);
            }
            is_known = true;
        }
    }
    None
}

// A hint on the argument that has a name again, else on the first parameter of the name.
fn param_hint(
    alloc: Global,
    bytes: &[u8],
    words: &Words<'_>,
    name: &str,
) -> Result<Hint, AllocError> {
    match argument_again(words, name) {
        Some(at) => {
            let text = format!(in alloc; "{name} is declared twice")?;
            Ok(words.hint(bytes.len(), Some(at), text))
        }
        None => twice_hint(alloc, bytes, words, Term::Param, name),
    }
}

/// The place of the `;` at or behind a token, or that behind the last token.
pub fn end_of(words: &Words<'_>, from: usize) -> usize {
    for (at, token) in words.tokens.iter().enumerate().skip(from) {
        if is_sign(&token.lexeme, Sign::Semicolon) {
            return at;
        }
    }
    words.tokens.len()
}

// A hint on the query of the view whose name stands at a token. The parameters that it may name are
// those of the policy before it.
fn view_hint(
    alloc: Global,
    schema: &Shared<Schema>,
    bytes: &[u8],
    words: &Words<'_>,
    at: usize,
    fault: &ReadQueryFault,
) -> Result<Hint, AllocError> {
    let from = at.saturating_add(2);
    let end = end_of(words, from);
    let tokens = words.between(from, end);
    let mark = words.mark(bytes.len(), at.saturating_sub(2));
    let front = bytes.get(..mark.start).unwrap_or(&[]);
    let policy = match read_policy(alloc, schema, front) {
        Ok(policy) => policy,
        Err(Failure::NoMemory) => return Err(AllocError),
        Err(Failure::Fault(_)) => return Hint::plain(alloc, "its words are no query"),
    };
    let tables: &Schema = schema;
    let params = policy.params.as_slice();
    words_hint(alloc, tables, params, bytes, tokens, fault)
}

// A hint on the query of the view of a name.
fn named_view_hint(
    alloc: Global,
    schema: &Shared<Schema>,
    bytes: &[u8],
    words: &Words<'_>,
    name: &str,
    fault: &ReadQueryFault,
) -> Result<Hint, AllocError> {
    let at = words.find(Term::View, None, name, words.taken.len());
    let hint = view_hint(alloc, schema, bytes, words, at.unwrap_or(0), fault)?;
    let text = format!(in alloc; "view {name}: {}", hint.text)?;
    Ok(Hint {
        spot: hint.spot,
        text,
    })
}

// A hint on the cache key of a name, one of whose queries is none.
fn key_hint(
    alloc: Global,
    bytes: &[u8],
    words: &Words<'_>,
    name: &str,
    fault: &ReadQueryFault,
) -> Result<Hint, AllocError> {
    let place = words.find(Term::CacheKey, None, name, words.taken.len());
    let text = match fault {
        ReadQueryFault::UnknownParam => {
            format!(in alloc;
                "key {name}: a query names what is neither an argument nor a parameter before the key"
            )?
        }
        ReadQueryFault::Unsupported(word) => {
            format!(in alloc; "key {name}: {word} isn't supported")?
        }
        _ => format!(in alloc; "key {name}: the words of one of its queries are none")?,
    };
    Ok(words.hint(bytes.len(), place, text))
}

// A hint on a fault of words.
fn fault_hint(
    alloc: Global,
    schema: &Shared<Schema>,
    bytes: &[u8],
    tokens: &[Token],
    fault: &PolicyFault,
) -> Result<Hint, AllocError> {
    let walk = take_tokens(alloc, &POLICY, Stage::Policy, tokens)?;
    let words = Words {
        tokens,
        taken: &walk.taken,
    };
    match fault {
        PolicyFault::Lex(fault) => lex_hint(alloc, bytes, *fault, MAX_TEXT_BYTES),
        PolicyFault::Syntax if walk.is_whole => {
            Hint::plain(alloc, "its words aren't those of a policy")
        }
        PolicyFault::Syntax => stop_hint(alloc, &POLICY, bytes, &words, &walk.state),
        PolicyFault::DuplicateParam(name) => param_hint(alloc, bytes, &words, name.as_str()),
        PolicyFault::DuplicateView(name) => {
            twice_hint(alloc, bytes, &words, Term::View, name.as_str())
        }
        PolicyFault::View(name, fault) => {
            named_view_hint(alloc, schema, bytes, &words, name.as_str(), fault)
        }
        PolicyFault::DuplicateKey(name) => {
            twice_hint(alloc, bytes, &words, Term::CacheKey, name.as_str())
        }
        PolicyFault::Key(name, fault) => key_hint(alloc, bytes, &words, name.as_str(), fault),
        PolicyFault::TooMany { what, limit } => count_hint(alloc, bytes, &words, *what, *limit),
    }
}

/// A hint on why a file is no policy for a schema, if it isn't one.
pub fn policy_hint(
    alloc: Global,
    schema: &Shared<Schema>,
    bytes: &[u8],
) -> Result<Option<Hint>, AllocError> {
    let fault = match read_policy(alloc, schema, bytes) {
        Ok(_) => return Ok(None),
        Err(Failure::NoMemory) => return Err(AllocError),
        Err(Failure::Fault(fault)) => fault,
    };
    let tokens = tokens_in(alloc, bytes)?;
    let hint = fault_hint(alloc, schema, bytes, tokens.as_slice(), &fault)?;
    Ok(Some(hint))
}
