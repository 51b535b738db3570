//! Schemas that aren't read.

use crate::grammar::{SCHEMA, Stage, Term};
use crate::hint::{Hint, listed};
use crate::lex::lex_hint;
use crate::query::stop_hint;
use crate::rule::{open_hint, rule_hint};
use crate::walk::take_tokens;
use crate::words::Words;
use ba_grammar::{is_among, is_keyword};
use ba_lex::{Token, tokens_of_bytes};
use ba_model::{Counted, Failure, List, MAX_TEXT_BYTES, SchemaFault, Str};
use ba_sql_ddl::{DdlFault, read_schema};
use std::alloc::{AllocError, Global};

/// Words of clauses that a schema may go without: with less said of its databases no more is
/// answered.
const NEEDLESS: [&str; 8] = [
    "DEFAULT",
    "CHECK",
    "INDEX",
    "ENGINE",
    "AUTO_INCREMENT",
    "AUTOINCREMENT",
    "ON",
    "CASCADE",
];

/// The tokens of a file, of which there are none where it has a fault of its characters.
pub fn tokens_in(alloc: Global, bytes: &[u8]) -> Result<List<Token>, AllocError> {
    match tokens_of_bytes(alloc, bytes, MAX_TEXT_BYTES) {
        Ok(tokens) => Ok(tokens),
        Err(Failure::NoMemory) => Err(AllocError),
        Err(Failure::Fault(_)) => Ok(List::new(alloc)),
    }
}

/// Whether a token makes one more of what is counted.
fn is_counted(words: &Words<'_>, what: Counted, at: usize) -> bool {
    match what {
        Counted::Tables => words.is(at, Term::NewTable),
        Counted::Columns => words.is(at, Term::NewColumn),
        Counted::Links => words.is(at, Term::Target),
        Counted::Rules => words.is(at, Term::RuleKey),
        Counted::Views => words.is(at, Term::View),
        Counted::CacheKeys => words.is(at, Term::CacheKey),
        Counted::Params => words.is(at, Term::Param),
        Counted::Keys => words.is(at, Term::Primary) || words.is(at, Term::Unique),
        _ => false,
    }
}

// What is counted, of what.
fn counted_text(what: Counted) -> &'static str {
    match what {
        Counted::Tables => "tables",
        Counted::Columns => "columns of a table",
        Counted::Links => "links of a table",
        Counted::Keys => "keys of a table",
        Counted::Rules => "rules",
        Counted::Views => "views",
        Counted::CacheKeys => "cache keys",
        Counted::KeyQueries => "queries of a cache key",
        _ => "parameters",
    }
}

/// A hint on the first that is one too many: of all, or of a table.
pub fn count_hint(
    alloc: Global,
    bytes: &[u8],
    words: &Words<'_>,
    what: Counted,
    limit: u64,
) -> Result<Hint, AllocError> {
    let what_text = counted_text(what);
    let mut count = 0u64;
    let mut group = 0;
    for at in 0..words.taken.len() {
        if words.group(at) != group && !matches!(&what, Counted::Tables | Counted::Rules) {
            count = 0;
        }
        group = words.group(at);
        if is_counted(words, what, at) {
            count = count.saturating_add(1);
        }
        if count > limit {
            let word = words.spelled(alloc, bytes, at)?;
            let text = format!(in alloc;
                "{word} is one too many: there are more than {limit} {what_text}"
            )?;
            return Ok(words.hint(bytes.len(), Some(at), text));
        }
    }
    let text = format!(in alloc; "it has more than {limit} {what_text}")?;
    Hint::plain(alloc, text.as_str())
}

// The number of the table that a link's column is looked for in: that of the target before it.
fn target_group(words: &Words<'_>, at: usize) -> Option<u32> {
    for before in (0..at).rev() {
        if words.is(before, Term::Target) {
            let all = words.taken.len();
            let target = words.find(Term::NewTable, None, words.word(before), all)?;
            return Some(words.group(target));
        }
    }
    None
}

// Whether a token is the only one of its term.
fn is_only(words: &Words<'_>, at: usize, term: Term) -> bool {
    for other in 0..words.taken.len() {
        if other != at && words.is(other, term) {
            return false;
        }
    }
    true
}

// Whether a token has the fault.
fn has(words: &Words<'_>, fault: SchemaFault, at: usize) -> bool {
    let word = words.word(at);
    let all = words.taken.len();
    let own = Some(words.group(at));
    match (fault, words.term(at)) {
        (SchemaFault::DuplicateTable, Term::NewTable) => {
            words.find(Term::NewTable, None, word, at).is_some()
        }
        (SchemaFault::DuplicateColumn, Term::NewColumn) => {
            words.find(Term::NewColumn, own, word, at).is_some()
        }
        (SchemaFault::UnknownTable, Term::Target) => {
            words.find(Term::NewTable, None, word, all).is_none()
        }
        (SchemaFault::UnknownColumn, Term::KeyColumn | Term::LinkColumn) => {
            words.find(Term::NewColumn, own, word, all).is_none()
        }
        (SchemaFault::UnknownColumn, Term::TargetColumn) => {
            let group = target_group(words, at);
            group.is_some() && words.find(Term::NewColumn, group, word, all).is_none()
        }
        (SchemaFault::WidthDiffers | SchemaFault::KindDiffers, Term::Target) => {
            is_only(words, at, Term::Target)
        }
        _ => false,
    }
}

// A fault of a schema in words, at a token that has it.
fn fault_text(
    alloc: Global,
    words: &Words<'_>,
    fault: SchemaFault,
    at: usize,
) -> Result<String, AllocError> {
    let word = words.word(at);
    match fault {
        SchemaFault::UnknownTable => {
            let names = words.names(alloc, Term::NewTable, None)?;
            let names = listed(alloc, &names)?;
            format!(in alloc; "there is no table {word}; the tables are {names}")
        }
        SchemaFault::UnknownColumn => {
            let group = if words.is(at, Term::TargetColumn) {
                target_group(words, at)
            } else {
                Some(words.group(at))
            };
            let names = words.names(alloc, Term::NewColumn, group)?;
            let names = listed(alloc, &names)?;
            format!(in alloc; "there is no column {word}; the columns are {names}")
        }
        _ => String::from_str(alloc, general_text(fault)),
    }
}

// A fault of a schema in words.
fn general_text(fault: SchemaFault) -> &'static str {
    match fault {
        SchemaFault::DuplicateTable => "two tables have one name",
        SchemaFault::DuplicateColumn => {
            "two columns of a table have one name, or a key repeats a column"
        }
        SchemaFault::UnknownTable => "a link leads to a table that isn't there",
        SchemaFault::UnknownColumn => "a key or a link has a column that isn't there",
        SchemaFault::WidthDiffers => "a link has more or fewer columns than it leads to",
        SchemaFault::KindDiffers =>
            "a link leads from a number to a text, or from a text to a number",
        SchemaFault::EmptyKey => "a key or a link has no column",
        SchemaFault::TooMany { .. } => "a count is above its limit",
        SchemaFault::Rule { .. } =>
            "a rule has a query that doesn't fit, or two whose heads differ",
    }
}

fn tables_hint(
    alloc: Global,
    bytes: &[u8],
    words: &Words<'_>,
    fault: SchemaFault,
) -> Result<Hint, AllocError> {
    if let SchemaFault::TooMany { what, limit } = fault {
        return count_hint(alloc, bytes, words, what, limit);
    }
    for at in 0..words.taken.len() {
        if has(words, fault, at) {
            let text = fault_text(alloc, words, fault, at)?;
            return Ok(words.hint(bytes.len(), Some(at), text));
        }
    }
    Hint::plain(alloc, general_text(fault))
}

// What is told of a word that isn't supported.
fn unsupported_text(alloc: Global, word: &Str) -> Result<String, AllocError> {
    if is_among(word, &NEEDLESS) {
        format!(in alloc; "{word} isn't supported; it may be left out")
    } else {
        format!(in alloc; "{word} isn't supported")
    }
}

// A hint on the first of the words outside of the queries of rules that spells one that isn't
// supported.
fn unsupported_hint(
    alloc: Global,
    bytes: &[u8],
    words: &Words<'_>,
    word: &Str,
) -> Result<Hint, AllocError> {
    let text = unsupported_text(alloc, word)?;
    let word = word.as_str();
    for (at, token) in words.tokens.iter().enumerate() {
        let is_in_query = at < words.taken.len() && words.is(at, Term::Any);
        if !is_in_query && is_keyword(&token.lexeme, word) {
            return Ok(words.hint(bytes.len(), Some(at), text));
        }
    }
    Ok(words.hint(bytes.len(), None, text))
}

// A hint on a fault of words.
fn fault_hint(
    alloc: Global,
    bytes: &[u8],
    tokens: &[Token],
    fault: &DdlFault,
) -> Result<Hint, AllocError> {
    let walk = take_tokens(alloc, &SCHEMA, Stage::Schema, tokens)?;
    let words = Words {
        tokens,
        taken: &walk.taken,
    };
    match fault {
        DdlFault::Lex(fault) => lex_hint(alloc, bytes, *fault, MAX_TEXT_BYTES),
        DdlFault::Unsupported(word) => unsupported_hint(alloc, bytes, &words, word),
        DdlFault::Syntax if walk.is_whole => {
            Hint::plain(alloc, "its words aren't those of a schema")
        }
        DdlFault::Syntax => match open_hint(alloc, bytes, &words)? {
            Some(hint) => Ok(hint),
            None => stop_hint(alloc, &SCHEMA, bytes, &words, &walk.state),
        },
        DdlFault::Schema(fault) => tables_hint(alloc, bytes, &words, *fault),
        DdlFault::TooMany { what, limit } => count_hint(alloc, bytes, &words, *what, *limit),
        DdlFault::Rule(number, _) => rule_hint(alloc, bytes, &words, *number),
    }
}

/// A hint on why a file is no schema, if it isn't one.
pub fn schema_hint(alloc: Global, bytes: &[u8]) -> Result<Option<Hint>, AllocError> {
    let fault = match read_schema(alloc, bytes) {
        Ok(_) => return Ok(None),
        Err(Failure::NoMemory) => return Err(AllocError),
        Err(Failure::Fault(fault)) => fault,
    };
    let tokens = tokens_in(alloc, bytes)?;
    let hint = fault_hint(alloc, bytes, tokens.as_slice(), &fault)?;
    Ok(Some(hint))
}
