//! All faults of a schema and of a policy, statement by statement.

use crate::finding::Finding;
use crate::lost::Lost;
use crate::report::{File, Report};
use ba_grammar::{is_keyword, is_sign};
use ba_hints::{Hint, Spot, policy_hint, schema_hint, tokens_in};
use ba_lex::{Lexeme, Sign, Token, tokens_of_bytes};
use ba_model::{Failure, MAX_TEXT_BYTES, Schema, SchemaFault, Shared, Str};
use ba_place::Mark;
use ba_policy::{PolicyFault, read_policy};
use ba_sql_ddl::{DdlFault, read_schema};
use ba_sql_query::ReadQueryFault;
use std::alloc::{AllocError, Global};

/// How many faults of a file are told at most.
const MOST_FAULTS: usize = 100;

// The statement at a place of a text, by its tokens: from behind the `;` before it to the next one.
fn statement_in(tokens: &[Token], at: usize, len: usize) -> Mark {
    let mut start = 0usize;
    for token in tokens {
        if is_sign(&token.lexeme, Sign::Semicolon) {
            if token.start >= at {
                return Mark::within(len, start, token.end);
            }
            start = token.end;
        }
    }
    Mark::within(len, start, len)
}

// The same of a text that has no tokens.
fn rough_statement(bytes: &[u8], at: usize) -> Mark {
    let mut start = 0usize;
    for (place, byte) in bytes.iter().enumerate() {
        if *byte == b';' {
            let behind = place.saturating_add(1);
            if place >= at {
                return Mark::within(bytes.len(), start, behind);
            }
            start = behind;
        }
    }
    Mark::within(bytes.len(), start, bytes.len())
}

// The statement at a place of a policy.
fn statement_at(alloc: Global, bytes: &[u8], at: usize) -> Result<Mark, AllocError> {
    match tokens_of_bytes(alloc, bytes, MAX_TEXT_BYTES) {
        Ok(tokens) => Ok(statement_in(tokens.as_slice(), at, bytes.len())),
        Err(Failure::NoMemory) => Err(AllocError),
        Err(Failure::Fault(_)) => Ok(rough_statement(bytes, at)),
    }
}

// The bytes with blanks in place of those that are marked.
fn without(alloc: Global, bytes: &[u8], mark: Mark) -> Result<Vec<u8>, AllocError> {
    let mut rest = Vec::new(alloc);
    for (at, byte) in bytes.iter().enumerate() {
        let is_marked = mark.start <= at && at < mark.end;
        rest.push(if is_marked { b' ' } else { *byte })?;
    }
    Ok(rest)
}

// What is wrong with the statement that a fault names.
#[derive(Clone, Copy, PartialEq, Eq)]
enum Wrong {
    // It is the second of its name.
    Second,
    // Its query names a parameter that isn't there.
    NoParam,
    // Its query has another fault.
    Query,
}

// The statement that has a fault: the first of that keyword and name, or the second.
#[derive(Drop)]
struct Named {
    keyword: &'static str,
    name: Str,
    wrong: Wrong,
}

impl Named {
    // The second statement of a name.
    fn second(keyword: &'static str, name: Str) -> Named {
        Named {
            keyword,
            name,
            wrong: Wrong::Second,
        }
    }

    // The statement whose query has a fault.
    fn of_query(keyword: &'static str, name: Str, fault: &ReadQueryFault) -> Named {
        let wrong = match fault {
            ReadQueryFault::UnknownParam => Wrong::NoParam,
            _ => Wrong::Query,
        };
        Named {
            keyword,
            name,
            wrong,
        }
    }

    // The statement that a fault names, if it names one.
    fn of_fault(fault: PolicyFault) -> Option<Named> {
        match fault {
            PolicyFault::View(name, fault) => Some(Named::of_query("VIEW", name, &fault)),
            PolicyFault::Key(name, fault) => Some(Named::of_query("KEY", name, &fault)),
            PolicyFault::DuplicateView(name) => Some(Named::second("VIEW", name)),
            PolicyFault::DuplicateParam(name) => Some(Named::second("PARAM", name)),
            PolicyFault::DuplicateKey(name) => Some(Named::second("KEY", name)),
            PolicyFault::Lex(_) | PolicyFault::Syntax | PolicyFault::TooMany { .. } => None,
        }
    }

    // The statement that the first fault of a policy names, if it names one.
    fn of(
        alloc: Global,
        schema: &Shared<Schema>,
        bytes: &[u8],
    ) -> Result<Option<Named>, AllocError> {
        match read_policy(alloc, schema, bytes) {
            Ok(_) => Ok(None),
            Err(Failure::NoMemory) => Err(AllocError),
            Err(Failure::Fault(fault)) => Ok(Named::of_fault(fault)),
        }
    }

    // Whether two tokens are its keyword and its name.
    fn is_at(&self, keyword: &Token, name: &Token) -> bool {
        is_keyword(&keyword.lexeme, self.keyword) && is_word(name, self.name.as_str())
    }

    // Where its name stands.
    fn mark(&self, tokens: &[Token], len: usize) -> Option<Mark> {
        let mut is_behind = self.wrong != Wrong::Second;
        let mut before: Option<&Token> = None;
        for token in tokens {
            if let Some(keyword) = before
                && self.is_at(keyword, token)
            {
                if is_behind {
                    return Some(Mark::within(len, token.start, token.end));
                }
                is_behind = true;
            }
            before = Some(token);
        }
        None
    }
}

// Whether it is the second statement of its name.
fn is_second(named: &Option<Named>) -> bool {
    match named {
        Some(named) => named.wrong == Wrong::Second,
        None => false,
    }
}

fn is_word(token: &Token, name: &str) -> bool {
    match &token.lexeme {
        Lexeme::Word(word) => word.as_str() == name,
        _ => false,
    }
}

// Where a fault stands: at the second of two statements of one name, where its hint says so, or at
// the name of its view or key.
fn mark_of(
    alloc: Global,
    bytes: &[u8],
    hint: &Hint,
    named: &Option<Named>,
) -> Result<Option<Mark>, AllocError> {
    let own = match named {
        Some(named) => {
            let tokens = tokens_in(alloc, bytes)?;
            named.mark(tokens.as_slice(), bytes.len())
        }
        None => None,
    };
    if is_second(named) && own.is_some() {
        return Ok(own);
    }
    match hint.spot {
        Spot::Marked(mark) => Ok(Some(mark)),
        _ => Ok(own),
    }
}

// Whether a fault is that a parameter isn't there which a lost statement names, and may declare.
fn wants_lost_param(lost: Lost<'_>, named: &Option<Named>, mark: Option<Mark>) -> bool {
    match (named, mark) {
        (Some(named), Some(mark)) => {
            named.wrong == Wrong::NoParam && lost.declares(name_in(lost.sound, mark))
        }
        _ => false,
    }
}

// Tells the first fault of a policy without its lost statements, if it has one, and gives it
// without the statement that has it. It isn't told where it may come of a lost one. It gives
// nothing where there is no such statement.
fn next_fault(
    report: &mut Report,
    schema: &Shared<Schema>,
    file: File<'_>,
    bytes: &[u8],
    hint: &Hint,
) -> Result<Option<Vec<u8>>, AllocError> {
    let alloc = report.alloc;
    let named = Named::of(alloc, schema, bytes)?;
    let mark = mark_of(alloc, bytes, hint, &named)?;
    let lost = Lost {
        bytes: file.bytes,
        sound: bytes,
    };
    if !wants_lost_param(lost, &named, mark) {
        let spot = match mark {
            Some(mark) => Spot::Marked(mark),
            None => hint.spot,
        };
        report.add(file, spot, &Finding::Fault(hint.text.as_str()))?;
    }
    let Some(mark) = mark else {
        return Ok(None);
    };
    let statement = statement_at(alloc, bytes, mark.start)?;
    Ok(Some(without(alloc, bytes, statement)?))
}

/// Finds the faults of a policy's statements, at most a hundred: the first of each. What may come
/// of a statement that has one isn't told. Gives the policy's bytes with blanks in place of the
/// statements that have one, or nothing where the reader can't go on.
pub fn find_faults(
    report: &mut Report,
    schema: &Shared<Schema>,
    file: File<'_>,
) -> Result<Option<Vec<u8>>, AllocError> {
    let mut bytes = file.bytes.to_vec(report.alloc)?;
    for _ in 0..MOST_FAULTS {
        let hint = policy_hint(report.alloc, schema, &bytes)?;
        let Some(hint) = hint else {
            return Ok(Some(bytes));
        };
        let rest = next_fault(report, schema, file, &bytes, &hint)?;
        match rest {
            Some(rest) => bytes = rest,
            None => return Ok(None),
        }
    }
    Ok(None)
}

// What a fault of a schema is of.
#[derive(Clone, Copy)]
enum Subject {
    // The queries of its rules.
    Rule,
    // A table that isn't there.
    Table,
    // Anything else.
    Other,
}

impl Subject {
    fn of_fault(fault: &DdlFault) -> Subject {
        match fault {
            DdlFault::Rule(_, _) => Subject::Rule,
            DdlFault::Schema(SchemaFault::UnknownTable) => Subject::Table,
            _ => Subject::Other,
        }
    }

    // What the first fault of a schema is of.
    fn of(alloc: Global, bytes: &[u8]) -> Result<Subject, AllocError> {
        match read_schema(alloc, bytes) {
            Err(Failure::Fault(fault)) => Ok(Subject::of_fault(&fault)),
            Err(Failure::NoMemory) => Err(AllocError),
            Ok(_) => Ok(Subject::Other),
        }
    }
}

// The name that a text spells: in quotes, behind a `?`, or plain.
fn name_in(bytes: &[u8], mark: Mark) -> &str {
    let text = match bytes.get(mark.start..mark.end).unwrap_or(&[]) {
        [b'"' | b'`', name @ .., _] => name,
        [b'?', name @ ..] => name,
        name => name,
    };
    std::str::from_utf8(text).unwrap_or("")
}

// Tells the first fault of a schema without its lost statements, if it has one, and gives it
// without the statement that has it. It isn't told where it may come of a lost one. It gives
// nothing where there is no such statement, and behind a fault of a rule's query.
fn next_schema_fault(
    report: &mut Report,
    file: File<'_>,
    bytes: &[u8],
    hint: &Hint,
) -> Result<Option<Vec<u8>>, AllocError> {
    let alloc = report.alloc;
    let lost = Lost {
        bytes: file.bytes,
        sound: bytes,
    };
    let subject = Subject::of(alloc, bytes)?;
    let mark = match hint.spot {
        Spot::Marked(mark) => Some(mark),
        Spot::Line(_) | Spot::Unknown => None,
    };
    if !may_follow(lost, subject, mark) {
        report.add(file, hint.spot, &Finding::Fault(hint.text.as_str()))?;
    }
    match (subject, mark) {
        (Subject::Table | Subject::Other, Some(mark)) => {
            let statement = statement_at(alloc, bytes, mark.start)?;
            Ok(Some(without(alloc, bytes, statement)?))
        }
        _ => Ok(None),
    }
}

// Whether a fault may come of a lost statement: that of a rule's query, or that a table isn't there
// which such a statement names, and may make.
fn may_follow(lost: Lost<'_>, subject: Subject, mark: Option<Mark>) -> bool {
    match (subject, mark) {
        (Subject::Rule, _) => !lost.is_empty(),
        (Subject::Table, Some(mark)) => lost.declares(name_in(lost.sound, mark)),
        _ => false,
    }
}

/// Finds the faults of a schema's statements, at most a hundred: the first of each. What may come
/// of a statement that has one isn't told.
pub fn find_schema_faults(report: &mut Report, file: File<'_>) -> Result<(), AllocError> {
    let mut bytes = file.bytes.to_vec(report.alloc)?;
    for _ in 0..MOST_FAULTS {
        let hint = schema_hint(report.alloc, &bytes)?;
        let Some(hint) = hint else {
            return Ok(());
        };
        let rest = next_schema_fault(report, file, &bytes, &hint)?;
        match rest {
            Some(rest) => bytes = rest,
            None => return Ok(()),
        }
    }
    Ok(())
}
