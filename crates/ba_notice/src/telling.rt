//! What is told of a run that didn't end well.

use crate::files::{Found, read_again};
use crate::input::{Part, Reads};
use crate::output::audit_text;
use crate::proof::check_text;
use crate::usage::words_text;
use ba_hints::Hint;
use ba_input::Detail;
use ba_model::Counted;
use ba_place::{WORD_CHARS, shown};
use ba_wire::{Fault, Reason};
use std::alloc::{AllocError, Global};
use std::rt::Files;

fn memory_text(alloc: Global, lacking: Option<usize>) -> Result<String, AllocError> {
    match lacking {
        None => String::from_str(alloc, "blockaid: memory ran out, and nothing was answered"),
        Some(0) => String::from_str(
            alloc,
            "blockaid: memory ran out while the lines were written",
        ),
        Some(count) => {
            format!(in alloc;
                "blockaid: memory ran out for lines of the script, which say so: {count}"
            )
        }
    }
}

// What is told of a count above its limit.
fn limit_text<R: Files + AllocGlobal>(
    reads: &Reads<'_, R>,
    what: Counted,
    limit: u64,
) -> Result<String, AllocError> {
    let alloc = reads.rt.alloc();
    let counted = match what {
        Counted::TextBytes | Counted::FileBytes => Some("bytes"),
        Counted::Steps => Some("steps"),
        Counted::Templates => Some("templates"),
        _ => None,
    };
    match counted {
        Some(counted) => {
            let text = format!(in alloc; "it has more than {limit} {counted}")?;
            let hint = Hint::plain(alloc, text.as_str())?;
            hint.line(alloc, reads.last(), &[])
        }
        None => reads.file_text(Part::of_count(reads.asked.len(), what), reads.last()),
    }
}

// What is told of a file that wasn't read.
fn unread_text<R: Files + AllocGlobal>(
    reads: &Reads<'_, R>,
    file: &str,
) -> Result<String, AllocError> {
    let alloc = reads.rt.alloc();
    let found = read_again(reads.rt, reads.prefix, file)?;
    let text = match found {
        Found::Nothing if reads.asked.len() > 2 && file.ends_with(".csv") => {
            "there is no such file; each table of the schema has its own"
        }
        Found::Nothing => "there is no such file",
        Found::Folder => "it is a folder",
        Found::Bytes(_) | Found::Unread => "it could not be read",
    };
    let hint = Hint::plain(alloc, text)?;
    hint.line(alloc, file, &[])
}

// What is told of a schema whose names the database that questions are sent to doesn't keep apart.
fn names_text(alloc: Global, file: &str, reason: &Reason) -> Result<String, AllocError> {
    let text = match reason {
        Reason::Unnameable { name } => {
            let name = shown(alloc, name.as_bytes(), WORD_CHARS)?;
            format!(in alloc;
                "the database has no name such as {name}: PostgreSQL cuts one off behind 63 bytes, MySQL takes at most 64; --database says which it is"
            )?
        }
        Reason::Alike { one, other } => {
            let one = shown(alloc, one.as_bytes(), WORD_CHARS)?;
            let other = shown(alloc, other.as_bytes(), WORD_CHARS)?;
            format!(in alloc;
                "the database doesn't tell {one} from {other}: SQLite and MySQL compare names without regard to the case of their letters; --database says which it is"
            )?
        }
        _ => String::new(alloc),
    };
    let hint = Hint::plain(alloc, text.as_str())?;
    hint.line(alloc, file, &[])
}

// What is told of a file that has no reading, or of a set of tables that breaks a rule.
fn input_text<R: Files + AllocGlobal>(
    reads: &Reads<'_, R>,
    file: &str,
    reason: &Reason,
) -> Result<String, AllocError> {
    if let Reason::RuleRow { rule, row } = reason {
        return reads.rule_text(file, *rule, row);
    }
    if let Reason::Template { line, reason } = reason {
        return reads.template_text(file, *line, reason);
    }
    if let Reason::Unnameable { .. } | Reason::Alike { .. } = reason {
        return names_text(reads.rt.alloc(), file, reason);
    }
    let part = Part::of_reason(reads.asked.len(), reason);
    match part {
        Part::Proof => reads.proof_text(file, reason),
        _ => reads.file_text(part, file),
    }
}

// What is told of a fault of the words or of a file.
fn fault_text<R: Files + AllocGlobal>(
    reads: &Reads<'_, R>,
    words: &[String],
    fault: &Fault,
) -> Result<String, AllocError> {
    match fault {
        Fault::Words => words_text(reads.rt.alloc(), words),
        Fault::Input { file, reason } => input_text(reads, file.as_str(), reason),
        Fault::Read { file } => unread_text(reads, file.as_str()),
        Fault::Limit { what, limit } => limit_text(reads, *what, *limit),
    }
}

/// One line on why a run ended with another status than 0, for whoever gave the words; nothing of one
/// that ended with 0. The names asked for, behind a prefix, are those of files that may be read once
/// more for it. Where lines were answered, `lacking` is how many of them found no memory.
pub fn notice<R: Files + AllocGlobal>(
    rt: &R,
    words: &[String],
    prefix: &str,
    asked: &[String],
    detail: &Detail,
    lacking: Option<usize>,
) -> Result<String, AllocError> {
    let alloc = rt.alloc();
    let reads = Reads { rt, prefix, asked };
    match detail {
        Detail::Done => Ok(String::new(alloc)),
        Detail::NotAccepted(fault) => {
            let text = check_text(alloc, *fault)?;
            let hint = Hint::plain(alloc, text.as_str())?;
            hint.line(alloc, reads.last(), &[])
        }
        Detail::NotAudited(fault) => {
            let text = audit_text(alloc, *fault)?;
            let hint = Hint::plain(alloc, text.as_str())?;
            hint.line(alloc, reads.last(), &[])
        }
        Detail::Fault(fault) => fault_text(&reads, words, fault),
        Detail::Write => String::from_str(
            alloc,
            "blockaid: standard output took no more: what was written isn't all",
        ),
        Detail::Memory => memory_text(alloc, lacking),
    }
}
