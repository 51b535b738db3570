// A case of the linter: what it is asked, and what must be told.
use crate::case::text_if_there;
use ba_explain::{Ended, lint_words};
use std::alloc::{AllocError, Global};
use std::io;
use std::rt::Files;
use std::sync::Wait;
use std::thread::Threads;

/// What the linter tells of a case, and what must be told: standard output, then standard error,
/// and the status on a line of its own.
#[derive(Drop)]
pub struct LintEnd {
    pub told: Vec<u8>,
    pub wanted: Vec<u8>,
}

// The words behind the first one of a line.
fn words_of(alloc: Global, line: &str) -> Result<Vec<String>, AllocError> {
    let mut words = Vec::new(alloc);
    for word in line.split_whitespace().skip(1) {
        words.push(String::from_str(alloc, word)?)?;
    }
    Ok(words)
}

// What the linter tells by these words over the files of that folder.
fn told_of<R>(rt: &R, folder: &str, line: &str) -> io::Result<Vec<u8>>
where
    R: Files + AllocGlobal + Threads + Wait + Sync + Clone + Drop,
{
    let alloc = rt.alloc();
    let prefix = format!(in alloc; "{folder}/")?;
    let words = words_of(alloc, line)?;
    let mut told = Vec::new(alloc);
    let ended = lint_words(rt, &words, prefix.as_str(), &mut told);
    let Ok(
        Ended {
            status,
            told: lines,
        },
    ) = ended
    else {
        return Err(io::Error::from(io::ErrorKind::InvalidInput));
    };
    let lines = lines.unwrap_or(String::new(alloc));
    let end = format!(in alloc; "{lines}status {status}\n")?;
    told.extend_from_slice(end.as_bytes())?;
    Ok(told)
}

/// What the linter tells of the case of that folder, if it has a file `lint`.
pub fn lint_case<R>(rt: &R, folder: &str) -> io::Result<Option<LintEnd>>
where
    R: Files + AllocGlobal + Threads + Wait + Sync + Clone + Drop,
{
    let text = text_if_there(rt, folder, "lint")?;
    let Some(text) = text else {
        return Ok(None);
    };
    let Some((line, lines)) = text.split_once('\n') else {
        return Err(io::Error::from(io::ErrorKind::InvalidData));
    };
    let told = told_of(rt, folder, line)?;
    let wanted = lines.as_bytes().to_vec(rt.alloc())?;
    Ok(Some(LintEnd { told, wanted }))
}

/// Whether the case of that folder is of the linter alone.
pub fn is_of_lint<R: Files + AllocGlobal>(rt: &R, folder: &str) -> io::Result<bool> {
    let words = text_if_there(rt, folder, "words")?;
    Ok(words.is_none())
}
