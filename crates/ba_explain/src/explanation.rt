//! A run, and its replies in words.

use crate::ended::{Ended, lacking};
use ba_command::WordsFault;
use ba_model::Failure;
use ba_notice::notice;
use ba_outside::{FirstPiece, FolderFiles, FreeGate, KeptFiles};
use ba_top::{Outcome, blockaid};
use ba_why::{Names, Telling, tell_all};
use std::alloc::AllocError;
use std::io;
use std::io::{ErrorKind, Write};
use std::rt::Files;
use std::sync::Wait;
use std::thread::Threads;

// The status for want of memory.
const MEMORY: u8 = 6;

/// What is explained, and how.
#[derive(Clone, Copy)]
pub struct Asked<'a> {
    /// The words of a run, without the program's name.
    pub words: &'a [String],
    /// What goes before the names in them.
    pub prefix: &'a str,
    pub telling: Telling,
}

/// Runs the top call, and writes why each question that is wanted was answered or not, with an
/// empty line between two. A write that fails ends the telling, and doesn't change the status.
///
/// What is told of how it ended is the fault line and the line on why, where the run has no
/// journal.
///
/// # Errors
/// A fault where the words are none of a run; then nothing is run.
pub fn explain<R, W>(rt: &R, asked: &Asked<'_>, out: &mut W) -> Result<Ended, Failure<WordsFault>>
where
    R: Files + AllocGlobal + Threads + Wait + Sync + Clone + Drop,
    W: Write,
{
    let names = Names::read(rt.alloc(), asked.words)?;
    match explain_run(rt, asked, &names, out) {
        Ok(ended) => Ok(ended),
        Err(_) => Err(Failure::NoMemory),
    }
}

fn explain_run<R, W>(
    rt: &R,
    asked: &Asked<'_>,
    names: &Names,
    out: &mut W,
) -> Result<Ended, AllocError>
where
    R: Files + AllocGlobal + Threads + Wait + Sync + Clone + Drop,
    W: Write,
{
    let alloc = rt.alloc();
    let Ok(system) = rt.clone() else {
        return Err(AllocError);
    };
    let wanted = names.all();
    let folder = FolderFiles::new(system, alloc, asked.prefix);
    let mut files = KeptFiles::new(alloc, folder, &wanted);
    let mut sink = FirstPiece::new(alloc);
    let outcome = blockaid(rt, alloc, asked.words, &mut files, &mut sink, &FreeGate);
    match &outcome.journal {
        Some(journal) => {
            let told = tell_all(alloc, files.kept(), names, journal, asked.telling, out);
            Ok(Ended {
                status: status_of(&told, outcome.status),
                told: Some(String::new(alloc)),
            })
        }
        None => {
            let names = files.files().asked();
            complaint_of(rt, asked.words, asked.prefix, names, &outcome, sink.text())
        }
    }
}

// The status of a run that was told so.
fn status_of(told: &io::Result<()>, status: u8) -> u8 {
    match told {
        Err(e) if e.kind() == ErrorKind::OutOfMemory => MEMORY,
        _ => status,
    }
}

/// Says why a run has no journal: its fault line, and what is told of that.
pub(crate) fn complaint_of<R: Files + AllocGlobal>(
    rt: &R,
    words: &[String],
    prefix: &str,
    names: &[String],
    outcome: &Outcome,
    line: &str,
) -> Result<Ended, AllocError> {
    let lacking = lacking(outcome);
    let why = notice(rt, words, prefix, names, &outcome.detail, lacking)?;
    let told = format!(in rt.alloc(); "{line}{why}\n")?;
    Ok(Ended::of(outcome, Some(told)))
}
