//! What the linter finds of a policy, and which questions of a script are refuted.

use crate::ended::{Ended, lacking};
use crate::explanation::complaint_of;
use ba_lanes::{Entry, Journal};
use ba_lint::{File, Format, LintWords, Refuted, Report, Unread, find_refuted, lint};
use ba_model::{Failure, Query, Str};
use ba_notice::notice;
use ba_outside::{FirstPiece, FolderFiles, FreeGate, Held, KeptFiles};
use ba_session::{Reply, Why};
use ba_top::{Detail, blockaid};
use ba_why::{Given, Names};
use ba_wire::Fault;
use std::alloc::{AllocError, Global};
use std::io::{ErrorKind, Write};
use std::rt::Files;
use std::sync::Wait;
use std::thread::Threads;

// The status for a file that could not be read.
const UNREAD: u8 = 4;

// The status for want of memory.
const MEMORY: u8 = 6;

// The status for a count above its limit.
const LIMIT: u8 = 7;

/// The words are none of the linter's.
#[derive(Clone, Copy, Debug, PartialEq, Eq)]
pub struct BadWords;

/// Reads the files that the words name, behind a prefix, and writes what the linter finds of them,
/// a finding a line. Where the words name a script, it is run too, and the questions that are
/// refuted are found. A write that fails ends the telling, and doesn't change the status.
///
/// The status is 1 where there is a fault or a warning, else 0; or that of a run for files that
/// could not be read or are too long, and for want of memory. Where the script's run has no
/// journal, it is that of the run, and what is told of how it ended is the run's fault line and the
/// line on why.
///
/// # Errors
/// A fault where the words are none of the linter's; then nothing is read.
pub fn lint_words<R, W>(
    rt: &R,
    words: &[String],
    prefix: &str,
    out: &mut W,
) -> Result<Ended, Failure<BadWords>>
where
    R: Files + AllocGlobal + Threads + Wait + Sync + Clone + Drop,
    W: Write,
{
    let Some(asked) = LintWords::read(words) else {
        return Err(Failure::Fault(BadWords));
    };
    let ended = lint_asked(rt, &asked, prefix, out);
    match ended {
        Ok(ended) => Ok(ended),
        Err(_) => Err(Failure::NoMemory),
    }
}

fn lint_asked<R, W>(
    rt: &R,
    asked: &LintWords<'_>,
    prefix: &str,
    out: &mut W,
) -> Result<Ended, AllocError>
where
    R: Files + AllocGlobal + Threads + Wait + Sync + Clone + Drop,
    W: Write,
{
    let alloc = rt.alloc();
    let Ok(system) = rt.clone() else {
        return Err(AllocError);
    };
    let mut files = FolderFiles::new(system, alloc, prefix);
    match lint(alloc, &mut files, asked) {
        Ok(report) => tell_report(rt, asked, prefix, report, out),
        Err(Failure::NoMemory) => Err(AllocError),
        Err(Failure::Fault(fault)) => end_unread(rt, prefix, files.asked(), fault),
    }
}

// Tells what became of the last of the files that were asked for.
fn end_unread<R: Files + AllocGlobal>(
    rt: &R,
    prefix: &str,
    names: &[String],
    fault: Unread,
) -> Result<Ended, AllocError> {
    let alloc = rt.alloc();
    let name = match names.last() {
        Some(name) => name.as_str(),
        None => "",
    };
    let (status, fault) = match fault {
        Unread::Missing => (
            UNREAD,
            Fault::Read {
                file: Str::new(alloc, name)?,
            },
        ),
        Unread::TooLong { what, limit } => (LIMIT, Fault::Limit { what, limit }),
    };
    let line = notice(rt, &[], prefix, names, &Detail::Fault(fault), None)?;
    let told = format!(in alloc; "{line}\n")?;
    Ok(Ended {
        status,
        told: Some(told),
    })
}

// Writes the findings, with those of the script where one is named.
fn tell_report<R, W>(
    rt: &R,
    asked: &LintWords<'_>,
    prefix: &str,
    report: Report,
    out: &mut W,
) -> Result<Ended, AllocError>
where
    R: Files + AllocGlobal + Threads + Wait + Sync + Clone + Drop,
    W: Write,
{
    let alloc = rt.alloc();
    let run = if report.has_error() {
        None
    } else {
        asked.run_words(alloc)?
    };
    match &run {
        Some(words) => tell_with_script(rt, asked, prefix, words, report, out),
        None => {
            let status = write_report(&report, asked.format, report.status(), out);
            Ok(Ended {
                status,
                told: Some(String::new(alloc)),
            })
        }
    }
}

// Writes the findings, and gives the status: this one, or that for want of memory.
fn write_report<W: Write>(report: &Report, format: Format, status: u8, out: &mut W) -> u8 {
    match report.write(format, out) {
        Err(e) if e.kind() == ErrorKind::OutOfMemory => MEMORY,
        _ => status,
    }
}

// Runs the script by the words of a run, and writes the findings with those of the script.
fn tell_with_script<R, W>(
    rt: &R,
    asked: &LintWords<'_>,
    prefix: &str,
    words: &[String],
    mut report: Report,
    out: &mut W,
) -> Result<Ended, AllocError>
where
    R: Files + AllocGlobal + Threads + Wait + Sync + Clone + Drop,
    W: Write,
{
    let alloc = rt.alloc();
    let Ok(names) = Names::read(alloc, words) else {
        return Err(AllocError);
    };
    let Ok(system) = rt.clone() else {
        return Err(AllocError);
    };
    let wanted = names.all();
    let folder = FolderFiles::new(system, alloc, prefix);
    let mut files = KeptFiles::new(alloc, folder, &wanted);
    let mut sink = FirstPiece::new(alloc);
    let outcome = blockaid(rt, alloc, words, &mut files, &mut sink, &FreeGate);
    let Some(journal) = &outcome.journal else {
        let status = write_report(&report, asked.format, outcome.status, out);
        let asked = files.files().asked();
        let mut ended = complaint_of(rt, words, prefix, asked, &outcome, sink.text())?;
        ended.status = status;
        return Ok(ended);
    };
    find_all_refuted(alloc, &mut report, files.kept(), &names, journal)?;
    let status = if lacking(&outcome) == Some(0) {
        report.status()
    } else {
        outcome.status
    };
    Ok(Ended {
        status: write_report(&report, asked.format, status, out),
        told: Some(String::new(alloc)),
    })
}

// The request and the query of a question that was refuted.
fn refuted_in(entry: &Entry) -> Option<(u32, &Query)> {
    let Entry::Ask { request, reply, .. } = entry else {
        return None;
    };
    match reply {
        Reply::Blocked { query, why } => match why {
            Why::Refuted(_) => {
                let query: &Query = query;
                Some((*request, query))
            }
            Why::Spent(_) | Why::Stuck(_, _) => None,
        },
        _ => None,
    }
}

// Finds the questions of a journal that are refuted.
fn find_all_refuted(
    alloc: Global,
    report: &mut Report,
    kept: &[Held],
    names: &Names,
    journal: &Journal,
) -> Result<(), AllocError> {
    let given = Given::of_kept(alloc, kept, names)?;
    let Some(given) = given else {
        return Ok(());
    };
    let script = File {
        name: names.script.as_str(),
        bytes: &[],
    };
    for (place, entry) in journal.entries.as_slice().iter().enumerate() {
        if let Some((request, query)) = refuted_in(entry)
            && let Some(context) = given.context_at(request, place)
        {
            let question = Refuted {
                line: place.saturating_add(1) as u64,
                query,
                context,
            };
            find_refuted(report, script, given.policy(), &question)?;
        }
    }
    Ok(())
}
