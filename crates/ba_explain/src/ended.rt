//! A run, and why it ended so.
ghost use Rattle.std.specs.Prelude.{◌≡◌, IfOk, OnErr, map, string_bytes};
ghost use Rattle.ba_explain.specs.Words.{DidWords};

use ba_notice::notice;
use ba_outside::{FolderFiles, Gate, Sink};
use ba_top::{Outcome, blockaid, lines_without_memory};
use std::alloc::{AllocError, Global};
use std::rt::Files;
use std::sync::Wait;
use std::thread::Threads;

/// How a run ended.
#[derive(Drop)]
pub struct Ended {
    /// The run's status, or that for want of memory.
    pub status: u8,
    /// What is told of it on standard error, each line with its end, where there was memory for
    /// that: nothing of a run that ended well.
    pub told: Option<String>,
}

impl Ended {
    /// How the top call ended, and what is told of it.
    pub(crate) fn of(outcome: &Outcome, told: Option<String>) -> Ended
        ensures status { result.status ≡ outcome.now.status }
        ensures told { result.told ≡ told }
    {
        Ended {
            status: outcome.status,
            told,
        }
    }
}

/// Runs the top call on the words, over the files of a folder: the names in the words stand behind
/// the prefix. What it promises of its words, its sink and its status is so.
///
/// # Errors
/// `AllocError` where there was no memory to begin; then nothing is written.
pub fn run_words<R, S, G>(
    rt: &R,
    words: &[String],
    prefix: &str,
    sink: &mut S,
    gate: &G,
) -> Result<Ended, AllocError>
where
    R: Files + AllocGlobal + Threads + Wait + Sync + Clone + Drop,
    S: Sink,
    G: Gate + Sync,
    ensures did { IfOk result (λ ended. DidWords (map string_bytes words.now)
        (S.seen sink.old) (S.seen sink.new) ended.status) }
    ensures early { OnErr result (S.seen sink.new ≡ S.seen sink.old) }
{
    let alloc = rt.alloc();
    let Ok(system) = rt.clone() else {
        return Err(AllocError);
    };
    let mut files = FolderFiles::new(system, alloc, prefix);
    let outcome = blockaid(rt, alloc, words, &mut files, sink, gate);
    let lacking = lacking(&outcome);
    let line = notice(rt, words, prefix, files.asked(), &outcome.detail, lacking);
    Ok(Ended::of(&outcome, told_of(alloc, line)))
}

/// How many lines found no memory, where lines were answered.
pub(crate) fn lacking(outcome: &Outcome) -> Option<usize> {
    match &outcome.journal {
        Some(journal) => Some(lines_without_memory(journal)),
        None => None,
    }
}

/// The line with its end, or nothing of a run that has none; and nothing at all without memory.
pub(crate) fn told_of(alloc: Global, line: Result<String, AllocError>) -> Option<String> {
    match line {
        Ok(line) if line.is_empty() => Some(line),
        Ok(line) => format!(in alloc; "{line}\n").ok(),
        Err(_) => None,
    }
}
