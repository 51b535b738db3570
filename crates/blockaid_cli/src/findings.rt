//! What the linter finds of a policy.

use crate::tell;
use ba_explain::lint_words;
use ba_model::Failure;
use std::io::writer;
use std::rt::Files;
use std::sync::Wait;
use std::thread::Threads;

// The status for bad words.
const WORDS: u8 = 2;

// The status for want of memory.
const MEMORY: u8 = 6;

/// Tells what the linter finds by these words, and gives the status.
pub fn tell_findings<R>(rt: &R, words: &[String]) -> u8
where
    R: Files + AllocGlobal + Print + Eprint + Threads + Wait + Sync + Clone + Drop,
{
    match lint_words(rt, words, "", &mut writer(rt)) {
        Ok(ended) => tell(rt, &ended),
        Err(Failure::NoMemory) => MEMORY,
        Err(Failure::Fault(_)) => tell_usage(rt),
    }
}

fn tell_usage(rt: &impl Eprint) -> u8 {
    let _ = eprintln!(rt;
        "usage: blockaid lint --schema S --policy P [--tables D] [--script F] [--json], where --script wants --tables"
    );
    WORDS
}
