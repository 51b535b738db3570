//! The reasons of a run, told in words.

use crate::tell;
use ba_explain::{Asked, Ended, Telling, USUAL_COLUMNS, Wanted, explain};
use ba_model::Failure;
use std::env;
use std::env::Env;
use std::io::writer;
use std::rt::Files;
use std::sync::Wait;
use std::thread::Threads;

// The status for bad words.
const WORDS: u8 = 2;

// The status for want of memory.
const MEMORY: u8 = 6;

// How many columns a terminal may have.
const LEAST_COLUMNS: usize = 40;

const MOST_COLUMNS: usize = 200;

// The words of a run, and what stands behind `--line`, if these are the first two words or the last
// two.
fn named_line(words: &[String]) -> (&[String], Option<&String>) {
    match words {
        [option, number, rest @ ..] if option.as_str() == "--line" => (rest, Some(number)),
        [rest @ .., option, number] if option.as_str() == "--line" => (rest, Some(number)),
        _ => (words, None),
    }
}

// What a word says of which questions are wanted, if there is one: the number of a line.
fn wanted_of(word: Option<&String>) -> Option<Wanted> {
    let Some(word) = word else {
        return Some(Wanted::All);
    };
    match word.as_str().parse::<u64>() {
        Ok(number) => Some(Wanted::Line(number)),
        Err(_) => None,
    }
}

// How many columns a line has: what the environment says, where that is a number that a terminal
// may have.
fn columns_of<R: Env + AllocGlobal>(rt: &R) -> usize {
    let Ok(text) = env::var(rt, "COLUMNS") else {
        return USUAL_COLUMNS;
    };
    match text.as_str().parse::<usize>() {
        Ok(columns) if LEAST_COLUMNS <= columns && columns <= MOST_COLUMNS => columns,
        _ => USUAL_COLUMNS,
    }
}

/// Explains the run of these words, and gives the status. They are the words of a run, with
/// `--line L` first or last where the reply at line L alone is wanted.
pub fn explain_words<R>(rt: &R, words: &[String]) -> u8
where
    R: Files + AllocGlobal + Env + Print + Eprint + Threads + Wait + Sync + Clone + Drop,
{
    let (words, line) = named_line(words);
    let Some(wanted) = wanted_of(line) else {
        return tell_usage(rt);
    };
    let columns = columns_of(rt);
    let asked = Asked {
        words,
        prefix: "",
        telling: Telling { wanted, columns },
    };
    match explain(rt, &asked, &mut writer(rt)) {
        Ok(ended) => tell(rt, &ended),
        Err(Failure::NoMemory) => MEMORY,
        Err(Failure::Fault(_)) => tell_usage(rt),
    }
}

fn tell_usage(rt: &impl Eprint) -> u8 {
    let _ = eprintln!(rt;
        "usage: blockaid why run --schema S --policy P --tables D --script F [--load T] [--proofs] [--workers N] [--budget B] [--orders K] [--line L]"
    );
    WORDS
}
