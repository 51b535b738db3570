//! The program `blockaid`. Its first word says what it does:
//!
//! - `run --schema S --policy P --tables D --script F` answers the questions of F over the tables
//!   of D that the policy P lets through, and blocks the others.
//! - `store`, with the same options, serves F too, and prints the templates that its proofs leave,
//!   with which another run may begin.
//! - `audit --schema S --policy P --tables D --script F --output O` says whether each line of O,
//!   the output of `run --proofs`, follows from the other four and the lines before it.
//! - `check --schema S --policy P --proof F` says whether the proof F is accepted.
//! - `gen --seed N --requests R` serves a generated workload, and prints the summary; with
//!   `--print` it prints the workload's script.
//! - `decide --schema S --policy P` answers each line of standard input by the decision on it.
//! - `why run --schema S ..` tells in words why each question of a run was answered or not.
//! - `lint --schema S --policy P` tells where a policy may show too much or too little.
//!
//! Where its status isn't 0, one line on standard error says why. Where the environment has
//! `BLOCKAID_PROGRESS=1`, lines of standard error tell how far the script is served.
#![tactic(auto)]

ghost use Rattle.std.specs.Prelude.{◌≡◌};

mod deciding;
mod findings;
mod progress;
mod reasons;

use ba_explain::{Ended, run_words};
use ba_outside::StdSink;
use deciding::serve_lines;
use findings::tell_findings;
use progress::Progress;
use reasons::explain_words;
use std::alloc::{AllocError, Global};
use std::env;
use std::env::{Args, Env};
use std::io::{ErrorKind, Write};
use std::process::ExitCode;
use std::rt::Files;
use std::sync::Wait;
use std::thread::Threads;

// The status for want of memory.
const MEMORY: u8 = 6;

// The words behind the program's name.
fn words(alloc: Global, args: Args) -> Result<Vec<String>, AllocError> {
    args.skip(1).collect(alloc)
}

// Whether the environment asks how far the script is served.
fn asks_progress<R: Env + AllocGlobal>(rt: &R) -> bool {
    match env::var(rt, "BLOCKAID_PROGRESS") {
        Ok(text) => text.as_str() == "1",
        Err(_) => false,
    }
}

// Says on standard error what is told of how a run ended, and gives its status.
fn tell(rt: &impl Eprint, ended: &Ended) -> u8
    ensures { result ≡ ended.now.status }
{
    let _ = match &ended.told {
        Some(lines) => eprint!(rt; "{lines}"),
        None => eprintln!(rt; "blockaid: there is no memory to tell why"),
    };
    ended.status
}

// Runs the top call on the words, over what standard output is, and gives the status.
fn run<R, W>(rt: &R, out: W, words: &[String]) -> u8
where
    R: Files + AllocGlobal + Env + Eprint + Threads + Wait + Sync + Clone + Drop,
    W: Write + Drop,
{
    let mut sink = StdSink::new(out);
    let gate = Progress::new(rt, asks_progress(rt));
    match run_words(rt, words, "", &mut sink, &gate) {
        Ok(ended) => tell(rt, &ended),
        Err(_) => end_early(rt),
    }
}

// Tells that a run found no memory for its words, and gives the status.
fn end_early(rt: &impl Eprint) -> u8 {
    let _ = eprintln!(rt; "blockaid: memory ran out, and nothing was answered");
    MEMORY
}

fn main(rt: HostRuntime) -> ExitCode {
    let alloc = rt.alloc();
    // Arguments that are no text are no command's words.
    let read = match env::args(&rt) {
        Ok(args) => words(alloc, args),
        Err(e) if e.kind() == ErrorKind::OutOfMemory => Err(AllocError),
        Err(_) => Ok(Vec::new(alloc)),
    };
    let Ok(words) = read else {
        return ExitCode::from(end_early(&rt));
    };
    let status = match words.as_slice() {
        [first, rest @ ..] if first.as_str() == "why" => explain_words(&rt, rest),
        [first, rest @ ..] if first.as_str() == "lint" => tell_findings(&rt, rest),
        [first, ..] if first.as_str() == "decide" => serve_lines(&rt, words.as_slice()),
        all => run(&rt, rt.stdout(), all),
    };
    ExitCode::from(status)
}
