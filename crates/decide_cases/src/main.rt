//! `decide_cases [FOLDER]`: runs the decision service on each conversation of a folder (the one that it
//! is run in, if none is named), and says of each whether it answered as it must.
//!
//! The folder holds a folder for each conversation: `S` the schema, `P` the policy, `in` the lines that
//! it is sent, `expected` the bytes that it must write, and `status`, with which it must end. It may
//! have `words`, where others are given than `--schema S --policy P`, `hint`, the line on why it ends
//! so that must be told, and `fails`: the reads and writes that fail, by their numbers from 0, such as
//! `read 3` and `write 1`, a line each. Where it has that file, the lines come from memory.
#![tactic(auto)]

use ba_explain::serve_words;
use ba_outside::MemSink;
use ba_source::{MemSource, Source, StdSource};
use std::alloc::{AllocError, Global};
use std::process::ExitCode;
use std::rt::Files;
use std::{env, fs, io};

// How a conversation ended, and what was told of its end. Where that isn't said, it may be anything.
#[derive(Drop)]
struct End {
    status: u8,
    text: Vec<u8>,
    hint: Option<String>,
}

impl End {
    // Whether it is as wanted.
    fn is(&self, wanted: &End) -> bool {
        let is_told = wanted.hint.is_none() || self.hint == wanted.hint;
        self.status == wanted.status && self.text == wanted.text && is_told
    }
}

// The calls that fail, by number.
#[derive(Drop)]
struct Failing {
    reads: Vec<u64>,
    writes: Vec<u64>,
}

impl Failing {
    fn none(alloc: Global) -> Failing {
        Failing {
            reads: Vec::new(alloc),
            writes: Vec::new(alloc),
        }
    }

    // Those of a text, a line each.
    fn of(alloc: Global, text: &str) -> io::Result<Failing> {
        let mut failing = Failing::none(alloc);
        for line in text.split_terminator('\n') {
            failing.add(line)?;
        }
        Ok(failing)
    }

    fn add(&mut self, line: &str) -> io::Result<()> {
        if let Some(number) = line.strip_prefix("read ") {
            self.reads.push(number_of(number)?)?;
            return Ok(());
        }
        if let Some(number) = line.strip_prefix("write ") {
            self.writes.push(number_of(number)?)?;
            return Ok(());
        }
        Err(io::Error::from(io::ErrorKind::InvalidData))
    }
}

// The number that the text is.
fn number_of(text: &str) -> io::Result<u64> {
    match text.parse::<u64>() {
        Ok(number) => Ok(number),
        Err(_) => Err(io::Error::from(io::ErrorKind::InvalidData)),
    }
}

// The lines of a text without their line feeds.
fn lines_of(alloc: Global, text: &[u8]) -> Result<Vec<Vec<u8>>, AllocError> {
    let mut lines = Vec::new(alloc);
    let whole = text.strip_suffix(b"\n").unwrap_or(text);
    for line in whole.split(|byte| *byte == b'\n') {
        lines.push(line.to_vec(alloc)?)?;
    }
    Ok(lines)
}

// The words of a text, a line each, behind the command's.
fn words_of(alloc: Global, text: &str) -> Result<Vec<String>, AllocError> {
    let mut words = Vec::new(alloc);
    words.push(String::from_str(alloc, "decide")?)?;
    for word in text.split_terminator('\n') {
        words.push(String::from_str(alloc, word)?)?;
    }
    Ok(words)
}

fn names_in<R>(rt: &R, folder: &str) -> io::Result<Vec<String>>
where
    R: Files + AllocGlobal + Clone + Drop,
{
    let mut names = Vec::new(rt.alloc());
    for entry in fs::read_dir(rt, folder)? {
        names.push(String::from_str(rt.alloc(), entry?.file_name())?)?;
    }
    names.sort_unstable();
    Ok(names)
}

// The bytes of a file of a conversation.
fn bytes_of<R>(rt: &R, folder: &str, name: &str) -> io::Result<Vec<u8>>
where
    R: Files + AllocGlobal + Clone + Drop,
{
    let path = format!(in rt.alloc(); "{folder}/{name}")?;
    fs::read(rt, path.as_str())
}

// The text of a file of a conversation, if it is there.
fn text_in<R>(rt: &R, folder: &str, name: &str) -> io::Result<Option<String>>
where
    R: Files + AllocGlobal + Clone + Drop,
{
    let path = format!(in rt.alloc(); "{folder}/{name}")?;
    if fs::exists(rt, path.as_str())? {
        return Ok(Some(fs::read_to_string(rt, path.as_str())?));
    }
    Ok(None)
}

// The words of a conversation.
fn words_in<R>(rt: &R, folder: &str) -> io::Result<Vec<String>>
where
    R: Files + AllocGlobal + Clone + Drop,
{
    let words = match text_in(rt, folder, "words")? {
        Some(text) => words_of(rt.alloc(), text.as_str())?,
        None => words_of(rt.alloc(), "--schema\nS\n--policy\nP")?,
    };
    Ok(words)
}

// How the service ends the conversation.
fn end_of<R>(rt: &R, folder: &str) -> io::Result<End>
where
    R: Files + AllocGlobal + Clone + Drop,
{
    let alloc = rt.alloc();
    let lines = bytes_of(rt, folder, "in")?;
    match text_in(rt, folder, "fails")? {
        Some(text) => {
            let Failing { reads, writes } = Failing::of(alloc, text.as_str())?;
            let mut source = MemSource::new(alloc, lines_of(alloc, &lines)?, reads);
            end_over(rt, folder, &mut source, writes)
        }
        None => {
            let mut source = StdSource::new(lines.as_slice(), alloc)?;
            end_over(rt, folder, &mut source, Failing::none(alloc).writes)
        }
    }
}

// The same over the source, where the writes of these numbers fail.
fn end_over<R, L>(rt: &R, folder: &str, source: &mut L, failing: Vec<u64>) -> io::Result<End>
where
    R: Files + AllocGlobal + Clone + Drop,
    L: Source,
{
    let alloc = rt.alloc();
    let words = words_in(rt, folder)?;
    let prefix = format!(in alloc; "{folder}/")?;
    let mut sink = MemSink::new(alloc, failing, Vec::new(alloc));
    let ended = serve_words(rt, &words, prefix.as_str(), source, &mut sink)?;
    Ok(End {
        status: ended.status,
        text: sink.bytes().to_vec(alloc)?,
        hint: ended.told,
    })
}

// How the conversation must end.
fn wanted_of<R>(rt: &R, folder: &str) -> io::Result<End>
where
    R: Files + AllocGlobal + Clone + Drop,
{
    let text = bytes_of(rt, folder, "expected")?;
    let number = bytes_of(rt, folder, "status")?;
    let number = std::str::from_utf8(&number).unwrap_or("");
    let hint = text_in(rt, folder, "hint")?;
    match number.trim_end().parse::<u8>() {
        Ok(status) => Ok(End { status, text, hint }),
        Err(_) => Err(io::Error::from(io::ErrorKind::InvalidData)),
    }
}

// A line, if it is text.
fn text_of(line: &[u8]) -> &str {
    std::str::from_utf8(line).unwrap_or("(no text)")
}

// Says which line is the first that isn't as it must be.
fn tell_line(rt: &impl Print, wanted: &[u8], text: &[u8]) -> io::Result<()> {
    let mut lines = text.split(|byte| *byte == b'\n');
    for line in wanted.split(|byte| *byte == b'\n') {
        let written = lines.next().unwrap_or(b"(none)");
        if line != written {
            println!(rt; "  told: {}", text_of(written))?;
            println!(rt; "  wanted: {}", text_of(line))?;
            return Ok(());
        }
    }
    Ok(())
}

// Tries the conversation of that name, and gives whether it ended as it must.
fn passes<R>(rt: &R, folder: &str, name: &str) -> io::Result<bool>
where
    R: Files + AllocGlobal + Print + Clone + Drop,
{
    let place = format!(in rt.alloc(); "{folder}/{name}")?;
    let end = end_of(rt, place.as_str())?;
    let wanted = wanted_of(rt, place.as_str())?;
    if end.is(&wanted) {
        println!(rt; "ok {name}")?;
        return Ok(true);
    }
    println!(rt;
        "{name} differs: status {}, {} is wanted",
        end.status, wanted.status
    )?;
    if let Some(hint) = &wanted.hint {
        println!(rt; "  wanted on standard error: {hint}")?;
    }
    tell_line(rt, &wanted.text, &end.text)?;
    Ok(false)
}

fn run<R>(rt: &R) -> io::Result<bool>
where
    R: Files + AllocGlobal + Print + env::Env + Clone + Drop,
{
    let mut args = env::args(rt)?.skip(1);
    let folder = match args.next() {
        Some(folder) => folder,
        None => String::from_str(rt.alloc(), ".")?,
    };
    let mut passed = 0u64;
    let mut failed = 0u64;
    for name in &names_in(rt, folder.as_str())? {
        if passes(rt, folder.as_str(), name.as_str())? {
            passed = passed.saturating_add(1);
        } else {
            failed = failed.saturating_add(1);
        }
    }
    println!(rt; "{passed} passed, {failed} failed")?;
    Ok(failed == 0)
}

fn main(rt: HostRuntime) -> ExitCode {
    match run(&rt) {
        Ok(true) => ExitCode::from(0),
        _ => ExitCode::from(1),
    }
}
