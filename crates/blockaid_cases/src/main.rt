//! `blockaid_cases [FOLDER]`: runs the top call on each case of a folder (the one that it is run in, if none is named)
//! and says of each whether its run ended as it must; and of those that leave the number of workers open and
//! publish nothing, whether a run by four workers ended so too, but for which answers are by proof and which by template. (Left out is a case with
//! a file `order`: its lines go by the order in which requests come.)
//!
//! The folder holds a folder for each topic, and that a folder for each of its cases: the input files,
//! `words` (a word on each line, without the program's name), `expected` (the bytes that the run must
//! write) and `status` (the status that it must end with). It may have `hint`, the line on why the run
//! ends so that must be told, and `why`, the reasons of all its questions in words. Or it has `lint`: in
//! its first line the words of the linter, then what it must tell, and the status. Names in its words
//! are relative to it.
#![tactic(auto)]

mod case;
mod lint;

use case::{Case, End};
use lint::{is_of_lint, lint_case};
use std::process::ExitCode;
use std::rt::Files;
use std::sync::Wait;
use std::thread::Threads;
use std::{env, fs, io};

// The names of what a folder holds, rising.
fn names_in<R>(rt: &R, folder: &str) -> io::Result<Vec<String>>
where
    R: Files + AllocGlobal + Clone + Drop,
{
    let mut names = Vec::new(rt.alloc());
    for entry in fs::read_dir(rt, folder)? {
        names.push(String::from_str(rt.alloc(), entry?.file_name())?)?;
    }
    names.sort_unstable();
    Ok(names)
}

// The cases of a folder, rising: the name of a topic's folder, a slash and that of the case's folder in it.
fn cases_in<R>(rt: &R, folder: &str) -> io::Result<Vec<String>>
where
    R: Files + AllocGlobal + Clone + Drop,
{
    let mut cases = Vec::new(rt.alloc());
    for topic in &names_in(rt, folder)? {
        let place = format!(in rt.alloc(); "{folder}/{topic}")?;
        for name in &names_in(rt, place.as_str())? {
            cases.push(format!(in rt.alloc(); "{topic}/{name}")?)?;
        }
    }
    Ok(cases)
}

// A line, if it is text.
fn text_of(line: &[u8]) -> &str {
    std::str::from_utf8(line).unwrap_or("(no text)")
}

// Says which line of a text is the first that isn't as it must be, and what it must be. `what` stands before it.
fn tell_line(rt: &impl Print, what: &str, wanted: &[u8], text: &[u8]) -> io::Result<()> {
    let mut lines = text.split(|byte| *byte == b'\n');
    for (at, line) in wanted.split(|byte| *byte == b'\n').enumerate() {
        let written = lines.next().unwrap_or(b"(none)");
        if line != written {
            let number = at.saturating_add(1);
            println!(rt; "  {what}line {number}: {}", text_of(written))?;
            println!(rt; "  wanted: {}", text_of(line))?;
            return Ok(());
        }
    }
    match lines.next() {
        Some(line) => println!(rt; "  {what}a line too much: {}", text_of(line)),
        None => Ok(()),
    }
}

// Says where the end differs from the wanted one: the status, the hint, and the first line that isn't the same.
fn tell(rt: &impl Print, name: &str, wanted: &End, end: &End) -> io::Result<()> {
    let status = end.status;
    let must = wanted.status;
    println!(rt; "{name} differs: it ended with status {status}, and {must} is wanted")?;
    if end.hint != wanted.hint {
        print!(rt; "  hint: {}", end.hint)?;
        print!(rt; "  wanted: {}", wanted.hint)?;
    }
    tell_line(rt, "", &wanted.text, &end.text)
}

// Says how a run of the case ended, and gives whether that is as it must be.
fn tells(rt: &impl Print, name: &str, wanted: &End, end: &End, is_same: bool) -> io::Result<bool> {
    if is_same {
        println!(rt; "ok {name}")?;
    } else {
        tell(rt, name, wanted, end)?;
    }
    Ok(is_same)
}

// Runs the case by four workers, where they must end it like one.
fn passes_by_many<R>(rt: &R, place: &str, name: &str, case: &Case) -> io::Result<bool>
where
    R: Files + AllocGlobal + Print + Threads + Wait + Sync + Clone + Drop,
{
    if !case.is_for_many {
        return Ok(true);
    }
    let end = case.run(rt, place, "--workers\n4\n")?;
    let name = format!(in rt.alloc(); "{name} by 4 workers")?;
    tells(
        rt,
        name.as_str(),
        &case.wanted,
        &end,
        end.is_like(&case.wanted),
    )
}

// Tells the reasons of the case's run, where it says what they must be, and gives whether they are.
fn tells_why<R>(rt: &R, place: &str, name: &str, case: &Case) -> io::Result<bool>
where
    R: Files + AllocGlobal + Print + Threads + Wait + Sync + Clone + Drop,
{
    let Some(reasons) = case.reasons(rt, place)? else {
        return Ok(true);
    };
    if reasons.told == reasons.wanted {
        return Ok(true);
    }
    println!(rt; "{name} differs: it isn't told why as it must be")?;
    tell_line(rt, "why, ", &reasons.wanted, &reasons.told)?;
    Ok(false)
}

// Tells what the linter finds in the case, where it says what that must be, and gives whether it is.
fn passes_lint<R>(rt: &R, place: &str, name: &str) -> io::Result<bool>
where
    R: Files + AllocGlobal + Print + Threads + Wait + Sync + Clone + Drop,
{
    let Some(end) = lint_case(rt, place)? else {
        return Ok(true);
    };
    if end.told == end.wanted {
        println!(rt; "ok {name} by lint")?;
        return Ok(true);
    }
    println!(rt; "{name} differs: the linter tells something else")?;
    tell_line(rt, "lint, ", &end.wanted, &end.told)?;
    Ok(false)
}

// Tries the case of that name, and gives whether it ended as it must.
fn passes<R>(rt: &R, folder: &str, name: &str) -> io::Result<bool>
where
    R: Files + AllocGlobal + Print + Threads + Wait + Sync + Clone + Drop,
{
    let place = format!(in rt.alloc(); "{folder}/{name}")?;
    let is_linted = passes_lint(rt, place.as_str(), name)?;
    if is_of_lint(rt, place.as_str())? {
        return Ok(is_linted);
    }
    Ok(passes_run(rt, place.as_str(), name)? && is_linted)
}

// Runs the case of that name, and gives whether it ended as it must.
fn passes_run<R>(rt: &R, place: &str, name: &str) -> io::Result<bool>
where
    R: Files + AllocGlobal + Print + Threads + Wait + Sync + Clone + Drop,
{
    let case = Case::read(rt, place)?;
    let end = case.run(rt, place, "")?;
    let is_same = tells(rt, name, &case.wanted, &end, end == case.wanted)?;
    let is_told = tells_why(rt, place, name, &case)?;
    Ok(passes_by_many(rt, place, name, &case)? && is_same && is_told)
}

// Runs each case of the folder and gives how many passed and how many failed.
fn counts<R>(rt: &R, folder: &str) -> io::Result<(u64, u64)>
where
    R: Files + AllocGlobal + Print + Threads + Wait + Sync + Clone + Drop,
{
    let mut passed = 0u64;
    let mut failed = 0u64;
    for name in &cases_in(rt, folder)? {
        match passes(rt, folder, name.as_str()) {
            Ok(true) => passed = passed.saturating_add(1),
            Ok(false) => failed = failed.saturating_add(1),
            Err(error) => {
                println!(rt; "{name} can't be tried: {error}")?;
                failed = failed.saturating_add(1);
            }
        }
    }
    Ok((passed, failed))
}

fn main(rt: HostRuntime) -> io::Result<ExitCode> {
    let folder = env::args(&rt)?.nth(1);
    let folder = folder.as_ref().map_or(".", |folder| folder.as_str());
    let (passed, failed) = counts(&rt, folder)?;
    println!(rt; "{passed} passed, {failed} failed")?;
    Ok(ExitCode::from(u8::from(failed != 0)))
}
