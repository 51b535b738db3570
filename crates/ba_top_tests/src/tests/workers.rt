// Workers that run beside each other.
use super::{failing_sink, held};
use ba_outside::{FreeGate, HoldGate, MemFiles, MemSink};
use ba_top::blockaid;
use std::alloc::{AllocError, Global};
use std::sync::Wait;
use std::test::Fail;
use std::thread::Threads;

const WORDS: [&str; 10] = [
    "run",
    "--schema",
    "S",
    "--policy",
    "P",
    "--tables",
    "t0",
    "--script",
    "F",
    "--workers",
];

// Two requests, which two workers serve, or two of sixteen.
pub(super) const FILES: [(&str, &str); 4] = [
    (
        "S",
        "CREATE TABLE Users (UId INT PRIMARY KEY, Name TEXT NOT NULL);",
    ),
    (
        "P",
        "PARAM MyUId INT; CREATE VIEW V AS SELECT UId, Name FROM Users;",
    ),
    ("t0/Users.csv", "UId,Name\n1,ann\n2,bob\n"),
    (
        "F",
        "{\"begin\":\"r1\",\"context\":{\"MyUId\":2}}
{\"ask\":\"r1\",\"query\":\"SELECT Name FROM Users\"}
{\"begin\":\"r2\",\"context\":{\"MyUId\":1}}
{\"ask\":\"r2\",\"query\":\"SELECT Name FROM Users\"}
",
    ),
];

// What each run over these files writes.
const LINES: &str = "{\"begin\":\"r1\",\"line\":1,\"version\":0}
{\"by\":\"cover\",\"line\":2,\"request\":\"r1\",\"rows\":[[\"ann\"],[\"bob\"]],\"version\":0}
{\"begin\":\"r2\",\"line\":3,\"version\":0}
{\"by\":\"cover\",\"line\":4,\"request\":\"r2\",\"rows\":[[\"ann\"],[\"bob\"]],\"version\":0}
{\"answered\":2,\"blocked\":0,\"lines\":4,\"memory\":0,\"requests\":2,\"rows\":4,\"unread\":0}
";

// The words of a run by so many workers.
pub(super) fn words(alloc: Global, workers: &str) -> Result<Vec<String>, AllocError> {
    let mut words = Vec::new(alloc);
    for word in WORDS {
        words.push(String::from_str(alloc, word)?)?;
    }
    words.push(String::from_str(alloc, workers)?)?;
    Ok(words)
}

fn files(alloc: Global) -> Result<MemFiles, AllocError> {
    let mut files = Vec::new(alloc);
    for (name, text) in FILES {
        files.push(held(alloc, name, text)?)?;
    }
    Ok(MemFiles::new(alloc, files, Vec::new(alloc)))
}

// Whether a run whose job `first` waits at its first line for job `second` writes its lines, and needn't give up.
fn runs_beside<R: Threads + Wait + Sync>(
    rt: &R,
    alloc: Global,
    first: u32,
    second: u32,
) -> Result<bool, AllocError> {
    let words = words(alloc, "2")?;
    let mut files = files(alloc)?;
    let mut sink = MemSink::new(alloc, Vec::new(alloc), Vec::new(alloc));
    let gate = HoldGate::new(first, second, 100_000_000);
    let outcome = blockaid(rt, alloc, &words, &mut files, &mut sink, &gate);
    Ok(outcome.status == 0 && sink.bytes() == LINES.as_bytes() && !gate.gave_up())
}

#[test]
fn two_workers_at_a_hold_gate(rt: HostRuntime) -> Result<(), Fail> {
    let alloc = rt.alloc();
    assert!(rt; runs_beside(&rt, alloc, 0, 1)?);
    assert!(rt; runs_beside(&rt, alloc, 1, 0)?);
    Ok(())
}

// Whether a run by sixteen workers whose writes take a byte each, and fail behind these, ends with status 5 and leaves just these.
fn fails_behind<R: Threads + Wait + Sync>(
    rt: &R,
    alloc: Global,
    front: &[u8],
) -> Result<bool, AllocError> {
    let words = words(alloc, "16")?;
    let mut files = files(alloc)?;
    let mut sink = failing_sink(alloc, front.len(), vec![in alloc; 1usize; LINES.len()]?)?;
    let outcome = blockaid(rt, alloc, &words, &mut files, &mut sink, &FreeGate);
    Ok(outcome.status == 5 && sink.bytes() == front)
}

#[test]
fn each_write_of_sixteen_workers_lines_fails_in_turn(rt: HostRuntime) -> Result<(), Fail> {
    let alloc = rt.alloc();
    let text = LINES.as_bytes();
    for number in 0..text.len() {
        assert!(rt; fails_behind(&rt, alloc, &text[..number])?, "{number}");
    }
    Ok(())
}
