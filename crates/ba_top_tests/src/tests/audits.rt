// Audits that no case of files can show: reads and writes that fail, want of memory, an output past the limit.
use super::{NoRoom, held};
use ba_outside::{Files, FreeGate, Held, MemFiles, MemSink, Sink};
use ba_top::blockaid;
use std::alloc::{AllocError, Global};
use std::sync::Wait;
use std::test::Fail;
use std::thread::Threads;

const WORDS: [&str; 11] = [
    "audit", "--schema", "S", "--policy", "P", "--tables", "t0", "--script", "F", "--output", "O",
];

// The names of an audit's files and their texts, in the order in which they are read.
const FILES: [(&str, &str); 5] = [
    (
        "S",
        "CREATE TABLE Users (UId INT PRIMARY KEY, Name TEXT NOT NULL);",
    ),
    ("P", "CREATE VIEW V AS SELECT UId, Name FROM Users;"),
    ("t0/Users.csv", "UId,Name\n1,ann\n2,bob\n"),
    (
        "F",
        "{\"begin\":\"r1\",\"context\":{}}\n{\"ask\":\"r1\",\"query\":\"SELECT Name FROM Users\"}\n",
    ),
    (
        "O",
        "{\"begin\":\"r1\",\"line\":1,\"version\":0}\n{\"by\":\"cover\",\"line\":2,\"proof\":[{\"pairing\":[0],\"view\":0}],\"request\":\"r1\",\"rows\":[[\"ann\"],[\"bob\"]],\"version\":0}\n{\"answered\":1,\"blocked\":0,\"lines\":2,\"memory\":0,\"requests\":1,\"rows\":2,\"unread\":0}\n",
    ),
];

// What an audit of these files writes.
const LINE: &str = "{\"audited\":true,\"lines\":2,\"unaudited\":0}\n";

fn add_files(alloc: Global, files: &mut Vec<Held>) -> Result<(), AllocError> {
    for (name, text) in FILES {
        files.push(held(alloc, name, text)?)?;
    }
    Ok(())
}

// The files of an audit, of which the reads of those numbers fail.
fn audit_files(alloc: Global, failing: Vec<u64>) -> Result<MemFiles, AllocError> {
    let mut files = Vec::new(alloc);
    add_files(alloc, &mut files)?;
    Ok(MemFiles::new(alloc, files, failing))
}

// The status of an audit.
fn status<R: Threads + Wait + Sync, F: Files, S: Sink>(
    rt: &R,
    alloc: Global,
    files: &mut F,
    sink: &mut S,
) -> Result<u8, AllocError> {
    let mut words = Vec::new(alloc);
    for word in WORDS {
        words.push(String::from_str(alloc, word)?)?;
    }
    Ok(blockaid(rt, alloc, &words, files, sink, &FreeGate).status)
}

// Whether an audit of these files ends with the status and writes exactly the line.
fn comes_to<R: Threads + Wait + Sync>(
    rt: &R,
    alloc: Global,
    files: &mut MemFiles,
    wanted: u8,
    line: &str,
) -> Result<bool, AllocError> {
    let mut sink = MemSink::new(alloc, Vec::new(alloc), Vec::new(alloc));
    let status = status(rt, alloc, files, &mut sink)?;
    Ok(status == wanted && sink.bytes() == line.as_bytes())
}

#[test]
fn each_read_of_an_audit_fails_in_turn(rt: HostRuntime) -> Result<(), Fail> {
    let alloc = rt.alloc();
    for (number, (name, _)) in FILES.iter().enumerate() {
        let mut files = audit_files(alloc, vec![in alloc; number as u64]?)?;
        let line = format!(in alloc; "{{\"fault\":\"read\",\"file\":\"{name}\",\"status\":4}}\n")?;
        assert!(rt;
            comes_to(&rt, alloc, &mut files, 4, line.as_str())?,
            "{name}"
        );
    }
    Ok(())
}

#[test]
fn each_write_of_an_audit_fails_in_turn(rt: HostRuntime) -> Result<(), Fail> {
    let alloc = rt.alloc();
    let text = LINE.as_bytes();
    for number in 0..=text.len() {
        let mut files = audit_files(alloc, Vec::new(alloc))?;
        let failing = vec![in alloc; number as u64]?;
        let mut sink = MemSink::new(alloc, failing, vec![in alloc; 1usize; text.len()]?);
        let wanted = if number < text.len() { 5 } else { 0 };
        assert_eq!(rt; status(&rt, alloc, &mut files, &mut sink)?, wanted);
        assert_eq!(rt; sink.bytes(), &text[..number]);
    }
    Ok(())
}

#[test]
fn want_of_memory_in_an_audit(rt: HostRuntime) -> Result<(), Fail> {
    let alloc = rt.alloc();
    let mut files = audit_files(alloc, Vec::new(alloc))?;
    assert_eq!(rt; status(&rt, alloc, &mut files, &mut NoRoom)?, 6);
    Ok(())
}

// The files of an audit, whose output has so many bytes, all of them line feeds.
fn long_files(alloc: Global, len: usize) -> Result<MemFiles, AllocError> {
    let mut files = Vec::new(alloc);
    let name = String::from_str(alloc, "O")?;
    let bytes = vec![in alloc; b'\n'; len]?;
    // The first file of a name counts.
    files.push(Held { name, bytes })?;
    add_files(alloc, &mut files)?;
    Ok(MemFiles::new(alloc, files, Vec::new(alloc)))
}

#[test]
fn bytes_of_an_output_past_the_limit(rt: HostRuntime) -> Result<(), Fail> {
    let alloc = rt.alloc();
    let mut files = long_files(alloc, 67_108_865)?;
    let limit = "{\"fault\":\"limit\",\"limit\":67108864,\"status\":7,\"what\":\"bytes\"}\n";
    assert!(rt; comes_to(&rt, alloc, &mut files, 7, limit)?);
    Ok(())
}
