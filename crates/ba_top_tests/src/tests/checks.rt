// Checks that no case of files can show: reads and writes that fail, want of memory, more steps than the limit.
use super::{NoRoom, held};
use ba_outside::{Files, FreeGate, Held, MemFiles, MemSink, Sink};
use ba_top::blockaid;
use std::alloc::{AllocError, Global};
use std::sync::Wait;
use std::test::Fail;
use std::thread::Threads;

const WORDS: [&str; 7] = ["check", "--schema", "S", "--policy", "P", "--proof", "F"];

// The names of a check's files and their texts, in the order in which they are read.
const FILES: [(&str, &str); 3] = [
    (
        "S",
        "CREATE TABLE Users (UId INT PRIMARY KEY, Name TEXT NOT NULL);",
    ),
    ("P", "CREATE VIEW V AS SELECT UId, Name FROM Users;"),
    (
        "F",
        "{\"context\":{},\"entries\":[],\"goal\":\"SELECT Name FROM Users WHERE 1 = 2\",\"steps\":[[\"absurd\",0]],\"version\":1}",
    ),
];

// What a check of these files writes.
const LINE: &str = "{\"accepted\":true,\"steps\":1}\n";

fn add_files(alloc: Global, files: &mut Vec<Held>) -> Result<(), AllocError> {
    for (name, text) in FILES {
        files.push(held(alloc, name, text)?)?;
    }
    Ok(())
}

// The files of a check, of which the reads of those numbers fail.
fn check_files(alloc: Global, failing: Vec<u64>) -> Result<MemFiles, AllocError> {
    let mut files = Vec::new(alloc);
    add_files(alloc, &mut files)?;
    Ok(MemFiles::new(alloc, files, failing))
}

// The status of a check.
fn status<R: Threads + Wait + Sync, F: Files, S: Sink>(
    rt: &R,
    alloc: Global,
    files: &mut F,
    sink: &mut S,
) -> Result<u8, AllocError> {
    let mut words = Vec::new(alloc);
    for word in WORDS {
        words.push(String::from_str(alloc, word)?)?;
    }
    Ok(blockaid(rt, alloc, &words, files, sink, &FreeGate).status)
}

// Whether a check of these files ends with the status and writes exactly the line.
fn comes_to<R: Threads + Wait + Sync>(
    rt: &R,
    alloc: Global,
    files: &mut MemFiles,
    wanted: u8,
    line: &str,
) -> Result<bool, AllocError> {
    let mut sink = MemSink::new(alloc, Vec::new(alloc), Vec::new(alloc));
    let status = status(rt, alloc, files, &mut sink)?;
    Ok(status == wanted && sink.bytes() == line.as_bytes())
}

#[test]
fn each_read_of_a_check_fails_in_turn(rt: HostRuntime) -> Result<(), Fail> {
    let alloc = rt.alloc();
    for (number, (name, _)) in FILES.iter().enumerate() {
        let mut files = check_files(alloc, vec![in alloc; number as u64]?)?;
        let line = format!(in alloc; "{{\"fault\":\"read\",\"file\":\"{name}\",\"status\":4}}\n")?;
        assert!(rt;
            comes_to(&rt, alloc, &mut files, 4, line.as_str())?,
            "{name}"
        );
    }
    Ok(())
}

#[test]
fn each_write_of_a_check_fails_in_turn(rt: HostRuntime) -> Result<(), Fail> {
    let alloc = rt.alloc();
    let text = LINE.as_bytes();
    for number in 0..=text.len() {
        let mut files = check_files(alloc, Vec::new(alloc))?;
        let failing = vec![in alloc; number as u64]?;
        let mut sink = MemSink::new(alloc, failing, vec![in alloc; 1usize; text.len()]?);
        let wanted = if number < text.len() { 5 } else { 0 };
        assert_eq!(rt; status(&rt, alloc, &mut files, &mut sink)?, wanted);
        assert_eq!(rt; sink.bytes(), &text[..number]);
    }
    Ok(())
}

#[test]
fn want_of_memory_in_a_check(rt: HostRuntime) -> Result<(), Fail> {
    let alloc = rt.alloc();
    let mut files = check_files(alloc, Vec::new(alloc))?;
    assert_eq!(rt; status(&rt, alloc, &mut files, &mut NoRoom)?, 6);
    Ok(())
}

// A proof of so many steps and one more.
fn long_proof(alloc: Global, count: u32) -> Result<Held, AllocError> {
    let front = "{\"context\":{},\"entries\":[],\"goal\":\"SELECT Name FROM Users\",\"steps\":[";
    let mut file = held(alloc, "F", front)?;
    for _ in 0..count {
        file.bytes.extend_from_slice(b"[\"absurd\",0],")?;
    }
    file.bytes
        .extend_from_slice(b"[\"absurd\",0]],\"version\":1}")?;
    Ok(file)
}

// The files of a check, whose proof has so many steps and one more.
fn long_files(alloc: Global, count: u32) -> Result<MemFiles, AllocError> {
    let mut files = Vec::new(alloc);
    // The first file of a name counts.
    files.push(long_proof(alloc, count)?)?;
    add_files(alloc, &mut files)?;
    Ok(MemFiles::new(alloc, files, Vec::new(alloc)))
}

#[test]
fn steps_of_a_proof_at_the_limit(rt: HostRuntime) -> Result<(), Fail> {
    let alloc = rt.alloc();
    let mut files = long_files(alloc, 99_999)?;
    let line = "{\"accepted\":false,\"fault\":\"absurd\",\"step\":0}\n";
    assert!(rt; comes_to(&rt, alloc, &mut files, 1, line)?);
    let mut more = long_files(alloc, 100_000)?;
    let limit = "{\"fault\":\"limit\",\"limit\":100000,\"status\":7,\"what\":\"steps\"}\n";
    assert!(rt; comes_to(&rt, alloc, &mut more, 7, limit)?);
    Ok(())
}
