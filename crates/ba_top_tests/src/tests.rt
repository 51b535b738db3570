// Runs that no case of files can show: reads and writes that fail, want of memory, huge files, the sure forms.
mod audits;
mod checks;
mod gates;
mod memory;
mod notices;
mod prints;
mod refused;
mod shard;
mod workers;

use crate::sure_run;
use ba_outside::{Files, FreeGate, Held, MemFiles, MemSink, ReadFail, Sink, WriteFail};
use ba_top::{Detail, blockaid};
use std::alloc::{AllocError, Global};
use std::sync::Wait;
use std::test::Fail;
use std::thread::Threads;

const WORDS: [&str; 9] = [
    "run", "--schema", "S", "--policy", "P", "--tables", "t0", "--script", "F",
];

// The names of a run's files and their texts, in the order in which they are read.
const FILES: [(&str, &str); 4] = [
    (
        "S",
        "CREATE TABLE Users (UId INT PRIMARY KEY, Name TEXT NOT NULL);",
    ),
    ("P", "CREATE VIEW V AS SELECT UId, Name FROM Users;"),
    ("t0/Users.csv", "UId,Name\n1,ann\n2,bob\n"),
    (
        "F",
        "{\"begin\":\"r1\",\"context\":{}}\n{\"ask\":\"r1\",\"query\":\"SELECT Name FROM Users\"}\n",
    ),
];

fn words(alloc: Global) -> Result<Vec<String>, AllocError> {
    let mut words = Vec::new(alloc);
    for word in WORDS {
        words.push(String::from_str(alloc, word)?)?;
    }
    Ok(words)
}

fn held(alloc: Global, name: &str, text: &str) -> Result<Held, AllocError> {
    let name = String::from_str(alloc, name)?;
    let bytes = text.as_bytes().to_vec(alloc)?;
    Ok(Held { name, bytes })
}

// Adds the files of a run.
fn add_files(alloc: Global, files: &mut Vec<Held>) -> Result<(), AllocError> {
    for (name, text) in FILES {
        files.push(held(alloc, name, text)?)?;
    }
    Ok(())
}

// The status of a run.
fn status<R: Threads + Wait + Sync, F: Files, S: Sink>(
    rt: &R,
    alloc: Global,
    files: &mut F,
    sink: &mut S,
) -> Result<u8, AllocError> {
    let words = words(alloc)?;
    Ok(blockaid(rt, alloc, &words, files, sink, &FreeGate).status)
}

// Whether a run over these files ends with the status and writes exactly the line.
fn comes_to<R: Threads + Wait + Sync>(
    rt: &R,
    alloc: Global,
    files: &mut MemFiles,
    wanted: u8,
    line: &str,
) -> Result<bool, AllocError> {
    let mut sink = MemSink::new(alloc, Vec::new(alloc), Vec::new(alloc));
    let status = status(rt, alloc, files, &mut sink)?;
    Ok(status == wanted && sink.bytes() == line.as_bytes())
}

// The files of a run, none of whose reads fails.
fn run_files(alloc: Global) -> Result<MemFiles, AllocError> {
    let mut files = Vec::new(alloc);
    add_files(alloc, &mut files)?;
    Ok(MemFiles::new(alloc, files, Vec::new(alloc)))
}

// The status of a run over the files above.
fn written<R: Threads + Wait + Sync, S: Sink>(
    rt: &R,
    alloc: Global,
    sink: &mut S,
) -> Result<u8, AllocError> {
    let mut files = run_files(alloc)?;
    status(rt, alloc, &mut files, sink)
}

// A sink whose calls take so many bytes, as far as that list goes, and of which the call of that number fails.
fn failing_sink(alloc: Global, number: usize, takes: Vec<usize>) -> Result<MemSink, AllocError> {
    let failing = vec![in alloc; number as u64]?;
    Ok(MemSink::new(alloc, failing, takes))
}

#[test]
fn sink_fails_in_mid_line(rt: HostRuntime) -> Result<(), Fail> {
    let alloc = rt.alloc();
    let mut sink = failing_sink(alloc, 1, vec![in alloc; 10]?)?;
    assert_eq!(rt; written(&rt, alloc, &mut sink)?, 5);
    assert_eq!(rt; sink.bytes(), b"{\"begin\":\"".as_slice());
    Ok(())
}

// Files and a sink without memory.
#[derive(Drop)]
struct NoRoom;

impl Files for NoRoom {
    ghost use Rattle.std.specs.Prelude.{None, []};

    ghost seen = { λ _. record { held = None; asked = []; taken = 0; faults = 0 } };

    fn read(&mut self, _name: &str, _limit: u64) -> Result<Vec<u8>, ReadFail> {
        Err(ReadFail::NoMemory)
    }
}

impl Sink for NoRoom {
    ghost use Rattle.std.specs.Prelude.{None};

    ghost seen = { λ _. record { written = None; pieces = None; faults = 0 } };

    fn write(&mut self, bytes: &[u8]) -> Result<usize, WriteFail> {
        if bytes.is_empty() {
            return Ok(0);
        }
        Err(WriteFail::NoMemory)
    }
}

#[test]
fn refused_memory(rt: HostRuntime) -> Result<(), Fail> {
    let alloc = rt.alloc();
    assert_eq!(rt; written(&rt, alloc, &mut NoRoom)?, 6);
    let mut sink = MemSink::new(alloc, Vec::new(alloc), Vec::new(alloc));
    assert_eq!(rt; status(&rt, alloc, &mut NoRoom, &mut sink)?, 6);
    assert!(rt; sink.bytes().is_empty());
    Ok(())
}

// Adds a file that ends with so many copies of a text.
fn add_huge(
    alloc: Global,
    files: &mut Vec<Held>,
    name: &str,
    front: &str,
    text: &str,
    count: u32,
) -> Result<(), AllocError> {
    let mut file = held(alloc, name, front)?;
    for _ in 0..count {
        file.bytes.extend_from_slice(text.as_bytes())?;
    }
    files.push(file)?;
    Ok(())
}

// 64 spaces.
const SPACES: &str = "                                                                ";

// Files whose counts pass a limit by one: a name, the front of its text, what is repeated behind it and how often, and
// what passes which limit.
const HUGE: [(&str, &str, &str, u32, &str, u64); 4] = [
    ("S", " ", SPACES, 16_384, "bytes", 1_048_576),
    (
        "t0/Users.csv",
        "UId,Name\n",
        "1,ann\n",
        100_001,
        "rows",
        100_000,
    ),
    ("F", "", "x\n", 65_537, "lines", 65_536),
    (
        "F",
        "",
        "{\"begin\":\"r1\",\"context\":{}}\n{\"end\":\"r1\"}\n",
        8193,
        "requests",
        8192,
    ),
];

// The files of a run, with one of them in place of its own.
fn huge_files(
    alloc: Global,
    name: &str,
    front: &str,
    text: &str,
    count: u32,
) -> Result<MemFiles, AllocError> {
    let mut files = Vec::new(alloc);
    // The first file of a name counts.
    add_huge(alloc, &mut files, name, front, text, count)?;
    add_files(alloc, &mut files)?;
    Ok(MemFiles::new(alloc, files, Vec::new(alloc)))
}

#[test]
fn limits_of_huge_files(rt: HostRuntime) -> Result<(), Fail> {
    let alloc = rt.alloc();
    for (name, front, text, count, what, limit) in HUGE {
        let mut files = huge_files(alloc, name, front, text, count)?;
        let line = format!(in alloc;
            "{{\"fault\":\"limit\",\"limit\":{limit},\"status\":7,\"what\":\"{what}\"}}\n"
        )?;
        assert!(rt;
            comes_to(&rt, alloc, &mut files, 7, line.as_str())?,
            "{name} {what}"
        );
    }
    Ok(())
}

// The files of a run, with a policy of so many bytes.
fn files_of_long_policy(alloc: Global, len: usize) -> Result<MemFiles, AllocError> {
    let mut files = Vec::new(alloc);
    let name = String::from_str(alloc, "P")?;
    let bytes = vec![in alloc; b' '; len]?;
    // The first file of a name counts.
    files.push(Held { name, bytes })?;
    add_files(alloc, &mut files)?;
    Ok(MemFiles::new(alloc, files, Vec::new(alloc)))
}

#[test]
fn oversized_file(rt: HostRuntime) -> Result<(), Fail> {
    let alloc = rt.alloc();
    let mut files = files_of_long_policy(alloc, 67_108_865)?;
    let line = "{\"fault\":\"limit\",\"limit\":67108864,\"status\":7,\"what\":\"bytes\"}\n";
    assert!(rt; comes_to(&rt, alloc, &mut files, 7, line)?);
    Ok(())
}

fn is_done(detail: &Detail) -> bool {
    match detail {
        Detail::Done => true,
        _ => false,
    }
}

#[test]
fn sure_forms(rt: HostRuntime) -> Result<(), Fail> {
    let alloc = rt.alloc();
    let mut files = Vec::new(alloc);
    add_files(alloc, &mut files)?;
    let words = words(alloc)?;
    assert!(rt; is_done(&sure_run(&rt, alloc, &words, files).detail));
    Ok(())
}
