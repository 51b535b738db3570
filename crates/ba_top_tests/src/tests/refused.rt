//! Reads and writes that fail one by one.

use super::{comes_to, failing_sink, held, status};
use ba_outside::{Held, MemFiles, MemSink};
use std::alloc::{AllocError, Global};
use std::test::Fail;

// The names and the texts of the files of a run that publishes a second set, in the order in which they are read.
const FILES: [(&str, &str); 9] = [
    (
        "S",
        "CREATE TABLE Users (UId INT PRIMARY KEY, Name TEXT NOT NULL);
CREATE TABLE Events (EId INT PRIMARY KEY, Title TEXT NOT NULL, Duration INT NOT NULL);
CREATE TABLE Attendances (UId INT NOT NULL REFERENCES Users (UId),
  EId INT NOT NULL REFERENCES Events (EId), At INT NOT NULL, PRIMARY KEY (UId, EId));",
    ),
    (
        "P",
        "PARAM MyUId INT;
CREATE VIEW V1 AS SELECT UId, Name FROM Users;
CREATE VIEW V2 AS SELECT UId, EId, At FROM Attendances WHERE UId = ?MyUId;
CREATE VIEW V3 AS SELECT e.EId, e.Title, e.Duration FROM Events e
  JOIN Attendances a ON a.EId = e.EId WHERE a.UId = ?MyUId;",
    ),
    ("t0/Users.csv", "UId,Name\n1,ann\n2,bob\n"),
    (
        "t0/Events.csv",
        "EId,Title,Duration\n5,plan,30\n6,party,60\n",
    ),
    ("t0/Attendances.csv", "UId,EId,At\n2,5,100\n1,6,200\n"),
    (
        "F",
        "{\"begin\":\"r1\",\"context\":{\"MyUId\":2}}
{\"publish\":\"t1\"}
{\"ask\":\"r1\",\"query\":\"SELECT Name FROM Users\"}
{\"begin\":\"r2\",\"context\":{\"MyUId\":1}}
{\"ask\":\"r2\",\"query\":\"SELECT Name FROM Users\"}
",
    ),
    ("t1/Users.csv", "UId,Name\n1,ann\n2,bob\n3,cy\n"),
    (
        "t1/Events.csv",
        "EId,Title,Duration\n5,plan,30\n6,party,60\n",
    ),
    ("t1/Attendances.csv", "UId,EId,At\n2,5,100\n1,6,200\n"),
];

// A script that publishes nothing, and the 193 bytes that a run of it writes over the first set.
const COVERED: &str = "{\"begin\":\"r1\",\"context\":{\"MyUId\":2}}
{\"ask\":\"r1\",\"query\":\"SELECT Name FROM Users\"}
";

const LINES: &str = "{\"begin\":\"r1\",\"line\":1,\"version\":0}
{\"by\":\"cover\",\"line\":2,\"request\":\"r1\",\"rows\":[[\"ann\"],[\"bob\"]],\"version\":0}
{\"answered\":1,\"blocked\":0,\"lines\":2,\"memory\":0,\"requests\":1,\"rows\":2,\"unread\":0}
";

fn add_files(alloc: Global, files: &mut Vec<Held>) -> Result<(), AllocError> {
    for (name, text) in FILES {
        files.push(held(alloc, name, text)?)?;
    }
    Ok(())
}

// The files of the run that publishes, of which the read of that number fails.
fn failing_files(alloc: Global, number: usize) -> Result<MemFiles, AllocError> {
    let mut files = Vec::new(alloc);
    add_files(alloc, &mut files)?;
    let failing = vec![in alloc; number as u64]?;
    Ok(MemFiles::new(alloc, files, failing))
}

// The files of the run that publishes nothing, none of whose reads fails.
fn covered_files(alloc: Global) -> Result<MemFiles, AllocError> {
    let mut files = Vec::new(alloc);
    // The first file of a name counts.
    files.push(held(alloc, "F", COVERED)?)?;
    add_files(alloc, &mut files)?;
    Ok(MemFiles::new(alloc, files, Vec::new(alloc)))
}

#[test]
fn refused_reads(rt: HostRuntime) -> Result<(), Fail> {
    let alloc = rt.alloc();
    for (number, (name, _)) in FILES.iter().enumerate() {
        let mut files = failing_files(alloc, number)?;
        let line = format!(in alloc; "{{\"fault\":\"read\",\"file\":\"{name}\",\"status\":4}}\n")?;
        assert!(rt;
            comes_to(&rt, alloc, &mut files, 4, line.as_str())?,
            "{name}"
        );
    }
    Ok(())
}

#[test]
fn refused_writes(rt: HostRuntime) -> Result<(), Fail> {
    let alloc = rt.alloc();
    let text = LINES.as_bytes();
    assert_eq!(rt; text.len(), 193);
    for number in 0..text.len() {
        let mut files = covered_files(alloc)?;
        let mut sink = failing_sink(alloc, number, vec![in alloc; 1usize; text.len()]?)?;
        assert_eq!(rt; status(&rt, alloc, &mut files, &mut sink)?, 5);
        assert_eq!(rt; sink.bytes(), &text[..number]);
    }
    Ok(())
}

#[test]
fn sink_of_single_bytes(rt: HostRuntime) -> Result<(), Fail> {
    let alloc = rt.alloc();
    let mut files = covered_files(alloc)?;
    let takes = vec![in alloc; 1usize; LINES.len()]?;
    let mut sink = MemSink::new(alloc, Vec::new(alloc), takes);
    assert_eq!(rt; status(&rt, alloc, &mut files, &mut sink)?, 0);
    assert_eq!(rt; sink.bytes(), LINES.as_bytes());
    Ok(())
}

#[test]
fn refused_read_and_write(rt: HostRuntime) -> Result<(), Fail> {
    let alloc = rt.alloc();
    // The eighth read and the first write.
    let mut files = failing_files(alloc, 7)?;
    let mut sink = failing_sink(alloc, 0, Vec::new(alloc))?;
    assert_eq!(rt; status(&rt, alloc, &mut files, &mut sink)?, 5);
    assert_eq!(rt; sink.bytes(), b"".as_slice());
    Ok(())
}
