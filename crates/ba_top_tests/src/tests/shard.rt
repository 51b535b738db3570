//! Which shard and which number a template has that answers, as the journal tells it.

use super::{held, words};
use crate::sure_run;
use ba_lanes::{Entry, Journal};
use ba_session::{By, Reply};
use std::test::Fail;

// The names of the files of a run and their texts.
const FILES: [(&str, &str); 6] = [
    (
        "S",
        "CREATE TABLE Users (UId INT PRIMARY KEY, Name TEXT NOT NULL);
CREATE TABLE Events (EId INT PRIMARY KEY, Title TEXT NOT NULL, Duration INT NOT NULL);
CREATE TABLE Attendances (UId INT NOT NULL REFERENCES Users (UId),
  EId INT NOT NULL REFERENCES Events (EId), At INT NOT NULL, PRIMARY KEY (UId, EId));",
    ),
    (
        "P",
        "PARAM MyUId INT;
CREATE VIEW V2 AS SELECT UId, EId, At FROM Attendances WHERE UId = ?MyUId;
CREATE VIEW V3 AS SELECT e.EId, e.Title, e.Duration FROM Events e
  JOIN Attendances a ON a.EId = e.EId WHERE a.UId = ?MyUId;",
    ),
    ("t0/Users.csv", "UId,Name\n1,ann\n2,bob\n"),
    (
        "t0/Events.csv",
        "EId,Title,Duration\n5,plan,30\n6,party,60\n",
    ),
    ("t0/Attendances.csv", "UId,EId,At\n2,5,100\n1,6,200\n"),
    (
        "F",
        "{\"begin\":\"r1\",\"context\":{\"MyUId\":2}}
{\"ask\":\"r1\",\"query\":\"SELECT * FROM Attendances WHERE UId = 2 AND EId = 5\"}
{\"ask\":\"r1\",\"query\":\"SELECT Title FROM Events WHERE EId = 5\"}
{\"begin\":\"r2\",\"context\":{\"MyUId\":1}}
{\"ask\":\"r2\",\"query\":\"SELECT * FROM Attendances WHERE UId = 1 AND EId = 6\"}
{\"ask\":\"r2\",\"query\":\"SELECT Title FROM Events WHERE EId = 6\"}
",
    ),
];

// The shard and the number of the template that answers the line, if one does.
fn template_of(journal: &Journal, line: usize) -> Option<(u32, u32)> {
    let entry = journal.entries.as_slice().get(line)?;
    match entry {
        Entry::Ask {
            reply: Reply::Answer {
                by: By::Template { shard, id, .. },
                ..
            },
            ..
        } => Some((*shard, *id)),
        _ => None,
    }
}

#[test]
fn template_in_shard_three(rt: HostRuntime) -> Result<(), Fail> {
    let alloc = rt.alloc();
    let mut files = Vec::new(alloc);
    for (name, text) in FILES {
        files.push(held(alloc, name, text)?)?;
    }
    let words = words(alloc)?;
    let outcome = sure_run(&rt, alloc, &words, files);
    let found = match &outcome.journal {
        Some(journal) => template_of(journal, 5),
        None => None,
    };
    assert_eq!(rt; found, Some((3, 0)));
    Ok(())
}
