//! Want of memory, as a journal tells it.

use super::{add_files, held, words};
use ba_input::{Task, read_task};
use ba_kernel::Problem;
use ba_lanes::{Entry, Journal, LineKind, serve};
use ba_outside::{FreeGate, Held, SureFiles};
use ba_settle::{Settle, Settled};
use std::alloc::{AllocError, Global};
use std::sync::Wait;
use std::test::Fail;
use std::thread::Threads;

// Two requests. A view covers the second line's question, and those of lines 3 and 6 aren't covered.
const SCRIPT: &str = "{\"begin\":\"r1\",\"context\":{}}
{\"ask\":\"r1\",\"query\":\"SELECT Name FROM Users\"}
{\"ask\":\"r1\",\"query\":\"SELECT a.Name FROM Users a, Users b WHERE a.UId = b.UId\"}
{\"end\":\"r1\"}
{\"begin\":\"r2\",\"context\":{}}
{\"ask\":\"r2\",\"query\":\"SELECT a.Name FROM Users a, Users b WHERE a.UId = b.UId\"}
";

// A search that never finds memory.
#[derive(Clone, Copy, Drop)]
struct Forgetful;

impl Settle for Forgetful {
    ghost orders = { λ _. 1 };

    fn settle(
        &self,
        _alloc: Global,
        _problem: Problem,
        _budget: u32,
    ) -> Result<Settled, AllocError> {
        Err(AllocError)
    }
}

// The files of a run, with the script above.
fn files_of_run(alloc: Global) -> Result<Vec<Held>, AllocError> {
    let mut files = Vec::new(alloc);
    // The first file of a name counts.
    files.push(held(alloc, "F", SCRIPT)?)?;
    add_files(alloc, &mut files)?;
    Ok(files)
}

// Serves the script, where no search finds memory.
fn served<R: Threads + Wait + Sync>(rt: &R, alloc: Global) -> Result<Journal, AllocError> {
    let words = words(alloc)?;
    let mut files = SureFiles::new(alloc, files_of_run(alloc)?);
    match read_task(alloc, &words, &mut files) {
        Ok(Task::Run(input, _)) if input.orders == 1 => {
            serve(rt, alloc, &input, &Forgetful, &FreeGate)
        }
        _ => Err(AllocError),
    }
}

// What a line says that found no memory, and its request and version.
fn wanting(entry: &Entry) -> Option<(LineKind, Option<u32>, Option<u32>)> {
    match entry {
        Entry::Memory {
            kind,
            request,
            version,
        } => Some((*kind, *request, *version)),
        _ => None,
    }
}

#[test]
fn memory_of_two_questions(rt: HostRuntime) -> Result<(), Fail> {
    let alloc = rt.alloc();
    let journal = served(&rt, alloc)?;
    let mut found = Vec::new(alloc);
    for entry in journal.entries.as_slice() {
        found.push(wanting(entry))?;
    }
    let first = Some((LineKind::Ask, Some(0), Some(0)));
    let second = Some((LineKind::Ask, Some(1), Some(0)));
    assert_eq!(rt;
        found.as_slice(),
        [None, None, first, None, None, second].as_slice()
    );
    Ok(())
}
