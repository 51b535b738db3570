//! The line on why a run ended, where no example of files can show it: a sink that fails, and want of memory.
use super::{NoRoom, failing_sink, run_files, words};
use ba_lanes::{Entry, LineKind};
use ba_notice::notice;
use ba_outside::{Files, FreeGate, MemSink, Sink};
use ba_top::{Detail, Outcome, blockaid, lines_without_memory};
use std::alloc::{AllocError, AllocGlobal, Global};
use std::sync::Wait;
use std::test::Fail;
use std::thread::Threads;

// What a run comes to.
fn ran<R: Threads + Wait + Sync, F: Files, S: Sink>(
    rt: &R,
    alloc: Global,
    files: &mut F,
    sink: &mut S,
) -> Result<Outcome, AllocError> {
    let words = words(alloc)?;
    Ok(blockaid(rt, alloc, &words, files, sink, &FreeGate))
}

// Whether this is said of the outcome, with no file that may be read again.
fn is_told<R: std::fs::Files + AllocGlobal>(
    rt: &R,
    outcome: &Outcome,
    wanted: &str,
) -> Result<bool, AllocError> {
    let words = words(rt.alloc())?;
    let lacking = match &outcome.journal {
        Some(journal) => Some(lines_without_memory(journal)),
        None => None,
    };
    let told = notice(rt, &words, "", &[], &outcome.detail, lacking)?;
    Ok(told.as_str() == wanted)
}

#[test]
fn notice_of_a_sink_that_fails(rt: HostRuntime) -> Result<(), Fail> {
    let alloc = rt.alloc();
    let mut files = run_files(alloc)?;
    let mut sink = failing_sink(alloc, 1, vec![in alloc; 10]?)?;
    let outcome = ran(&rt, alloc, &mut files, &mut sink)?;
    assert_eq!(rt; outcome.status, 5);
    let wanted = "blockaid: standard output took no more: what was written isn't all";
    assert!(rt; is_told(&rt, &outcome, wanted)?);
    Ok(())
}

#[test]
fn notice_of_no_memory_for_files(rt: HostRuntime) -> Result<(), Fail> {
    let alloc = rt.alloc();
    let mut sink = MemSink::new(alloc, Vec::new(alloc), Vec::new(alloc));
    let outcome = ran(&rt, alloc, &mut NoRoom, &mut sink)?;
    assert_eq!(rt; outcome.status, 6);
    let wanted = "blockaid: memory ran out, and nothing was answered";
    assert!(rt; is_told(&rt, &outcome, wanted)?);
    Ok(())
}

#[test]
fn notice_of_no_memory_for_writes(rt: HostRuntime) -> Result<(), Fail> {
    let alloc = rt.alloc();
    let mut files = run_files(alloc)?;
    let outcome = ran(&rt, alloc, &mut files, &mut NoRoom)?;
    assert_eq!(rt; outcome.status, 6);
    let wanted = "blockaid: memory ran out while the lines were written";
    assert!(rt; is_told(&rt, &outcome, wanted)?);
    Ok(())
}

// Adds two entries of lines for which there was no memory, as a run leaves them, and says so.
fn lack_two(outcome: &mut Outcome) -> Result<(), AllocError> {
    outcome.detail = Detail::Memory;
    if let Some(journal) = &mut outcome.journal {
        for kind in [LineKind::Publish, LineKind::Ask] {
            journal.entries.push(Entry::Memory {
                kind,
                request: None,
                version: None,
            })?;
        }
    }
    Ok(())
}

#[test]
fn notice_of_no_memory_for_lines(rt: HostRuntime) -> Result<(), Fail> {
    let alloc = rt.alloc();
    let mut files = run_files(alloc)?;
    let mut sink = MemSink::new(alloc, Vec::new(alloc), Vec::new(alloc));
    let mut outcome = ran(&rt, alloc, &mut files, &mut sink)?;
    lack_two(&mut outcome)?;
    let wanted = "blockaid: memory ran out for lines of the script, which say so: 2";
    assert!(rt; is_told(&rt, &outcome, wanted)?);
    Ok(())
}
