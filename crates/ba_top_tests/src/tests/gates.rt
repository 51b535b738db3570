// Each lane passes the gate before each of its lines.
use super::held;
use super::workers::{FILES, words};
use ba_outside::{Gate, MemFiles, MemSink};
use ba_top::blockaid;
use std::alloc::{AllocError, Global};
use std::sync::Wait;
use std::sync::atomic::{AtomicBool, AtomicU64, Ordering};
use std::test::Fail;
use std::thread::Threads;

// Three requests of four, two and two lines, and a publish line.
const SCRIPT: &str = "{\"begin\":\"r1\",\"context\":{\"MyUId\":2}}
{\"ask\":\"r1\",\"query\":\"SELECT Name FROM Users\"}
{\"begin\":\"r2\",\"context\":{\"MyUId\":1}}
{\"ask\":\"r1\",\"query\":\"SELECT Nme FROM Users\"}
{\"publish\":\"t0\"}
{\"begin\":\"r3\",\"context\":{\"MyUId\":1}}
{\"end\":\"r1\"}
{\"ask\":\"r2\",\"query\":\"SELECT Name FROM Users\"}
{\"end\":\"r3\"}
";

// How many lines the first three jobs have of them: with one worker all; else those of the
// requests, and of the publish lines, whose number from 0 leaves the job's where it is divided by
// the number of workers.
const LINES: [(&str, [u64; 3]); 3] = [("1", [9, 0, 0]), ("2", [7, 2, 0]), ("16", [5, 2, 2])];

/// A gate that counts the passes of the first three jobs, which are to come at the points 0, 1, 2
/// and so on.
#[derive(Drop)]
struct CountGate {
    passes: [AtomicU64; 3],
    is_astray: AtomicBool,
}

impl CountGate {
    fn new() -> Self {
        CountGate {
            passes: [AtomicU64::new(0), AtomicU64::new(0), AtomicU64::new(0)],
            is_astray: AtomicBool::new(false),
        }
    }

    // Whether the job is one of the first three, and has passed so often before.
    fn is_next(&self, job: u32, point: u32) -> bool {
        match self.passes.get(job as usize) {
            Some(passes) => passes.fetch_add(1, Ordering::SeqCst) == point as u64,
            None => false,
        }
    }

    // Whether the jobs passed so often, each time at the point that was next.
    fn has_seen(&self, lines: [u64; 3]) -> bool {
        for job in 0..3 {
            if self.passes[job].load(Ordering::SeqCst) != lines[job] {
                return false;
            }
        }
        !self.is_astray.load(Ordering::SeqCst)
    }
}

impl Gate for CountGate {
    fn pass(&self, job: u32, point: u32) {
        if !self.is_next(job, point) {
            self.is_astray.store(true, Ordering::SeqCst);
        }
    }
}

fn files(alloc: Global) -> Result<MemFiles, AllocError> {
    let mut files = Vec::new(alloc);
    // The first file of a name counts.
    files.push(held(alloc, "F", SCRIPT)?)?;
    for (name, text) in FILES {
        files.push(held(alloc, name, text)?)?;
    }
    Ok(MemFiles::new(alloc, files, Vec::new(alloc)))
}

// Whether the jobs of a run by so many workers pass the gate once for each of their lines, in
// order.
fn pass_in_order<R: Threads + Wait + Sync>(
    rt: &R,
    alloc: Global,
    workers: &str,
    lines: [u64; 3],
) -> Result<bool, AllocError> {
    let words = words(alloc, workers)?;
    let mut files = files(alloc)?;
    let mut sink = MemSink::new(alloc, Vec::new(alloc), Vec::new(alloc));
    let gate = CountGate::new();
    let outcome = blockaid(rt, alloc, &words, &mut files, &mut sink, &gate);
    Ok(outcome.status == 0 && gate.has_seen(lines))
}

#[test]
fn each_lane_passes_the_gate_before_each_of_its_lines(rt: HostRuntime) -> Result<(), Fail> {
    let alloc = rt.alloc();
    for (workers, lines) in LINES {
        assert!(rt;
            pass_in_order(&rt, alloc, workers, lines)?,
            "workers: {workers}"
        );
    }
    Ok(())
}
