// A script that is printed goes to the sink line by line.
use super::failing_sink;
use ba_outside::{FreeGate, MemFiles};
use ba_top::blockaid;
use std::alloc::{AllocError, Global};
use std::sync::Wait;
use std::test::Fail;
use std::thread::Threads;

const WORDS: [&str; 6] = ["gen", "--seed", "0", "--requests", "1", "--print"];

// The first lines of the script.
const LINES: &str = "{\"begin\":\"q0\",\"context\":{\"MyUId\":64}}
{\"ask\":\"q0\",\"query\":\"SELECT UId, EId, At FROM Attendances WHERE UId = 64 AND EId = 1\"}
";

// What is written by a sink whose call of that number fails, and the status.
fn printed<R: Threads + Wait + Sync>(
    rt: &R,
    alloc: Global,
    number: usize,
) -> Result<(u8, Vec<u8>), AllocError> {
    let mut words = Vec::new(alloc);
    for word in WORDS {
        words.push(String::from_str(alloc, word)?)?;
    }
    let mut files = MemFiles::new(alloc, Vec::new(alloc), Vec::new(alloc));
    let mut sink = failing_sink(alloc, number, Vec::new(alloc))?;
    let outcome = blockaid(rt, alloc, &words, &mut files, &mut sink, &FreeGate);
    Ok((outcome.status, sink.bytes().to_vec(alloc)?))
}

#[test]
fn script_is_printed_line_by_line(rt: HostRuntime) -> Result<(), Fail> {
    let alloc = rt.alloc();
    let (status, bytes) = printed(&rt, alloc, 2)?;
    assert_eq!(rt; status, 5);
    assert_eq!(rt; bytes.as_slice(), LINES.as_bytes());
    Ok(())
}
