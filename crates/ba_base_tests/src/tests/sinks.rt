//! A sink over a writer.

use super::Handle;
use ba_outside::{Sink, StdSink, WriteFail};
use std::io;
use std::io::{ErrorKind, Write};

/// Whether a write took so many bytes, or failed.
fn is_told(got: &Result<usize, WriteFail>, word: &str) -> bool {
    match got {
        Ok(count) => word.parse::<usize>().ok() == Some(*count),
        Err(WriteFail::Failed) => word == "failed",
        Err(WriteFail::NoMemory) => false,
    }
}

/// Writes in turn: on each line a piece, and the count of bytes that are taken of it.
fn writes<S: Sink>(rt: &impl Handle, sink: &mut S, lines: &str) {
    for line in lines.lines() {
        let (piece, word) = line.split_once('>').unwrap_or((line, ""));
        let got = sink.write(piece.as_bytes());
        assert!(rt; is_told(&got, word), "{line}");
    }
}

/// A writer that keeps what it was given, with a bar at each flush. It takes at most two bytes a call, and nothing of a
/// piece that begins with `n`. A piece that begins with `x` isn't written, one that ends with `f` can't be flushed.
#[derive(Drop)]
struct Picky<'a> {
    log: &'a mut Vec<u8>,
}

impl Write for Picky<'_> {
    fn write(&mut self, buf: &[u8]) -> io::Result<usize> {
        if buf.starts_with(b"x") {
            return Err(io::Error::from(ErrorKind::BrokenPipe));
        }
        let most = if buf.starts_with(b"n") { 0 } else { 2 };
        let count = buf.len().min(most);
        self.log.extend_from_slice(&buf[..count])?;
        Ok(count)
    }

    fn flush(&mut self) -> io::Result<()> {
        if self.log.ends_with(b"f") {
            return Err(io::Error::from(ErrorKind::Other));
        }
        self.log.push(b'|')?;
        Ok(())
    }
}

#[test]
fn writer_behind_a_sink(rt: HostRuntime) {
    let mut log = Vec::new(rt.alloc());
    let mut sink = StdSink::new(Picky { log: &mut log });
    writes(
        &rt,
        &mut sink,
        "abc>2\n>0\nx>failed\nf>failed\nn>failed\nc>1",
    );
    drop(sink);
    assert!(rt; log.as_slice() == b"ab|fc|".as_slice());
}
