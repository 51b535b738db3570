//! Cases that are lines of one text.
//!
//! A line is a text, ` => ` and what the text reads as. In it `~` stands for a line feed, and
//! `[[3 x#,]]` for `x0,x1,x2,`: the piece so often, with its number for `#`.

use ba_model::Value;
use std::alloc::{AllocError, Global};
use std::fmt::Write;
use std::process::Abort;
use std::test::Fail;

pub(super) type Told = Result<(), AllocError>;

/// What reads the texts of cases.
pub(super) trait Reading {
    /// Writes what the text reads as, or its fault.
    fn tell(&self, alloc: Global, text: &str, told: &mut String) -> Told;
}

/// Adds the piece with its number for `#`.
fn push_piece(all: &mut String, piece: &str, n: u32) -> Told {
    let Some((before, after)) = piece.split_once('#') else {
        return all.push_str(piece);
    };
    all.push_str(before)?;
    write!(all, "{n}")?;
    all.push_str(after)
}

fn push_pieces(all: &mut String, piece: &str, count: u32) -> Told {
    for n in 0..count {
        push_piece(all, piece, n)?;
    }
    Ok(())
}

/// Adds what a `[[` begins, and what stands behind its `]]`.
fn push_repeated(all: &mut String, text: &str) -> Told {
    match text.split_once("]]") {
        Some((repeated, rest)) => {
            let (count, piece) = repeated.split_once(' ').unwrap_or(("0", ""));
            push_pieces(all, piece, count.parse::<u32>().unwrap_or(0))?;
            all.push_str(rest)
        }
        None => all.push_str(text),
    }
}

fn with_pieces(alloc: Global, text: &str) -> Result<String, AllocError> {
    let mut all = String::new(alloc);
    for part in text.split("[[") {
        push_repeated(&mut all, part)?;
    }
    Ok(all)
}

fn with_line_feeds(alloc: Global, text: &str) -> Result<String, AllocError> {
    let mut all = String::new(alloc);
    for (n, line) in text.split('~').enumerate() {
        all.push_str(if n > 0 { "\n" } else { "" })?;
        all.push_str(line)?;
    }
    Ok(all)
}

fn unfolded(alloc: Global, line: &str) -> Result<String, AllocError> {
    let line = with_pieces(alloc, line)?;
    with_line_feeds(alloc, line.as_str())
}

/// Reads the text, and whether it reads as `want`.
fn is_so<R: Reading>(
    alloc: Global,
    reading: &R,
    (text, want): (&str, &str),
    told: &mut String,
) -> Result<bool, AllocError> {
    told.clear();
    reading.tell(alloc, text, told)?;
    Ok(told.as_str() == want)
}

/// The first line that isn't so, with what its text reads as; nothing where all are.
fn first_wrong<R: Reading>(
    alloc: Global,
    reading: &R,
    lines: &str,
    usual: &str,
) -> Result<String, AllocError> {
    let mut told = String::new(alloc);
    for line in lines.split('\n') {
        let unfolded = unfolded(alloc, line)?;
        let text = unfolded.as_str();
        let case = text.split_once(" => ").unwrap_or((text, usual));
        if !is_so(alloc, reading, case, &mut told)? {
            return format!(in alloc; "{line} reads as {told}");
        }
    }
    Ok(String::new(alloc))
}

/// Each line is so. One that is a text alone reads as `usual`.
pub(super) fn all_are_so<R: Reading>(
    rt: &(impl Alloc<A = Global> + Abort),
    reading: &R,
    lines: &str,
    usual: &str,
) -> Result<(), Fail> {
    let wrong = first_wrong(rt.alloc(), reading, lines, usual)?;
    assert!(rt; wrong.as_str().is_empty(), "{wrong}");
    Ok(())
}

fn byte(b: u8) -> u8 {
    match b {
        b'^' => b'\r',
        b'@' => 0xff,
        _ => b,
    }
}

/// The bytes of a text, in which `^` stands for a carriage return and `@` for a byte that no UTF-8 has.
pub(super) fn bytes_of(alloc: Global, text: &str) -> Result<Vec<u8>, AllocError> {
    text.bytes().map(byte).collect(alloc)
}

pub(super) fn write_value(told: &mut String, value: &Value) -> Told {
    match value {
        Value::Null => told.push_str(" NULL"),
        Value::Int(n) => write!(told, " {n}"),
        Value::Text(text) => {
            told.push_str(" '")?;
            told.push_str(text.as_str())?;
            told.push_str("'")
        }
    }
}
