//! Places in a text, and how little of it is shown.
ghost use Rattle.std.specs.Prelude.{◌≡◌, min};

use std::alloc::{AllocError, Global};

/// How many characters of a word or a value are shown.
pub const WORD_CHARS: usize = 60;

/// How many characters of a list of names are shown.
pub const LIST_CHARS: usize = 200;

/// How many characters of a text are shown round a mark.
const WINDOW_CHARS: usize = 60;

/// The bytes of a text from `start` up to `end`.
#[derive(Clone, Copy)]
pub struct Mark {
    pub start: usize,
    pub end: usize,
}

impl Mark {
    /// These bytes, as far as a text of so many has them.
    pub fn within(len: usize, start: usize, end: usize) -> Mark
        ensures { result ≡ record { start = min start (min end len); end = min end len } }
    {
        let end = end.min(len);
        Mark {
            start: start.min(end),
            end,
        }
    }
}

/// A line and a column, in characters, from 1.
#[derive(Clone, Copy)]
pub struct Place {
    pub line: u64,
    pub column: u64,
}

// Whether the byte is not the first of its character.
fn goes_on(byte: u8) -> bool {
    byte & 0xc0 == 0x80
}

impl Place {
    /// The place behind so many bytes of a text. A line ends at LF, CR LF or CR.
    pub fn behind(bytes: &[u8], count: usize) -> Place {
        let mut place = Place { line: 1, column: 1 };
        let mut is_return = false;
        for byte in bytes.iter().take(count) {
            let is_end = *byte == b'\n' || *byte == b'\r';
            if is_end && !(is_return && *byte == b'\n') {
                place.line = place.line.saturating_add(1);
            }
            if is_end {
                place.column = 1;
            } else if !goes_on(*byte) {
                place.column = place.column.saturating_add(1);
            }
            is_return = *byte == b'\r';
        }
        place
    }
}

/// A text as it is shown: so many characters of it, with `?` for its control characters and for bytes that are no text.
pub fn shown(alloc: Global, bytes: &[u8], most: usize) -> Result<String, AllocError> {
    // (No character has more than four bytes.)
    let len = most.saturating_mul(4).saturating_add(4);
    let text = String::from_utf8_lossy(alloc, bytes.get(..len).unwrap_or(bytes))?;
    let mut plain = String::new(alloc);
    let mut left = most;
    for c in text.as_str().chars() {
        if left == 0 {
            plain.push_str("..")?;
            break;
        }
        left = left.saturating_sub(1);
        plain.push(if c.is_control() || c == '\u{fffd}' {
            '?'
        } else {
            c
        })?;
    }
    Ok(plain)
}

/// The part of a text round a mark on one line, and the line below it, with `^` under what is marked.
#[derive(Drop)]
pub struct Window {
    pub line: String,
    pub below: String,
}

// How many characters the bytes begin.
fn count_chars(bytes: &[u8]) -> usize {
    let mut count = 0usize;
    for byte in bytes {
        if !goes_on(*byte) {
            count = count.saturating_add(1);
        }
    }
    count
}

fn push_times(text: &mut String, c: char, times: usize) -> Result<(), AllocError> {
    for _ in 0..times {
        text.push(c)?;
    }
    Ok(())
}

// A character as it is shown on a line of its own text: white space is a blank.
fn shown_char(c: char) -> char {
    if c == '\n' || c == '\t' || c == '\r' {
        ' '
    } else if c.is_control() {
        '?'
    } else {
        c
    }
}

impl Window {
    /// The part of a text round a mark.
    pub fn of(alloc: Global, text: &str, mark: Mark) -> Result<Window, AllocError> {
        let bytes = text.as_bytes();
        let front = bytes.get(..mark.start).unwrap_or(bytes);
        let marked = bytes.get(mark.start..mark.end).unwrap_or(&[]);
        let before = count_chars(front);
        let total = count_chars(bytes);
        let from = before
            .saturating_sub(WINDOW_CHARS / 2)
            .min(total.saturating_sub(WINDOW_CHARS));
        let mut line = String::new(alloc);
        let mut below = String::new(alloc);
        if from > 0 {
            line.push_str("..")?;
            below.push_str("  ")?;
        }
        for c in text.chars().skip(from).take(WINDOW_CHARS) {
            line.push(shown_char(c))?;
        }
        if total.saturating_sub(from) > WINDOW_CHARS {
            line.push_str("..")?;
        }
        let indent = before.saturating_sub(from);
        let room = WINDOW_CHARS.saturating_sub(indent);
        push_times(&mut below, ' ', indent)?;
        push_times(&mut below, '^', count_chars(marked).min(room).max(1))?;
        Ok(Window { line, below })
    }
}
