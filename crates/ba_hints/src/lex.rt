//! Where a text has no tokens.

use crate::hint::{Hint, Spot};
use ba_lex::LexFault;
use ba_place::{Mark, WORD_CHARS, shown};
use std::alloc::{AllocError, Global};

/// Classes of bytes.
#[derive(Clone, Copy)]
enum Class {
    Word,
    Digit,
    /// What may stand in a quoted name.
    Name,
    /// A digit or a minus sign.
    Number,
    /// All but the end of a line.
    Line,
}

impl Class {
    fn has(self, byte: u8) -> bool {
        match self {
            Class::Word => byte.is_ascii_alphanumeric() || byte == b'_',
            Class::Digit => byte.is_ascii_digit(),
            Class::Name => byte >= b' ' && byte <= b'~' && byte != b'"' && byte != b'`',
            Class::Number => byte.is_ascii_digit() || byte == b'-',
            Class::Line => byte != b'\n',
        }
    }

    // How many bytes of the class stand at the front.
    fn run(self, bytes: &[u8]) -> usize {
        let mut count = 0usize;
        for byte in bytes {
            if !self.has(*byte) {
                break;
            }
            count = count.saturating_add(1);
        }
        count
    }
}

// How many bytes a text takes behind its first quote, with its last one, if it ends.
fn text_len(rest: &[u8]) -> Option<usize> {
    let mut is_quote = false;
    for (at, byte) in rest.iter().enumerate() {
        if is_quote && *byte != b'\'' {
            return Some(at);
        }
        is_quote = !is_quote && *byte == b'\'';
    }
    if is_quote { Some(rest.len()) } else { None }
}

// The length of a number, if it is one of 64 bits.
fn number_len(bytes: &[u8], count: usize) -> Option<usize> {
    let spelling = bytes.get(..count)?;
    match std::str::from_utf8(spelling).unwrap_or("").parse::<i64>() {
        Ok(_) => Some(count),
        Err(_) => None,
    }
}

// How many bytes the token or the gap at the front takes, if one stands there.
fn piece_len(bytes: &[u8]) -> Option<usize> {
    let [first, rest @ ..] = bytes else {
        return None;
    };
    let digits = Class::Digit.run(rest).saturating_add(1);
    match first {
        b' ' | b'\t' | b'\r' | b'\n' => Some(1),
        b'-' if rest.first() == Some(&b'-') => Some(Class::Line.run(rest).saturating_add(1)),
        b'-' if digits > 1 => number_len(bytes, digits),
        b'0'..=b'9' => number_len(bytes, digits),
        b'a'..=b'z' | b'A'..=b'Z' | b'_' => Some(Class::Word.run(rest).saturating_add(1)),
        b'?' => match rest.first() {
            Some(byte) if Class::Word.has(*byte) && !byte.is_ascii_digit() => {
                Some(Class::Word.run(rest).saturating_add(1))
            }
            _ => None,
        },
        b'"' | b'`' => {
            let count = Class::Name.run(rest);
            let is_name = count > 0 && rest.get(count) == Some(first);
            is_name.then_some(count.saturating_add(2))
        }
        b'\'' => Some(text_len(rest)?.saturating_add(1)),
        b'!' => (rest.first() == Some(&b'=')).then_some(2),
        b'(' | b')' | b',' | b'.' | b';' | b'*' | b'=' | b'<' | b'>' | b'+' | b'-' | b'/' | b'%' =>
            Some(1),
        _ => None,
    }
}

// How many bytes stand before the first that begins no token.
fn sound_len(bytes: &[u8]) -> usize {
    let mut rest = bytes;
    for _ in 0..bytes.len() {
        let Some(count) = piece_len(rest) else {
            break;
        };
        rest = rest.get(count..).unwrap_or(&[]);
    }
    bytes.len().saturating_sub(rest.len())
}

// Why the bytes begin no token.
fn bad_text(alloc: Global, rest: &[u8]) -> Result<String, AllocError> {
    match rest {
        [0xef, 0xbb, 0xbf, ..] => String::from_str(
            alloc,
            "a byte order mark stands there: save the file without one",
        ),
        [b'?', ..] => { String::from_str(alloc, "a ? has a parameter's name directly behind it") }
        [b'"' | b'`', ..] => String::from_str(
            alloc,
            "a name between quotes has at least one character, all of ASCII and none of them a quote",
        ),
        _ => {
            let Ok(text) = std::str::from_utf8(rest) else {
                return String::from_str(alloc, "the bytes there are no UTF-8");
            };
            let Some(c) = text.chars().next() else {
                return String::from_str(alloc, "something there begins no token");
            };
            let word = shown(alloc, rest.get(..c.len_utf8()).unwrap_or(rest), 1)?;
            format!(in alloc; "{word} begins no word, number, text or sign")
        }
    }
}

/// A hint on why a text has no tokens.
pub fn lex_hint(
    alloc: Global,
    bytes: &[u8],
    fault: LexFault,
    limit: usize,
) -> Result<Hint, AllocError> {
    let start = match std::str::from_utf8(bytes) {
        Ok(_) => sound_len(bytes),
        Err(e) => e.valid_up_to(),
    };
    let rest = bytes.get(start..).unwrap_or(&[]);
    let text = match fault {
        LexFault::TooLong => {
            let text = format!(in alloc; "it has more than {limit} bytes")?;
            return Hint::plain(alloc, text.as_str());
        }
        LexFault::BadByte => bad_text(alloc, rest)?,
        LexFault::OpenQuote => String::from_str(alloc, "the quote there has no end")?,
        LexFault::NumberTooLarge => {
            let front = rest.get(..Class::Number.run(rest)).unwrap_or(rest);
            let number = shown(alloc, front, WORD_CHARS)?;
            format!(in alloc; "{number} is past 64 bits")?
        }
    };
    let mark = Mark::within(bytes.len(), start, start.saturating_add(1));
    Ok(Hint {
        spot: Spot::Marked(mark),
        text,
    })
}
