//! What is told of a fault.

use ba_place::{LIST_CHARS, Mark, Place, shown};
use std::alloc::{AllocError, Global};

/// Where a fault stands.
#[derive(Clone, Copy)]
pub enum Spot {
    /// It isn't known.
    Unknown,
    /// On the line of this number, from 1.
    Line(u64),
    /// Over these bytes.
    Marked(Mark),
}

/// Where a fault stands, and what it is and what would mend it: words without a capital and a full
/// stop.
#[derive(Drop)]
pub struct Hint {
    pub spot: Spot,
    pub text: String,
}

impl Hint {
    /// A hint with no place.
    pub fn plain(alloc: Global, text: &str) -> Result<Hint, AllocError> {
        let text = String::from_str(alloc, text)?;
        Ok(Hint {
            spot: Spot::Unknown,
            text,
        })
    }

    /// The hint on one line, behind the file's name and its place in the file's bytes.
    pub fn line(&self, alloc: Global, file: &str, bytes: &[u8]) -> Result<String, AllocError> {
        let file = shown(alloc, file.as_bytes(), LIST_CHARS)?;
        match self.spot {
            Spot::Unknown => format!(in alloc; "{file}: {}", self.text),
            Spot::Line(line) => format!(in alloc; "{file}:{line}: {}", self.text),
            Spot::Marked(mark) => {
                let place = Place::behind(bytes, mark.start);
                format!(in alloc; "{file}:{}:{}: {}", place.line, place.column, self.text)
            }
        }
    }
}

/// Names, with commas between them.
pub fn listed(alloc: Global, names: &[&str]) -> Result<String, AllocError> {
    let mut text = String::new(alloc);
    for name in names {
        if !text.is_empty() {
            text.push_str(", ")?;
        }
        text.push_str(name)?;
    }
    shown(alloc, text.as_bytes(), LIST_CHARS)
}

/// Words of which one is wanted.
pub fn either(alloc: Global, words: &[&str]) -> Result<String, AllocError> {
    match words {
        [front @ .., before, last] => {
            let mut text = String::new(alloc);
            for word in front {
                text.push_str(word)?;
                text.push_str(", ")?;
            }
            text.push_str(before)?;
            text.push_str(" or ")?;
            text.push_str(last)?;
            Ok(text)
        }
        [only] => String::from_str(alloc, only),
        [] => String::from_str(alloc, "nothing"),
    }
}
