//! Statements that have a fault.

/// The statements of a schema or a policy that were left out, since they have a fault: its bytes,
/// and the same with blanks in place of these statements.
#[derive(Clone, Copy)]
pub struct Lost<'a> {
    pub bytes: &'a [u8],
    pub sound: &'a [u8],
}

// Whether a byte is of a word, if it is there.
fn is_of_word(byte: Option<u8>) -> bool {
    match byte {
        Some(byte) => byte.is_ascii_alphanumeric() || byte == b'_',
        None => false,
    }
}

impl Lost<'_> {
    /// Whether there is none.
    pub fn is_empty(self) -> bool {
        self.bytes == self.sound
    }

    /// Whether one of them has a word or a quoted name.
    pub fn names(self, name: &str) -> bool {
        (0..self.bytes.len()).any(|at| self.has_name(at, name))
    }

    /// Whether one of them has a word or a quoted name that isn't a parameter behind its `?`, so
    /// that it may declare that.
    pub fn declares(self, name: &str) -> bool {
        (0..self.bytes.len()).any(|at| self.has_name(at, name) && self.before(at) != Some(b'?'))
    }

    // The byte before a place.
    fn before(self, at: usize) -> Option<u8> {
        self.bytes.get(..at)?.last().copied()
    }

    // Whether a word stands at a place of a lost statement.
    fn has_name(self, at: usize, name: &str) -> bool {
        self.bytes.get(at) != self.sound.get(at) && self.has_word(at, name)
    }

    // Whether a word stands at a place.
    fn has_word(self, at: usize, word: &str) -> bool {
        let rest = self.bytes.get(at..).unwrap_or(&[]);
        match rest.strip_prefix(word.as_bytes()) {
            Some(behind) => !is_of_word(self.before(at)) && !is_of_word(behind.first().copied()),
            None => false,
        }
    }
}
