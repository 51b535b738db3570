//! Plain text for a terminal.

use std::alloc::{AllocError, Global};

/// How many columns a line has at most, where nothing else is said.
pub const USUAL_COLUMNS: usize = 80;

/// How many bytes of a value and of a word are shown at most.
pub const VALUE_BYTES: usize = 60;

/// How many bytes of a sentence and of a query are shown.
const TEXT_BYTES: usize = 600;

/// How many rows of a table, and how many steps, are shown.
pub const MOST_ROWS: usize = 12;

/// Lines of at most so many columns.
#[derive(Drop)]
pub struct Page {
    pub alloc: Global,
    /// How many.
    columns: usize,
    text: String,
    /// How many bytes the last line has at most.
    column: usize,
    /// Whether it has nothing but blanks.
    is_blank: bool,
}

// The front of a text of more bytes: its whole characters within so many.
fn front(text: &str, most: usize) -> Option<&str> {
    if text.len() <= most {
        return None;
    }
    for back in 0..4usize {
        let front = text.get(..most.saturating_sub(back));
        if front.is_some() {
            return front;
        }
    }
    Some("")
}

/// The text as it is shown: so many bytes of it, with blanks for its control characters.
pub fn shown(alloc: Global, text: &str, most: usize) -> Result<String, AllocError> {
    let cut = front(text, most);
    let mut plain = String::new(alloc);
    for c in cut.unwrap_or(text).chars() {
        plain.push(if c.is_control() { ' ' } else { c })?;
    }
    if cut.is_some() {
        plain.push_str("..")?;
    }
    Ok(plain)
}

impl Page {
    /// An empty page, of lines of at most so many columns.
    pub fn new(alloc: Global, columns: usize) -> Page {
        Page {
            alloc,
            columns,
            text: String::new(alloc),
            column: 0,
            is_blank: true,
        }
    }

    /// What is written on it.
    pub fn text(&self) -> &str {
        self.text.as_str()
    }

    /// Adds a text on lines of its own, which begin so many columns in, and two more where they go
    /// on.
    pub fn say(&mut self, indent: usize, text: &str) -> Result<(), AllocError> {
        let plain = shown(self.alloc, text, TEXT_BYTES)?;
        self.begin_line(indent)?;
        for word in plain.as_str().split(' ') {
            self.put_word(indent, word)?;
        }
        self.text.push('\n')
    }

    /// Adds a line as it is, so many columns in.
    pub fn put_line(&mut self, indent: usize, line: &str) -> Result<(), AllocError> {
        self.begin_line(indent)?;
        self.text.push_str(line)?;
        self.text.push('\n')
    }

    /// Says how many more there are than are shown, if there are any.
    pub fn say_left(&mut self, indent: usize, count: usize) -> Result<(), AllocError> {
        if count == 0 {
            return Ok(());
        }
        let text = format!(in self.alloc; ".. and {count} more")?;
        self.say(indent, text.as_str())
    }

    /// Whether a text stands on one line, so many columns in, and is short.
    pub fn is_line(&self, indent: usize, text: &str) -> bool {
        text.len() <= VALUE_BYTES && text.len() <= self.room(indent)
    }

    // How many bytes of a word are shown on lines that begin so many columns in and go on two
    // further: with `..` behind them they fit.
    fn word_bytes(&self, indent: usize) -> usize {
        self.room(indent.saturating_add(4)).min(VALUE_BYTES)
    }

    /// How many columns a line has behind so many.
    pub fn room(&self, indent: usize) -> usize {
        self.columns.saturating_sub(indent)
    }

    // Adds a word to the last line, or to a new one where it doesn't fit.
    fn put_word(&mut self, indent: usize, word: &str) -> Result<(), AllocError> {
        let most = self.word_bytes(indent);
        let width = if word.len() > most {
            most.saturating_add(2)
        } else {
            word.len()
        };
        if self.is_blank {
            return self.put(word, most, width);
        }
        if self.column.saturating_add(width) >= self.columns {
            self.text.push('\n')?;
            self.begin_line(indent.saturating_add(2))?;
            return self.put(word, most, width);
        }
        self.text.push(' ')?;
        self.put(word, most, width.saturating_add(1))
    }

    // Adds a word, or so many bytes of it, to the last line, which gets so many bytes longer.
    fn put(&mut self, word: &str, most: usize, width: usize) -> Result<(), AllocError> {
        self.is_blank = false;
        match front(word, most) {
            Some(front) => {
                self.text.push_str(front)?;
                self.text.push_str("..")?;
            }
            None => self.text.push_str(word)?,
        }
        self.column = self.column.saturating_add(width);
        Ok(())
    }

    // Begins a line.
    fn begin_line(&mut self, indent: usize) -> Result<(), AllocError> {
        for _ in 0..indent {
            self.text.push(' ')?;
        }
        self.column = indent;
        self.is_blank = true;
        Ok(())
    }
}
