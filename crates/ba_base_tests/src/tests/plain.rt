//! A shelf as plain lists, which tells each answer as a text.

use std::alloc::{AllocError, Global};
use std::fmt::Write;

/// A template, by its number in the tests, with its id.
#[derive(Drop)]
struct Kept {
    id: u32,
    number: i64,
}

/// The templates of a shape, which is told by its width.
#[derive(Drop)]
struct Row {
    width: u32,
    templates: Vec<Kept>,
}

/// A call, and its answer as a text. A look has no number.
#[derive(Drop)]
pub(super) struct Told {
    pub(super) shard: u32,
    pub(super) width: u32,
    pub(super) number: Option<i64>,
    pub(super) answer: String,
}

/// The shape that was used last stands first, and the oldest template of a shape.
#[derive(Drop)]
pub(super) struct Plain {
    alloc: Global,
    rows: Vec<Row>,
    added: u32,
}

impl Plain {
    pub(super) fn new(alloc: Global) -> Plain {
        Plain {
            alloc,
            rows: Vec::new(alloc),
            added: 0,
        }
    }

    /// Takes the row of a shape out.
    fn take(&mut self, width: u32) -> Option<Row> {
        let place = self.rows.iter().position(|row| row.width == width)?;
        Some(self.rows.remove(place))
    }

    fn look(&mut self, width: u32) -> Result<String, AllocError> {
        let mut text = String::new(self.alloc);
        text.push_str("found")?;
        if let Some(row) = self.take(width) {
            for kept in &row.templates {
                write!(text, " {}", kept.id)?;
            }
            self.rows.insert(0, row)?;
        }
        Ok(text)
    }

    fn admit(&mut self, width: u32, number: i64) -> Result<String, AllocError> {
        let mut row = match self.take(width) {
            Some(row) => row,
            None => Row {
                width,
                templates: Vec::new(self.alloc),
            },
        };
        let text = self.keep(&mut row.templates, number)?;
        self.rows.insert(0, row)?;
        self.rows.truncate(128);
        Ok(text)
    }

    /// Adds a template to those of its shape, unless it is there.
    fn keep(&mut self, templates: &mut Vec<Kept>, number: i64) -> Result<String, AllocError> {
        let mut text = String::new(self.alloc);
        if let Some(kept) = templates.iter().find(|kept| kept.number == number) {
            write!(text, "known {}", kept.id)?;
            return Ok(text);
        }
        let id = self.added;
        templates.push(Kept { id, number })?;
        if templates.len() > 8 {
            templates.remove(0);
        }
        self.added = id.wrapping_add(1);
        write!(text, "added {id}")?;
        Ok(text)
    }

    /// What the call answers here.
    pub(super) fn reply(&mut self, call: &Told) -> Result<String, AllocError> {
        match call.number {
            Some(number) => self.admit(call.width, number),
            None => self.look(call.width),
        }
    }
}
