//! Findings in words, each with its place.

use crate::finding::{Finding, Weight};
use ba_hints::Spot;
use ba_place::{LIST_CHARS, Place, shown};
use serde_json::{Map, Value, put};
use std::alloc::{AllocError, Global};
use std::io;
use std::io::Write;

/// How findings are told.
#[derive(Clone, Copy, PartialEq, Eq)]
pub enum Format {
    /// Each as a line that editors read: file, line, column, weight and words.
    Text,
    /// Each as a compact JSON object.
    Json,
}

/// A file that findings are of: its name and its bytes.
#[derive(Clone, Copy)]
pub struct File<'a> {
    pub name: &'a str,
    pub bytes: &'a [u8],
}

// Where a finding stands, as far as that is known: its line and its column, from 1. What isn't
// known comes before what is.
#[derive(Clone, Copy, PartialEq, Eq, PartialOrd, Ord)]
struct Position {
    line: Option<u64>,
    column: Option<u64>,
}

impl Position {
    fn of(bytes: &[u8], spot: Spot) -> Position {
        match spot {
            Spot::Unknown => Position {
                line: None,
                column: None,
            },
            Spot::Line(line) => Position {
                line: Some(line),
                column: None,
            },
            Spot::Marked(mark) => {
                let place = Place::behind(bytes, mark.start);
                Position {
                    line: Some(place.line),
                    column: Some(place.column),
                }
            }
        }
    }
}

// A finding in words.
#[derive(Drop)]
struct Entry {
    file: String,
    position: Position,
    weight: Weight,
    text: String,
}

fn put_text(
    members: &mut Map<String, Value>,
    alloc: Global,
    key: &str,
    text: &str,
) -> Result<(), AllocError> {
    let value = Value::try_from_str(alloc, text)?;
    put(members, alloc, key, value)
}

fn put_number(
    members: &mut Map<String, Value>,
    alloc: Global,
    key: &str,
    number: Option<u64>,
) -> Result<(), AllocError> {
    match number {
        Some(number) => put(members, alloc, key, Value::from(number)),
        None => Ok(()),
    }
}

impl Entry {
    // Its line as editors read it.
    fn line(&self, alloc: Global) -> Result<String, AllocError> {
        let file = shown(alloc, self.file.as_bytes(), LIST_CHARS)?;
        let weight = self.weight.word();
        match (self.position.line, self.position.column) {
            (Some(line), Some(column)) => {
                format!(in alloc; "{file}:{line}:{column}: {weight}: {}\n", self.text)
            }
            (Some(line), None) => format!(in alloc; "{file}:{line}: {weight}: {}\n", self.text),
            _ => format!(in alloc; "{file}: {weight}: {}\n", self.text),
        }
    }

    fn put_members(
        &self,
        alloc: Global,
        members: &mut Map<String, Value>,
    ) -> Result<(), AllocError> {
        put_number(members, alloc, "column", self.position.column)?;
        put_text(members, alloc, "file", self.file.as_str())?;
        put_text(members, alloc, "kind", self.weight.word())?;
        put_number(members, alloc, "line", self.position.line)?;
        put_text(members, alloc, "text", self.text.as_str())
    }

    // Its line for tools.
    fn json(&self, alloc: Global) -> Result<String, AllocError> {
        let mut members = Map::new(alloc);
        self.put_members(alloc, &mut members)?;
        let mut text = Value::Object(members).to_string(alloc)?;
        text.push('\n')?;
        Ok(text)
    }

    // Whether a finding of that weight at that place of a file is told before this one.
    fn comes_behind(&self, file: &str, position: Position, weight: Weight) -> bool {
        if weight.is_note() {
            return false;
        }
        self.weight.is_note() || (self.file.as_str() == file && self.position > position)
    }

    fn is_same(&self, file: &str, position: Position, text: &str) -> bool {
        self.file.as_str() == file && self.position == position && self.text.as_str() == text
    }
}

/// Findings in the order in which they are told: file by file, of each by their places, and all
/// notes behind them. None is told twice.
#[derive(Drop)]
pub struct Report {
    pub alloc: Global,
    entries: Vec<Entry>,
}

impl Report {
    /// No findings.
    pub fn new(alloc: Global) -> Report {
        Report {
            alloc,
            entries: Vec::new(alloc),
        }
    }

    fn has(&self, file: &str, position: Position, text: &str) -> bool {
        self.entries
            .iter()
            .any(|entry| entry.is_same(file, position, text))
    }

    // How many findings are told before one of that weight at that place of a file.
    fn count_before(&self, file: &str, position: Position, weight: Weight) -> usize {
        let place = self
            .entries
            .iter()
            .position(|entry| entry.comes_behind(file, position, weight));
        place.unwrap_or(self.entries.len())
    }

    /// Adds a finding of a file, if it isn't there.
    pub fn add(
        &mut self,
        file: File<'_>,
        spot: Spot,
        finding: &Finding<'_>,
    ) -> Result<(), AllocError> {
        let position = Position::of(file.bytes, spot);
        let text = finding.text(self.alloc)?;
        if self.has(file.name, position, text.as_str()) {
            return Ok(());
        }
        let name = String::from_str(self.alloc, file.name)?;
        let weight = finding.weight();
        let place = self.count_before(file.name, position, weight);
        let entry = Entry {
            file: name,
            position,
            weight,
            text,
        };
        self.entries.insert(place.min(self.entries.len()), entry)?;
        Ok(())
    }

    /// Whether a file has a fault.
    pub fn has_error(&self) -> bool {
        self.entries
            .iter()
            .any(|entry| entry.weight == Weight::Error)
    }

    /// The status: 1 where there is a fault or a warning.
    pub fn status(&self) -> u8 {
        let is_clean = self.entries.iter().all(|entry| entry.weight.is_note());
        if is_clean { 0 } else { 1 }
    }

    /// Writes each finding on a line of its own.
    ///
    /// # Errors
    /// A write that fails ends the telling; `OutOfMemory` tells that memory was wanting.
    pub fn write<W: Write>(&self, format: Format, out: &mut W) -> io::Result<()> {
        for entry in &self.entries {
            let line = match format {
                Format::Text => entry.line(self.alloc),
                Format::Json => entry.json(self.alloc),
            };
            let line = line?;
            out.write_all(line.as_bytes())?;
        }
        Ok(())
    }
}
