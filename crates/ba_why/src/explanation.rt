//! The replies of a run in words.

use crate::given::Given;
use crate::page::Page;
use crate::telling::tell;
use crate::words::{Names, Wanted};
use ba_lanes::Journal;
use ba_outside::Held;
use std::alloc::Global;
use std::io;
use std::io::Write;

/// What is told of a run, and how.
#[derive(Clone, Copy)]
pub struct Telling {
    pub wanted: Wanted,
    /// How many columns a line has at most: 40, or more.
    pub columns: usize,
}

/// Writes why each question that is wanted was answered or not, with an empty line between two, by
/// what the run kept of its files and by its journal.
///
/// # Errors
/// A write that fails ends the telling; `OutOfMemory` tells that memory was wanting.
pub fn tell_all<W: Write>(
    alloc: Global,
    kept: &[Held],
    names: &Names,
    journal: &Journal,
    telling: Telling,
    out: &mut W,
) -> io::Result<()> {
    let Some(given) = Given::of_kept(alloc, kept, names)? else {
        return Ok(());
    };
    match telling.wanted {
        Wanted::All => tell_each(alloc, &given, journal, telling.columns, out),
        Wanted::Line(line) => tell_line(alloc, &given, journal, telling.columns, line, out),
    }
}

// Explains each reply, with an empty line between two.
fn tell_each<W: Write>(
    alloc: Global,
    given: &Given,
    journal: &Journal,
    columns: usize,
    out: &mut W,
) -> io::Result<()> {
    let mut is_first = true;
    for place in 0..journal.entries.len() {
        let mut page = Page::new(alloc, columns);
        let is_told = tell(&mut page, given, journal, place)?;
        if is_told && !is_first {
            out.write_all(b"\n")?;
        }
        if is_told {
            is_first = false;
            out.write_all(page.text().as_bytes())?;
        }
    }
    Ok(())
}

// Explains the reply at a line.
fn tell_line<W: Write>(
    alloc: Global,
    given: &Given,
    journal: &Journal,
    columns: usize,
    line: u64,
    out: &mut W,
) -> io::Result<()> {
    let mut page = Page::new(alloc, columns);
    let place = line.wrapping_sub(1) as usize;
    let is_told = tell(&mut page, given, journal, place)?;
    if !is_told {
        let text = format!(in alloc;
            "No question or read of a cache key stands at line {line} of the script."
        )?;
        page.say(0, text.as_str())?;
    }
    out.write_all(page.text().as_bytes())
}
