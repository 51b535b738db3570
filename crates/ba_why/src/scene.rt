//! What stood when a question was asked: the request's context, and what it was told.

use crate::text::row_text;
use ba_comply::{Trace, TraceEntry};
use ba_lanes::{Entry, Journal};
use ba_model::{Context, Duplicate, List, Row};
use ba_script::{Script, ScriptEntry};
use ba_session::Reply;
use std::alloc::{AllocError, Global};

/// A request's context, and the answers that it was given before a question, each with its line in
/// the script.
#[derive(Drop)]
pub struct Scene {
    pub context: Context,
    pub trace: Trace,
    lines: Vec<usize>,
}

// The place of the line that begins the request, at or before that place.
fn begin_of(script: &Script, request: u32, at: usize) -> usize {
    for place in (0..at).rev() {
        if let Some(ScriptEntry::Begin { request: begun, .. }) = script.entries.find(place)
            && *begun == request
        {
            return place;
        }
    }
    at
}

// The context of the request that begins at that place.
fn context_at(alloc: Global, script: &Script, place: usize) -> Result<Context, AllocError> {
    match script.entries.find(place) {
        Some(ScriptEntry::Begin { context, .. }) => context.copy(alloc),
        _ => Ok(Context {
            values: List::new(alloc),
        }),
    }
}

impl Scene {
    /// What stood at the question of that request at that place of the script.
    pub fn at(
        alloc: Global,
        script: &Script,
        journal: &Journal,
        request: u32,
        at: usize,
    ) -> Result<Scene, AllocError> {
        let begin = begin_of(script, request, at);
        let context = context_at(alloc, script, begin)?;
        let mut scene = Scene {
            context,
            trace: Trace::new(alloc),
            lines: Vec::new(alloc),
        };
        for place in begin..at {
            if let Some(entry) = journal.entries.find(place) {
                scene.add(alloc, request, place, entry)?;
            }
        }
        Ok(scene)
    }

    // Adds the answer at that place, if it was given to the request.
    fn add(
        &mut self,
        alloc: Global,
        request: u32,
        place: usize,
        entry: &Entry,
    ) -> Result<(), AllocError> {
        let Entry::Ask {
            request: asker,
            reply: Reply::Answer { query, rows, .. },
            ..
        } = entry
        else {
            return Ok(());
        };
        if *asker != request {
            return Ok(());
        }
        let query = query.copy(alloc)?;
        let rows = rows.copy(alloc)?;
        self.trace.push(TraceEntry { query, rows })?;
        self.lines.push(place)?;
        Ok(())
    }

    // The row of a number of an answer of a number, if it is there.
    fn row(&self, answer: u64, row: u64) -> Option<&Row> {
        if answer >= self.trace.len() {
            return None;
        }
        self.trace.entry(answer).rows.find(row as usize)
    }

    /// What was told by the row of a number of an answer of a number.
    pub fn told(&self, alloc: Global, answer: u64, row: u64) -> Result<String, AllocError> {
        let line = match self.lines.get(answer as usize) {
            Some(place) => place.saturating_add(1),
            None => 0,
        };
        match self.row(answer, row) {
            Some(row) => {
                let row = row_text(alloc, row.as_slice())?;
                format!(in alloc; "line {line} told {row}")
            }
            None => String::from_str(alloc, "an earlier line told a row"),
        }
    }

    /// What was told by the row of a number, of all rows of the answers, in their order.
    pub fn told_in_all(&self, alloc: Global, number: u64) -> Result<String, AllocError> {
        let mut left = number;
        for answer in 0..self.trace.len() {
            let count = self.trace.entry(answer).rows.len() as u64;
            if left < count {
                return self.told(alloc, answer, left);
            }
            left = left.saturating_sub(count);
        }
        String::from_str(alloc, "an earlier line told a row")
    }
}
