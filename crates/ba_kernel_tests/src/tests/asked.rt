//! Questions after what was told, written as short texts.
//!
//! A text is pieces with semicolons between them: `context` with a row, `told` with a query, `gives` and
//! rows with commas between them, `asks` with a query, and those of a policy.

use super::policies::query;
use super::words::{Handle, named, shared, values};
use ba_comply::{Trace, TraceEntry};
use ba_model::{Context, List, Query, Shared};

#[derive(Drop)]
pub struct Asked {
    pub ctx: Context,
    pub trace: Trace,
    pub question: Shared<Query>,
}

fn entry(rt: &impl Handle, text: &str) -> TraceEntry {
    let (asked, given) = text.split_once("gives").unwrap_or((text, ""));
    let mut rows = List::new(rt.alloc());
    for row in given.split(',') {
        if !row.trim().is_empty() {
            rows.push(values(rt, row)).expect(rt, "memory");
        }
    }
    TraceEntry {
        query: shared(rt, query(rt, asked)),
        rows: shared(rt, rows),
    }
}

fn add(rt: &impl Handle, asked: &mut Asked, piece: &str) {
    match named(piece) {
        ("context", text) => asked.ctx.values = values(rt, text),
        ("told", text) => asked.trace.push(entry(rt, text)).expect(rt, "memory"),
        ("asks", text) => asked.question = shared(rt, query(rt, text)),
        ("rule" | "view", _) => (),
        _ => panic!(rt; "no piece: {piece}"),
    }
}

pub fn asked_from(rt: &impl Handle, text: &str) -> Asked {
    let values = List::new(rt.alloc());
    let parts = List::new(rt.alloc());
    let mut asked = Asked {
        ctx: Context { values },
        trace: Trace::new(rt.alloc()),
        question: shared(rt, Query { parts }),
    };
    for piece in text.split(';') {
        add(rt, &mut asked, piece);
    }
    asked
}
