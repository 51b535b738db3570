//! What is counted over an output's lines.
ghost use Rattle.std.specs.Prelude.{◌≡◌, ◌∷◌, ◌++◌, [], ◌↔◌, IfSome, IsTrue, List, Ok, if◌then◌else◌};
ghost use Rattle.ba_audit.specs.Lines.{Line, entry as entry_at, is_begin, line_at, row_count, summary_of};

use crate::printed::{is_answer, is_block, is_memory, rows_in, unread_in};
use ba_printed::PrintedLine;
use ba_script::ScriptEntry;
use ba_wire::Summary;

/// Nothing is counted.
pub(crate) const NOTHING: Summary = Summary {
    answered: 0,
    blocked: 0,
    lines: 0,
    memory: 0,
    requests: 0,
    rows: 0,
    unread: 0,
};

/// One where it holds, else none.
pub(crate) fn count_if(holds: bool) -> u64
    ensures { result ≡ if holds then 1 else 0 }
{
    if holds { 1 } else { 0 }
}

#[tactic(auto, unfolding(crate::specs::Lines::is_begin))]
fn is_begin(entry: &ScriptEntry) -> bool
    ensures { result ≡ is_begin entry.now }
{
    match entry {
        ScriptEntry::Begin { .. } => true,
        ScriptEntry::Ask { .. } => false,
        ScriptEntry::Read { .. } => false,
        ScriptEntry::End { .. } => false,
        ScriptEntry::Publish { .. } => false,
    }
}

fn row_count(line: &PrintedLine) -> u64
    ensures { result ≡ row_count line.now }
{
    match rows_in(line) {
        Some(rows) => rows.len() as u64,
        None => 0,
    }
}

/// What is counted of one line of the script.
pub(crate) fn count_one(entry: &ScriptEntry, line: &PrintedLine) -> Summary
    ensures { result ≡ summary_of (line_at (entry_at entry.now) (Ok line.now) ∷ []) }
{
    Summary {
        answered: count_if(is_answer(line)),
        blocked: count_if(is_block(line)),
        lines: 1,
        memory: count_if(is_memory(line)),
        requests: count_if(is_begin(entry)),
        rows: row_count(line),
        unread: count_if(unread_in(line).is_some()),
    }
}

/// What is counted of lines and of those behind them, if each number is one of 64 bits.
pub(crate) fn both(front: &Summary, behind: &Summary) -> Option<Summary>
    ensures { (earlier later : List Line) → front.now ≡ summary_of earlier
        → behind.now ≡ summary_of later
        → IfSome result (λ it. it ≡ summary_of (earlier ++ later)) }
{
    Some(Summary {
        answered: front.answered.checked_add(behind.answered)?,
        blocked: front.blocked.checked_add(behind.blocked)?,
        lines: front.lines.checked_add(behind.lines)?,
        memory: front.memory.checked_add(behind.memory)?,
        requests: front.requests.checked_add(behind.requests)?,
        rows: front.rows.checked_add(behind.rows)?,
        unread: front.unread.checked_add(behind.unread)?,
    })
}

/// Whether all numbers are equal.
pub(crate) fn is_summary(summary: &Summary, other: &Summary) -> bool
    ensures { IsTrue result ↔ (summary.now ≡ other.now) }
{
    summary.answered == other.answered
        && summary.blocked == other.blocked
        && summary.lines == other.lines
        && summary.memory == other.memory
        && summary.requests == other.requests
        && summary.rows == other.rows
        && summary.unread == other.unread
}
