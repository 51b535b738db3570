//! What a run counts over its script.
ghost use Rattle.std.specs.Prelude.{◌≡◌, ◌++◌, ◌∷◌, [], List, IfSome, count_by};
ghost use Rattle.std.specs.List.{list_any};
ghost use Rattle.ba_lanes.specs.Legal.{is_memory, lacks_memory};
ghost use Rattle.ba_lanes.specs.declared.journal.Entry.{Entry as EntryOf};
ghost use Rattle.ba_top.specs.Text.{summary_of};

use ba_lanes::{Entry, Journal, LineKind};
use ba_session::{KeyReply, Reply};
use ba_wire::Summary;

/// Nothing is counted.
const NOTHING: Summary = Summary {
    answered: 0,
    blocked: 0,
    lines: 0,
    memory: 0,
    requests: 0,
    rows: 0,
    unread: 0,
};

// What is counted of one entry.
#[tactic(auto, unfolding(crate::specs::Text::is_answer, crate::specs::Text::is_block, crate::specs::Text::is_unread, crate::specs::Text::is_allowed, crate::specs::Text::is_barred, crate::specs::Text::row_count, crate::specs::Text::is_begin, ba_lanes::specs::Legal::is_memory))]
fn count_one(entry: &Entry) -> Summary
    ensures { result ≡ summary_of (entry.now ∷ []) }
{
    let mut one = NOTHING;
    one.lines = 1;
    match entry {
        Entry::Begin { .. } => one.requests = 1,
        Entry::Ask { reply, .. } => match reply {
            Reply::Answer { rows, .. } => {
                one.answered = 1;
                one.rows = rows.len() as u64;
            }
            Reply::Blocked { .. } => one.blocked = 1,
            Reply::Unread(_) => one.unread = 1,
            Reply::NoMemory => {}
        },
        Entry::Read { reply, .. } => match reply {
            KeyReply::Allowed { .. } => one.answered = 1,
            KeyReply::Blocked { .. } => one.blocked = 1,
            KeyReply::NoMemory => {}
        },
        Entry::End { .. } | Entry::Publish { .. } => {}
        Entry::Memory { kind, .. } => {
            one.memory = 1;
            if let LineKind::Begin = kind {
                one.requests = 1;
            }
        }
    }
    one
}

// What is counted of entries and of those behind them, if each number is one of 64 bits.
fn both(front: &Summary, behind: &Summary) -> Option<Summary>
    ensures { (earlier later : List EntryOf) → front.now ≡ summary_of earlier
        → behind.now ≡ summary_of later
        → IfSome result (λ it. it ≡ summary_of (earlier ++ later)) }
{
    Some(Summary {
        answered: front.answered.checked_add(behind.answered)?,
        blocked: front.blocked.checked_add(behind.blocked)?,
        lines: front.lines.checked_add(behind.lines)?,
        memory: front.memory.checked_add(behind.memory)?,
        requests: front.requests.checked_add(behind.requests)?,
        rows: front.rows.checked_add(behind.rows)?,
        unread: front.unread.checked_add(behind.unread)?,
    })
}

/// What a run counts, if each number is one of 64 bits.
pub(crate) fn count_all(entries: &[Entry]) -> Option<Summary>
    ensures { IfSome result (λ summary. summary ≡ summary_of entries.now) }
{
    let mut summary = NOTHING;
    for entry in entries {
        summary = both(&summary, &count_one(entry))?;
    }
    Some(summary)
}

#[tactic(auto, unfolding(ba_lanes::specs::Legal::is_memory))]
fn is_memory(entry: &Entry) -> bool
    ensures { result ≡ is_memory entry.now }
{
    match entry {
        Entry::Begin { .. }
        | Entry::Ask { .. }
        | Entry::Read { .. }
        | Entry::End { .. }
        | Entry::Publish { .. } => false,
        Entry::Memory { .. } => true,
    }
}

/// Whether some line found no memory.
pub(crate) fn has_memory_line(journal: &Journal) -> bool
    ensures { result ≡ lacks_memory journal.now }
{
    journal
        .entries
        .as_slice()
        .iter()
        .any(|entry| is_memory(entry))
}

/// How many lines of the script found no memory, of those that the journal tells.
pub fn lines_without_memory(journal: &Journal) -> usize
    ensures { result ≡ count_by is_memory journal.now.entries }
{
    let mut count = 0;
    for entry in journal.entries.as_slice() {
        if is_memory(entry) {
            count += 1;
        }
    }
    count
}
