//! How many pairs of told rows are compared.
ghost use Rattle.std.specs.Prelude.{◌≡◌, ◌↔◌, ◌+◌, ◌-◌, ◌*◌, ◌^◌, ◌≤◌, IsTrue, min};
ghost use Rattle.ba_clash.specs.Clash.{AreFew, most_compared, told_rows};

use ba_comply::{Trace, TraceEntry};

/// At most so many pairs of told rows are compared at one telling.
pub const MAX_COMPARED: usize = 1_000_000;

// How many rows the entries have.
fn new_rows(entries: &[TraceEntry]) -> usize
    ensures { result ≡ min (told_rows entries.now) (2 ^ 64 - 1) }
{
    let mut sum: usize = 0;
    for entry in entries {
        sum = sum.saturating_add(entry.rows.len());
    }
    sum
}

// How many rows the trace's entries have.
fn old_rows(trace: &Trace) -> usize
    ensures { result ≡ min (told_rows trace.now) (2 ^ 64 - 1) }
{
    let mut sum: usize = 0;
    for number in 0..trace.len() {
        sum = sum.saturating_add(trace.entry(number).rows.len());
    }
    sum
}

// Whether the pairs of so many rows are within the limit.
fn is_within(old: usize, new: usize) -> bool
    ensures { IsTrue result
        ↔ (min (new * min (old + new) (2 ^ 64 - 1)) (2 ^ 64 - 1) ≤ most_compared) }
{
    new.saturating_mul(old.saturating_add(new)) <= MAX_COMPARED
}

/// Whether the pairs of each new row with each told row are within the limit.
pub(crate) fn are_few(old: &Trace, new: &[TraceEntry]) -> bool
    ensures { IsTrue result ↔ AreFew old.now new.now }
{
    is_within(old_rows(old), new_rows(new))
}
