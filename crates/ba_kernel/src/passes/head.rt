//! Whether a part's head is the same as the goal row.
ghost use Rattle.std.specs.Prelude.{◌≡◌, ◌↔◌, IsTrue, length, slice_get};
ghost use Rattle.ba_kernel.specs.Effects.{rows_at};
ghost use Rattle.ba_kernel.specs.Steps.{FirstDifferent};
ghost use Rattle.ba_facts.specs.Matches.{AreTheSame, row_of, term_of};

use ba_facts::Branch;
use ba_model::Operand;

/// The first column in which the head over the facts isn't the same as the goal row.
pub fn first_different(branch: &Branch, head: &[Operand], facts: &[u32]) -> Option<usize>
    requires { length head.now ≡ length branch.now.goal }
    ensures { FirstDifferent branch.now (row_of branch.now facts.now head.now) result }
{
    for column in 0..head.len() {
        if !is_same_at(branch, facts, &head[column], column) {
            return Some(column);
        }
    }
    None
}

/// Whether the operand over the facts is the same as the goal row's term in the column.
fn is_same_at(branch: &Branch, facts: &[u32], operand: &Operand, column: usize) -> bool
    ensures { IsTrue result
        ↔ AreTheSame branch.now.known (term_of (rows_at branch.now facts.now) operand.now)
        (slice_get branch.now.goal column) }
{
    match (branch.term_of(facts, operand), branch.goal.find(column)) {
        (Some(left), Some(right)) => branch.known.same(left, right.by_ref()),
        _ => false,
    }
}
