//! The image of a branch.
ghost use Rattle.std.specs.Prelude.{All, IfOk, length};
ghost use Rattle.ba_facts.specs.Shown.{Absurd};
ghost use Rattle.ba_refute.specs.Counterexamples.{IsPairStored};
ghost use Rattle.ba_refute.specs.Images.{AreValued, IsValued, IsImage};
ghost use Rattle.ba_refute.specs.OfEquations.{AreSmall};
ghost use Rattle.ba_refute.specs.Pairs.{pair_of};
ghost use Rattle.ba_refute.specs.Wide.{Narrows};

use crate::clause::Counterexample;
use crate::rows::{row_of, side_of};
use crate::values::values;
use crate::wide::{WideRow, narrow_row, narrow_tables};
use ba_facts::{Branch, Side};
use ba_kernel::Problem;
use ba_model::{Context, List, RowSet};
use std::alloc::{AllocError, Global};

/// Two databases and a row, whose numbers may be past 64 bits.
#[derive(Drop)]
pub(crate) struct Image {
    one: List<List<WideRow>>,
    two: List<List<WideRow>>,
    row: WideRow,
}

impl Image {
    /// The image of a branch of the problem under a context.
    pub(crate) fn of(
        alloc: Global,
        ctx: &Context,
        problem: &Problem,
        branch: &Branch,
    ) -> Result<Image, AllocError>
        requires sound { ¬ (Absurd branch.now.known) }
        requires facts { AreValued (length branch.now.known.unknowns) ctx.now branch.now.facts }
        requires goal { All (IsValued (length branch.now.known.unknowns) ctx.now) branch.now.goal }
        ensures image { IfOk result
            (λ it. IsImage problem.now ctx.now branch.now (pair_of it)) }
        ensures small { IfOk result (λ _. AreSmall problem.now branch.now) }
    {
        let values = values(alloc, problem, branch)?;
        let tables = problem.policy.schema.tables.len();
        let facts = branch.facts.as_slice();
        let one = side_of(alloc, ctx, &values, facts, tables, Side::One)?;
        let two = side_of(alloc, ctx, &values, facts, tables, Side::Two)?;
        let row = row_of(alloc, ctx, &values, branch.goal.as_slice())?;
        Ok(Image { one, two, row })
    }

    /// The pair, if its numbers are within 64 bits.
    pub(crate) fn narrow(&self, alloc: Global) -> Result<Option<Counterexample>, AllocError>
        ensures { IfOk result (Narrows IsPairStored (pair_of self.now)) }
    {
        let one = narrow_tables(alloc, self.one.as_slice())?;
        let two = narrow_tables(alloc, self.two.as_slice())?;
        let row = narrow_row(alloc, self.row.as_slice())?;
        match (one, two, row) {
            (Some(one), Some(two), Some(row)) => Ok(Some(Counterexample {
                one: RowSet { tables: one },
                two: RowSet { tables: two },
                row,
            })),
            _ => Ok(None),
        }
    }
}
