//! The search for the rows of one part.
ghost use Rattle.std.specs.Prelude.{◌≡◌, ◌↔◌, IsTrue, IfOk, OnOk, All, map};
ghost use Rattle.ba_model.specs.Meaning.{rows_of, Holds, Gives};
ghost use Rattle.ba_answer_tests.specs.PlainSearch.{Adds, GivesFrom, IsHead};

use ba_model::{Atom, Context, Duplicate, List, Operand, Part, Row, RowSet};
use std::alloc::{AllocError, Global};

/// A part to be searched for in a database, under a context.
#[derive(Drop)]
pub struct Search<'a> {
    pub rows: &'a RowSet,
    pub ctx: &'a Context,
    pub part: &'a Part,
}

impl<'a> Search<'a> {
    /// Adds the rows that the part gives from the chosen rows and one row of each further table.
    pub fn gather(
        &self,
        alloc: Global,
        from: &[u32],
        chosen: &mut Vec<&'a Row>,
        found: &mut Vec<Row>,
    ) -> Result<(), AllocError>
        ensures chosen { OnOk result (chosen.new.items ≡ chosen.old.items) }
        ensures found { OnOk result (Adds (GivesFrom self.now.ctx.now self.now.rows.now self.now.part.now from.now (map (λ row. row.now) chosen.old.items)) found.old.items found.new.items) }
    {
        match from.split_first() {
            None => self.add_row(alloc, chosen, found),
            Some((table, rest)) => {
                for row in rows_of_table(self.rows, *table) {
                    chosen.push(row)?;
                    self.gather(alloc, rest, chosen, found)?;
                    chosen.pop();
                }
                Ok(())
            }
        }
    }

    /// Adds the row that the part gives from one row for each place, if it gives one.
    fn add_row(
        &self,
        alloc: Global,
        chosen: &[&'a Row],
        found: &mut Vec<Row>,
    ) -> Result<(), AllocError>
        ensures { OnOk result (Adds (Gives self.now.ctx.now (map (λ row. row.now) chosen.now) self.now.part.now) found.old.items found.new.items) }
    {
        if !all_hold(self.part.conds.as_slice(), self.ctx, chosen) {
            return Ok(());
        }
        let head = make_head(alloc, self.part.head.as_slice(), self.ctx, chosen)?;
        match head {
            Some(row) => {
                found.push(row)?;
                Ok(())
            }
            None => Ok(()),
        }
    }
}

/// The rows of a table, of which a table that isn't there has none.
fn rows_of_table(rows: &RowSet, table: u32) -> &[Row]
    ensures { result.now ≡ rows_of rows.now table }
{
    match rows.tables.find(table as usize) {
        Some(list) => list.as_slice(),
        None => &[],
    }
}

fn all_hold(atoms: &[Atom], ctx: &Context, chosen: &[&Row]) -> bool
    ensures { IsTrue result ↔ All (Holds ctx.now (map (λ row. row.now) chosen.now)) atoms.now }
{
    atoms.iter().all(|atom| atom.holds_of_chosen(ctx, chosen))
}

/// The row of the operands' values, if each has one.
fn make_head(
    alloc: Global,
    head: &[Operand],
    ctx: &Context,
    chosen: &[&Row],
) -> Result<Option<Row>, AllocError>
    ensures { IfOk result (IsHead ctx.now (map (λ row. row.now) chosen.now) head.now) }
{
    let mut values = Vec::new(alloc);
    for operand in head {
        match operand.value_of_chosen(ctx, chosen) {
            Some(value) => values.push(value.copy(alloc)?)?,
            None => return Ok(None),
        }
    }
    Ok(Some(List::from_vec(values)))
}
