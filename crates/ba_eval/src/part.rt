//! The search for the rows of one part.
ghost use Rattle.std.specs.Prelude.{◌≡◌, ◌↔◌, IsTrue, IfOk, OnOk, All, Any, Some, map};
ghost use Rattle.ba_model.specs.Meaning.{value_of, rows_of, Holds, Gives};
ghost use Rattle.std.specs.Prelude.{length};
ghost use Rattle.std.specs.Prelude.{ℕ, List as Listed};
ghost use Rattle.ba_eval.specs.Index.{ArePlaces};
ghost use Rattle.ba_eval.specs.Visits.{Reached, Visited};
ghost use Rattle.ba_eval.specs.Search.{Adds, Fails, GivesFrom, IsHead};

use crate::found::Found;
use crate::place::{Place, read_row};
use crate::steps::Steps;
use ba_index::Order;
use ba_model::{Atom, Context, Duplicate, List, Operand, Part, Row, RowSet, Same, Value};
use std::alloc::{AllocError, Global};
use std::sync::ledger::Ledger;

/// A part to be searched for in a database, under a context.
#[derive(Drop)]
pub struct Search<'a> {
    pub rows: &'a RowSet,
    /// Orders of the tables' rows, if any are kept.
    pub orders: &'a [Order],
    pub ctx: &'a Context,
    pub part: &'a Part,
    /// Whether no row may be read, beside those of indexes that are made, but such that make true what the places so far settle.
    pub bounded: bool,
}

impl<'a> Search<'a> {
    /// Adds the rows that the part gives from the chosen rows and one row of each further place.
    pub fn gather<L: Ledger>(
        &self,
        alloc: Global,
        places: &[Place<'a>],
        chosen: &mut Vec<&'a Row>,
        found: &mut Found,
        steps: &mut Steps<L>,
    ) -> Result<(), AllocError>
        requires { ArePlaces self.now.bounded self.now.ctx.now self.now.rows.now self.now.part.now (length (map (λ row. row.now) chosen.old.items)) places.now }
        ensures chosen { OnOk result (chosen.new.items ≡ chosen.old.items) }
        ensures found { OnOk result (Adds (GivesFrom self.now.ctx.now self.now.rows.now self.now.part.now (map (λ place. place.table) places.now) (map (λ row. row.now) chosen.old.items)) found.old found.new) }
        ensures steps { IsTrue self.now.bounded → (before : Listed ℕ) → Reached self.now.ctx.now self.now.rows.now self.now.part.now (map (λ place. place.table) places.now) before (map (λ row. row.now) chosen.old.items) → Visited self.now.ctx.now self.now.rows.now self.now.part.now before steps.old steps.new }
    {
        match places.split_first() {
            None => self.add_row(alloc, chosen, found),
            Some((place, rest)) => {
                if self.fails(chosen) {
                    return Ok(());
                }
                let numbers = place.candidates(alloc, self, chosen)?;
                for number in numbers.as_slice() {
                    chosen.push(read_row(place.rows, *number, steps))?;
                    self.gather(alloc, rest, chosen, found, steps)?;
                    chosen.pop();
                }
                Ok(())
            }
        }
    }

    /// Adds the rows that the part gives from the chosen rows and one row of each further table. Each choice of rows is tried,
    /// with no index.
    pub fn gather_plainly(
        &self,
        alloc: Global,
        from: &[u32],
        chosen: &mut Vec<&'a Row>,
        found: &mut Found,
    ) -> Result<(), AllocError>
        ensures chosen { OnOk result (chosen.new.items ≡ chosen.old.items) }
        ensures found { OnOk result (Adds (GivesFrom self.now.ctx.now self.now.rows.now self.now.part.now from.now (map (λ row. row.now) chosen.old.items)) found.old found.new) }
    {
        match from.split_first() {
            None => self.add_row(alloc, chosen, found),
            Some((table, rest)) => {
                if self.fails(chosen) {
                    return Ok(());
                }
                for next in rows_of_table(self.rows, *table) {
                    chosen.push(next)?;
                    self.gather_plainly(alloc, rest, chosen, found)?;
                    chosen.pop();
                }
                Ok(())
            }
        }
    }

    /// Whether the part gives the row from the chosen rows and one row of each further table.
    pub fn finds(
        &self,
        from: &[u32],
        chosen: &mut Vec<&'a Row>,
        row: &Row,
    ) -> Result<bool, AllocError>
        ensures chosen { OnOk result (chosen.new.items ≡ chosen.old.items) }
        ensures found { IfOk result (λ found. IsTrue found ↔ GivesFrom self.now.ctx.now self.now.rows.now self.now.part.now from.now (map (λ row. row.now) chosen.old.items) row.now) }
    {
        match from.split_first() {
            None => Ok(self.gives(chosen, row)),
            Some((table, rest)) => {
                if self.fails(chosen) {
                    return Ok(false);
                }
                for next in rows_of_table(self.rows, *table) {
                    chosen.push(next)?;
                    let found = self.finds(rest, chosen, row)?;
                    chosen.pop();
                    if found {
                        return Ok(true);
                    }
                }
                Ok(false)
            }
        }
    }

    /// Adds the row that the part gives from one row for each place, if it gives one.
    fn add_row(
        &self,
        alloc: Global,
        chosen: &[&'a Row],
        found: &mut Found,
    ) -> Result<(), AllocError>
        ensures { OnOk result (Adds (Gives self.now.ctx.now (map (λ row. row.now) chosen.now) self.now.part.now) found.old found.new) }
    {
        if !all_hold(self.part.conds.as_slice(), self.ctx, chosen) {
            return Ok(());
        }
        let head = make_head(alloc, self.part.head.as_slice(), self.ctx, chosen)?;
        match head {
            Some(row) => found.add(row),
            None => Ok(()),
        }
    }

    /// Whether the part gives the row from one row for each place.
    fn gives(&self, chosen: &[&'a Row], row: &Row) -> bool
        ensures { IsTrue result ↔ Gives self.now.ctx.now (map (λ row. row.now) chosen.now) self.now.part.now row.now }
    {
        is_head(&self.part.head, self.ctx, chosen, row)
            && all_hold(self.part.conds.as_slice(), self.ctx, chosen)
    }

    /// Whether an atom is false whatever the further rows are, since the chosen ones give the values of both sides.
    fn fails(&self, chosen: &[&'a Row]) -> bool
        ensures { IsTrue result ↔ Any (Fails self.now.ctx.now (map (λ row. row.now) chosen.now)) self.now.part.now.conds }
    {
        some_fails(self.part.conds.as_slice(), self.ctx, chosen)
    }
}

/// The rows of a table, of which a table that isn't there has none.
pub fn rows_of_table(rows: &RowSet, table: u32) -> &[Row]
    ensures { result.now ≡ rows_of rows.now table }
{
    match rows.tables.find(table as usize) {
        Some(list) => list.as_slice(),
        None => &[],
    }
}

fn all_hold(atoms: &[Atom], ctx: &Context, chosen: &[&Row]) -> bool
    ensures { IsTrue result ↔ All (Holds ctx.now (map (λ row. row.now) chosen.now)) atoms.now }
{
    atoms.iter().all(|atom| atom.holds_of_chosen(ctx, chosen))
}

fn some_fails(atoms: &[Atom], ctx: &Context, chosen: &[&Row]) -> bool
    ensures { IsTrue result ↔ Any (Fails ctx.now (map (λ row. row.now) chosen.now)) atoms.now }
{
    atoms.iter().any(|atom| atom_fails(atom, ctx, chosen))
}

fn atom_fails(atom: &Atom, ctx: &Context, chosen: &[&Row]) -> bool
    ensures { IsTrue result ↔ Fails ctx.now (map (λ row. row.now) chosen.now) atom.now }
{
    match (
        atom.left.value_of_chosen(ctx, chosen),
        atom.right.value_of_chosen(ctx, chosen),
    ) {
        (Some(left), Some(right)) => !atom.op.compares(left, right),
        _ => false,
    }
}

/// The row of the operands' values, if each has one.
fn make_head(
    alloc: Global,
    head: &[Operand],
    ctx: &Context,
    chosen: &[&Row],
) -> Result<Option<Row>, AllocError>
    ensures { IfOk result (IsHead ctx.now (map (λ row. row.now) chosen.now) head.now) }
{
    let mut values = Vec::new(alloc);
    for operand in head {
        match operand.value_of_chosen(ctx, chosen) {
            Some(value) => values.push(value.copy(alloc)?)?,
            None => return Ok(None),
        }
    }
    Ok(Some(List::from_vec(values)))
}

/// Whether the row is that of the operands' values.
fn is_head(head: &List<Operand>, ctx: &Context, chosen: &[&Row], row: &Row) -> bool
    ensures { IsTrue result ↔ (map (value_of ctx.now (map (λ row. row.now) chosen.now)) head.now ≡ map Some row.now) }
{
    if head.len() != row.len() {
        return false;
    }
    for i in 0..head.len() {
        if !has_value(head.get(i), ctx, chosen, row.get(i)) {
            return false;
        }
    }
    true
}

/// Whether the operand has the value.
fn has_value(operand: &Operand, ctx: &Context, chosen: &[&Row], value: &Value) -> bool
    ensures { IsTrue result ↔ (value_of ctx.now (map (λ row. row.now) chosen.now) operand.now ≡ Some value.now) }
{
    match operand.value_of_chosen(ctx, chosen) {
        Some(own) => own.same(value),
        None => false,
    }
}
