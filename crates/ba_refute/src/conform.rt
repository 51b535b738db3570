//! Whether a database conforms to a schema.
ghost use Rattle.std.specs.Prelude.{◌≡◌, ◌↔◌, All, IfOk, IsTrue};
ghost use Rattle.ba_model.specs.Conform.{Conforms, RuleHolds, no_context};
ghost use Rattle.ba_refute.specs.Counterexamples.{FitTables};

use crate::rising::{are_rising, in_rising_order};
use crate::within::rows_pass;
use ba_model::{Context, List, RowSet, Rule, Schema, Table};
use ba_tables::conform;
use std::alloc::{AllocError, Global};

fn no_context(alloc: Global) -> Context
    ensures { result ≡ no_context }
{
    Context {
        values: List::new(alloc),
    }
}

fn rules_hold(alloc: Global, rules: &[Rule], rows: &RowSet) -> Result<bool, AllocError>
    ensures { IfOk result (λ found. IsTrue found ↔ All (RuleHolds rows.now) rules.now) }
{
    let no_context = no_context(alloc);
    for rule in rules {
        let holds = rows_pass(alloc, &no_context, &rule.left, rows, &rule.right, rows)?;
        if !holds {
            return Ok(false);
        }
    }
    Ok(true)
}

/// Whether the database conforms to the tables; its rows stand in any order.
fn tables_conform(alloc: Global, tables: &List<Table>, rows: &RowSet) -> Result<bool, AllocError>
    ensures { IfOk result (λ found. IsTrue found ↔ FitTables tables.now rows.now) }
{
    if are_rising(rows) {
        return conform(alloc, tables, rows);
    }
    let in_order = in_rising_order(alloc, rows)?;
    conform(alloc, tables, &in_order)
}

/// Whether the database conforms to the schema, rules included; its rows stand in any order.
pub fn conforms(alloc: Global, schema: &Schema, rows: &RowSet) -> Result<bool, AllocError>
    ensures { IfOk result (λ found. IsTrue found ↔ Conforms schema.now rows.now) }
{
    let tables = tables_conform(alloc, &schema.tables, rows)?;
    if !tables {
        return Ok(false);
    }
    rules_hold(alloc, schema.rules.as_slice(), rows)
}
