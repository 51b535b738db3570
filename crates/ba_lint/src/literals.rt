//! Literals of views that stand in no row.

use crate::finding::Finding;
use crate::report::Report;
use crate::written::ViewText;
use ba_hints::{column_name, literal_text};
use ba_model::{Atom, Op, Operand, Part, Row, RowSet, Same, Value};
use std::alloc::AllocError;

fn has_value(row: &Row, column: u32, value: &Value) -> bool {
    match row.find(column as usize) {
        Some(it) => it.same(value),
        None => false,
    }
}

// Whether a table has rows, and none of them has a value in a column, by their numbers.
fn is_in_no_row(rows: &RowSet, table: u32, column: u32, value: &Value) -> bool {
    let Some(rows) = rows.tables.find(table as usize) else {
        return false;
    };
    let rows = rows.as_slice();
    !rows.is_empty() && !rows.iter().any(|row| has_value(row, column, value))
}

// Finds that no row has a literal that is compared with a column.
fn find_compared(
    report: &mut Report,
    text: &ViewText<'_>,
    part: &Part,
    rows: &RowSet,
    side: &Operand,
    other: &Operand,
) -> Result<(), AllocError> {
    let (Operand::Col(place, column), Operand::Val(value)) = (side, other) else {
        return Ok(());
    };
    let (Some(table), Some(number)) = (text.table(part, *place), part.from.find(*place as usize))
    else {
        return Ok(());
    };
    if !is_in_no_row(rows, *number, *column, value) {
        return Ok(());
    }
    let literal = literal_text(report.alloc, value)?;
    let finding = Finding::NoRow {
        view: text.name(),
        table: table.name.as_str(),
        column: column_name(table, *column),
        literal: literal.as_str(),
    };
    let spot = text.value_spot(table.name.as_str(), column_name(table, *column), value);
    report.add(text.file(), spot, &finding)
}

// Whether a condition says that two sides are equal or that they differ.
fn tells_same(atom: &Atom) -> bool {
    match atom.op {
        Op::Eq | Op::Ne => true,
        _ => false,
    }
}

/// Finds literals that a part of a view compares with columns by `=` or `<>`, and that no row has
/// there. A table that has no row tells nothing.
pub fn find_literals(
    report: &mut Report,
    text: &ViewText<'_>,
    part: &Part,
    rows: &RowSet,
) -> Result<(), AllocError> {
    for atom in part.conds.as_slice() {
        if tells_same(atom) {
            find_compared(report, text, part, rows, &atom.left, &atom.right)?;
            find_compared(report, text, part, rows, &atom.right, &atom.left)?;
        }
    }
    Ok(())
}
