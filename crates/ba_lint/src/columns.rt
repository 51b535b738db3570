//! Columns that a view compares, and keys, that it doesn't put out.

use crate::finding::Finding;
use crate::report::Report;
use crate::terms::Terms;
use crate::ties::{count_tables, shows};
use crate::written::ViewText;
use ba_hints::{column_name, listed};
use ba_model::{List, Operand, Part, Table};
use std::alloc::{AllocError, Global};

/// Finds columns that a part of a view compares, and whose values its rows and the parameters don't
/// tell: of columns that are equal the first.
pub fn find_hidden(
    report: &mut Report,
    text: &ViewText<'_>,
    part: &Part,
    terms: &Terms<'_>,
) -> Result<(), AllocError> {
    let mut told = Vec::new(report.alloc);
    for atom in part.conds.as_slice() {
        let is_left_new = is_new(terms, &atom.left, &mut told)?;
        if is_left_new {
            tell_hidden(report, text, part, &atom.left)?;
        }
        let is_right_new = is_new(terms, &atom.right, &mut told)?;
        if is_right_new {
            tell_hidden(report, text, part, &atom.right)?;
        }
    }
    Ok(())
}

// Whether the value of a side of a condition isn't known, and its class isn't among those that were
// told, to which it is added.
fn is_new(terms: &Terms<'_>, side: &Operand, told: &mut Vec<u32>) -> Result<bool, AllocError> {
    let Some(class) = terms.class(side) else {
        return Ok(false);
    };
    if terms.is_known(side) || told.contains(&class) {
        return Ok(false);
    }
    told.push(class)?;
    Ok(true)
}

// Tells of a column that is compared and not put out.
fn tell_hidden(
    report: &mut Report,
    text: &ViewText<'_>,
    part: &Part,
    side: &Operand,
) -> Result<(), AllocError> {
    let Operand::Col(place, column) = side else {
        return Ok(());
    };
    let Some(table) = text.table(part, *place) else {
        return Ok(());
    };
    let finding = Finding::Hidden {
        view: text.name(),
        table: table.name.as_str(),
        column: column_name(table, *column),
    };
    let spot = text.column_spot(table.name.as_str(), column_name(table, *column));
    report.add(text.file(), spot, &finding)
}

// Whether the values of all columns of a key of the table at a place are known.
fn is_key_known(terms: &Terms<'_>, place: u32, key: &List<u32>) -> bool {
    key.as_slice()
        .iter()
        .all(|column| terms.is_known(&Operand::Col(place, *column)))
}

// Whether a table has keys, and the values of none of them are known.
fn is_keyless(terms: &Terms<'_>, place: u32, table: &Table) -> bool {
    let keys = table.keys.as_slice();
    !keys.is_empty() && !keys.iter().any(|key| is_key_known(terms, place, key))
}

// The columns of a table's first key.
fn key_text(alloc: Global, table: &Table) -> Result<String, AllocError> {
    let mut names = Vec::new(alloc);
    if let Some(key) = table.keys.as_slice().first() {
        for column in key.as_slice() {
            names.push(column_name(table, *column))?;
        }
    }
    listed(alloc, &names)
}

/// Finds tables that a part of a view shows, and of which it puts out no key.
pub fn find_keyless(
    report: &mut Report,
    text: &ViewText<'_>,
    part: &Part,
    terms: &Terms<'_>,
) -> Result<(), AllocError> {
    for place in 0..count_tables(part) {
        if let Some(table) = text.table(part, place)
            && shows(part, place)
            && is_keyless(terms, place, table)
        {
            let columns = key_text(report.alloc, table)?;
            let finding = Finding::Keyless {
                view: text.name(),
                table: table.name.as_str(),
                columns: columns.as_str(),
            };
            report.add(text.file(), text.table_spot(table.name.as_str()), &finding)?;
        }
    }
    Ok(())
}
