//! Blocks by a counterexample: the two databases, and what they show.

use crate::given::Given;
use crate::page::{MOST_ROWS, Page};
use crate::scene::Scene;
use crate::text::{row_text, table_text};
use ba_eval::answer;
use ba_model::{Row, RowSet, Same, Table};
use ba_refute::Counterexample;
use std::alloc::{AllocError, Global};

// What is said where the views and the earlier answers are the same in both databases.
const ALIKE: &str =
    "Who sees the policy's views and the earlier answers can't tell the two apart, but the question's answers differ.";

// What is said where they aren't.
const WITHIN: &str =
    "Each row that a view shows of the first it shows of the second too, and the first gives the earlier questions the rows \
     that were told; but this row is in the first answer alone. So the question isn't strongly compliant. Whether its answer would tell more than \
     the views isn't known.";

/// Shows the two databases of a counterexample, and says what refutes the question.
pub fn tell_refuted(
    page: &mut Page,
    given: &Given,
    scene: &Scene,
    pair: &Counterexample,
) -> Result<(), AllocError> {
    page.say(
        2,
        "Two databases refute it (* marks a row that the other lacks):",
    )?;
    tell_database(page, given, "first database", &pair.one, &pair.two)?;
    tell_database(page, given, "second database", &pair.two, &pair.one)?;
    let row = row_text(page.alloc, pair.row.as_slice())?;
    let text = format!(in page.alloc;
        "The question gives {row} in the first, and not in the second."
    )?;
    page.say(2, text.as_str())?;
    let are_alike = are_alike(page.alloc, given, scene, pair)?;
    page.say(2, if are_alike { ALIKE } else { WITHIN })
}

// The rows of the table of a number.
fn rows_of(set: &RowSet, number: usize) -> &[Row] {
    match set.tables.find(number) {
        Some(rows) => rows.as_slice(),
        None => &[],
    }
}

fn is_empty(set: &RowSet) -> bool {
    for rows in set.tables.as_slice() {
        if rows.len() > 0 {
            return false;
        }
    }
    true
}

// Shows a database, with marks at the rows that another one lacks.
fn tell_database(
    page: &mut Page,
    given: &Given,
    name: &str,
    set: &RowSet,
    other: &RowSet,
) -> Result<(), AllocError> {
    page.say(4, name)?;
    if is_empty(set) {
        return page.say(6, "no rows");
    }
    for (number, table) in given.policy().schema.tables.as_slice().iter().enumerate() {
        tell_table(page, table, rows_of(set, number), rows_of(other, number))?;
    }
    Ok(())
}

// Shows the rows of a table, if it has any.
fn tell_table(
    page: &mut Page,
    table: &Table,
    rows: &[Row],
    others: &[Row],
) -> Result<(), AllocError> {
    if rows.is_empty() {
        return Ok(());
    }
    let head = table_text(page.alloc, table)?;
    page.say(6, head.as_str())?;
    for row in rows.iter().take(MOST_ROWS) {
        let mark = if has(others, row) { " " } else { "*" };
        let row = row_text(page.alloc, row.as_slice())?;
        let text = format!(in page.alloc; "{mark} {row}")?;
        page.say(6, text.as_str())?;
    }
    page.say_left(8, rows.len().saturating_sub(MOST_ROWS))
}

fn has(rows: &[Row], row: &Row) -> bool {
    for it in rows {
        if it.same(row) {
            return true;
        }
    }
    false
}

// Whether the views show the same of the two databases, and both give the earlier questions just
// the rows that were told.
fn are_alike(
    alloc: Global,
    given: &Given,
    scene: &Scene,
    pair: &Counterexample,
) -> Result<bool, AllocError> {
    for view in given.policy().views.as_slice() {
        let one = answer(alloc, &pair.one, &scene.context, &view.query)?;
        let two = answer(alloc, &pair.two, &scene.context, &view.query)?;
        if !one.same(&two) {
            return Ok(false);
        }
    }
    gives_the_told(alloc, scene, &pair.one, &pair.two)
}

// Whether both databases give the earlier questions just the rows that were told.
fn gives_the_told(
    alloc: Global,
    scene: &Scene,
    one: &RowSet,
    two: &RowSet,
) -> Result<bool, AllocError> {
    for number in 0..scene.trace.len() {
        let told = scene.trace.entry(number);
        let one = answer(alloc, one, &scene.context, &told.query)?;
        let two = answer(alloc, two, &scene.context, &told.query)?;
        if !one.same(&told.rows) || !two.same(&told.rows) {
            return Ok(false);
        }
    }
    Ok(true)
}
