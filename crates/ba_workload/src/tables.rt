//! The tables.
ghost use Rattle.std.specs.Prelude.{◌≡◌, ◌<◌, ◌≤◌, ◌++◌, IfOk, OnOk};
ghost use Rattle.ba_workload.specs.Chosen.{attended, users};
ghost use Rattle.ba_workload.specs.Tables.{attendance_row, attendance_rows, attendances_of, event_row, event_rows, named, tables, user_row, user_rows};

use crate::choice::{ATTENDED, EVENTS, USERS, event_of};
use ba_model::{List, Row, RowSet, Str, Value};
use std::alloc::{AllocError, Global};

/// A letter and a number.
fn named(alloc: Global, letter: &str, number: u32) -> Result<Value, AllocError>
    ensures { IfOk result (λ value. value ≡ named letter.now number) }
{
    let text = format!(in alloc; "{letter}{number}")?;
    Value::text(alloc, Str::from_string(text))
}

#[tactic(auto, unfolding(crate::specs::Tables::user_row))]
fn user_row(alloc: Global, user: u32) -> Result<Row, AllocError>
    ensures { IfOk result (λ row. row ≡ user_row user) }
{
    let mut row = List::new(alloc);
    row.push(Value::Int(user as i64))?;
    row.push(named(alloc, "u", user)?)?;
    Ok(row)
}

#[tactic(auto, unfolding(crate::specs::Tables::event_row))]
fn event_row(alloc: Global, event: u32) -> Result<Row, AllocError>
    ensures { IfOk result (λ row. row ≡ event_row event) }
{
    let duration = event % 7 * 10 + 10;
    let mut row = List::new(alloc);
    row.push(Value::Int(event as i64))?;
    row.push(named(alloc, "e", event)?)?;
    row.push(Value::Int(duration as i64))?;
    Ok(row)
}

#[tactic(auto, unfolding(crate::specs::Tables::attendance_row))]
fn attendance_row(alloc: Global, user: u32, attendance: u32) -> Result<Row, AllocError>
    requires user { user ≤ users }
    requires attendance { attendance < attended }
    ensures { IfOk result (λ row. row ≡ attendance_row user attendance) }
{
    let event = event_of(user, attendance);
    let time = 100 * user + attendance;
    let mut row = List::new(alloc);
    row.push(Value::Int(user as i64))?;
    row.push(Value::Int(event as i64))?;
    row.push(Value::Int(time as i64))?;
    Ok(row)
}

fn user_rows(alloc: Global) -> Result<List<Row>, AllocError>
    ensures { IfOk result (λ rows. rows ≡ user_rows) }
{
    let mut rows = List::new(alloc);
    for user in 1..USERS + 1 {
        let row = user_row(alloc, user)?;
        rows.push(row)?;
    }
    Ok(rows)
}

fn event_rows(alloc: Global) -> Result<List<Row>, AllocError>
    ensures { IfOk result (λ rows. rows ≡ event_rows) }
{
    let mut rows = List::new(alloc);
    for event in 1..EVENTS + 1 {
        let row = event_row(alloc, event)?;
        rows.push(row)?;
    }
    Ok(rows)
}

/// Adds a user's attendances.
fn add_attendances(alloc: Global, rows: &mut List<Row>, user: u32) -> Result<(), AllocError>
    requires { user ≤ users }
    ensures { OnOk result (rows.new ≡ rows.old ++ attendances_of user) }
{
    for attendance in 0..ATTENDED {
        let row = attendance_row(alloc, user, attendance)?;
        rows.push(row)?;
    }
    Ok(())
}

fn attendance_rows(alloc: Global) -> Result<List<Row>, AllocError>
    ensures { IfOk result (λ rows. rows ≡ attendance_rows) }
{
    let mut rows = List::new(alloc);
    for user in 1..USERS + 1 {
        add_attendances(alloc, &mut rows, user)?;
    }
    Ok(rows)
}

/// The rows of Users, Events and Attendances.
pub(crate) fn standard_tables(alloc: Global) -> Result<RowSet, AllocError>
    ensures { IfOk result (λ it. it ≡ tables) }
{
    let mut lists = List::new(alloc);
    lists.push(user_rows(alloc)?)?;
    lists.push(event_rows(alloc)?)?;
    lists.push(attendance_rows(alloc)?)?;
    Ok(RowSet { tables: lists })
}
