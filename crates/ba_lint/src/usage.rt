//! Which parameters a policy's views use, and which tables and columns they show.

use crate::finding::Finding;
use crate::fits::Field;
use crate::lost::Lost;
use crate::report::Report;
use crate::schema::SchemaText;
use crate::terms::Terms;
use crate::written::PolicyText;
use ba_hints::{Term, listed};
use ba_model::{CacheKey, Operand, Part, Policy, Query, Table, View};
use std::alloc::{AllocError, Global};

fn is_param(operand: &Operand, number: u32) -> bool {
    match operand {
        Operand::Param(other) => *other == number,
        _ => false,
    }
}

// Whether a part uses the parameter of a number.
fn part_uses(part: &Part, number: u32) -> bool {
    let (conds, head) = (part.conds.as_slice(), part.head.as_slice());
    conds.iter().any(|atom| is_param(&atom.left, number) || is_param(&atom.right, number))
        || head.iter().any(|operand| is_param(operand, number))
}

fn query_uses(query: &Query, number: u32) -> bool {
    let parts = query.parts.as_slice();
    parts.iter().any(|part| part_uses(part, number))
}

// Whether a query of a cache key uses the parameter of a number.
fn key_uses(key: &CacheKey, number: u32) -> bool {
    let queries = key.queries.as_slice();
    queries.iter().any(|query| query_uses(query, number))
}

fn is_used(policy: &Policy, number: u32) -> bool {
    let (views, keys) = (policy.views.as_slice(), policy.keys.as_slice());
    views.iter().any(|view| query_uses(&view.query, number))
        || keys.iter().any(|key| key_uses(key, number))
}

/// Finds parameters that no view and no cache key uses, and no statement that has a fault names.
pub fn find_unused(
    report: &mut Report,
    text: &PolicyText<'_>,
    policy: &Policy,
    lost: Lost<'_>,
) -> Result<(), AllocError> {
    for (param, number) in policy.params.as_slice().iter().zip(0..u32::MAX) {
        let name = param.name.as_str();
        if !is_used(policy, number) && !lost.names(name) {
            let spot = text.spot(Term::Param, name);
            report.add(text.file, spot, &Finding::UnusedParam(name))?;
        }
    }
    Ok(())
}

// Whether a view reads the table of a number.
fn view_reads(view: &View, table: u32) -> bool {
    let parts = view.query.parts.as_slice();
    parts
        .iter()
        .any(|part| part.from.as_slice().contains(&table))
}

fn is_read(policy: &Policy, table: u32) -> bool {
    let views = policy.views.as_slice();
    views.iter().any(|view| view_reads(view, table))
}

// Adds the columns of a class of a part.
fn push_class(
    shown: &mut Vec<Field>,
    part: &Part,
    terms: &Terms<'_>,
    class: u32,
) -> Result<(), AllocError> {
    for member in terms.members.iter() {
        if member.class == class
            && let Some(field) = Field::of(part, member.operand)
        {
            shown.push(field)?;
        }
    }
    Ok(())
}

// Adds the columns that a part puts out, and those that it makes equal to them.
fn push_shown(alloc: Global, shown: &mut Vec<Field>, part: &Part) -> Result<(), AllocError> {
    let terms = Terms::of(alloc, part)?;
    for operand in part.head.as_slice() {
        if let Some(class) = terms.class(operand) {
            push_class(shown, part, &terms, class)?;
        }
    }
    Ok(())
}

// A view, and the columns that it shows.
#[derive(Drop)]
struct Showing<'a> {
    view: &'a View,
    fields: Vec<Field>,
}

impl<'a> Showing<'a> {
    fn of(alloc: Global, view: &'a View) -> Result<Showing<'a>, AllocError> {
        let mut fields = Vec::new(alloc);
        for part in view.query.parts.as_slice() {
            push_shown(alloc, &mut fields, part)?;
        }
        Ok(Showing { view, fields })
    }

    // Whether the view shows a column.
    fn has(&self, field: Field) -> bool {
        self.fields.contains(&field)
    }
}

// The views of a policy, each with the columns that it shows.
fn showings(alloc: Global, policy: &Policy) -> Result<Vec<Showing<'_>>, AllocError> {
    let mut all = Vec::new(alloc);
    for view in policy.views.as_slice() {
        all.push(Showing::of(alloc, view)?)?;
    }
    Ok(all)
}

// A view with the parameters that it uses.
fn view_text(alloc: Global, policy: &Policy, view: &View) -> Result<String, AllocError> {
    let mut params = String::new(alloc);
    for (param, number) in policy.params.as_slice().iter().zip(0..u32::MAX) {
        if query_uses(&view.query, number) {
            params.push_str(if params.is_empty() { "?" } else { ", ?" })?;
            params.push_str(param.name.as_str())?;
        }
    }
    if params.is_empty() {
        return format!(in alloc; "{} (to every user)", view.name);
    }
    format!(in alloc; "{} ({params})", view.name)
}

// What the notes on a policy's tables are made from.
#[derive(Drop)]
struct Notes<'a> {
    alloc: Global,
    policy: &'a Policy,
    text: SchemaText<'a>,
    lost: Lost<'a>,
    showings: Vec<Showing<'a>>,
}

impl Notes<'_> {
    // The views that show a column, each with its parameters.
    fn views_text(&self, field: Field) -> Result<String, AllocError> {
        let mut texts = Vec::new(self.alloc);
        for showing in self.showings.iter() {
            if showing.has(field) {
                texts.push(view_text(self.alloc, self.policy, showing.view)?)?;
            }
        }
        let mut names = Vec::new(self.alloc);
        for text in texts.iter() {
            names.push(text.as_str())?;
        }
        listed(self.alloc, &names)
    }

    // Notes who is shown a column of a table. Whether it is said that nobody is, is given.
    fn note_column(
        &self,
        report: &mut Report,
        table: &str,
        column: &str,
        field: Field,
        tells_unseen: bool,
    ) -> Result<(), AllocError> {
        let views = self.views_text(field)?;
        let finding = if !views.is_empty() {
            Finding::Shown {
                table,
                column,
                views: views.as_str(),
            }
        } else if tells_unseen {
            Finding::Unseen { table, column }
        } else {
            return Ok(());
        };
        let spot = self.text.column_spot(table, column);
        report.add(self.text.file, spot, &finding)
    }

    // Notes who is shown the columns of a table. That nobody is isn't said where a statement that
    // has a fault names the table.
    fn note_columns(
        &self,
        report: &mut Report,
        table: &Table,
        number: u32,
    ) -> Result<(), AllocError> {
        let name = table.name.as_str();
        let tells_unseen = !self.lost.names(name);
        for (it, column) in table.columns.as_slice().iter().zip(0..u32::MAX) {
            let field = Field {
                table: number,
                column,
            };
            self.note_column(report, name, it.name.as_str(), field, tells_unseen)?;
        }
        Ok(())
    }

    // Notes of a table that no view reads it, unless a statement that has a fault names it, or else
    // who is shown its columns.
    fn note_table(
        &self,
        report: &mut Report,
        table: &Table,
        number: u32,
    ) -> Result<(), AllocError> {
        let name = table.name.as_str();
        if is_read(self.policy, number) {
            self.note_columns(report, table, number)
        } else if self.lost.names(name) {
            Ok(())
        } else {
            let spot = self.text.table_spot(name);
            report.add(self.text.file, spot, &Finding::UnreadTable(name))
        }
    }
}

/// Notes of each column which views show it, and which tables no view reads.
pub fn note_usage(
    report: &mut Report,
    text: SchemaText<'_>,
    policy: &Policy,
    lost: Lost<'_>,
) -> Result<(), AllocError> {
    let alloc = report.alloc;
    let notes = Notes {
        alloc,
        policy,
        text,
        lost,
        showings: showings(alloc, policy)?,
    };
    for (table, number) in policy.schema.tables.as_slice().iter().zip(0..u32::MAX) {
        notes.note_table(report, table, number)?;
    }
    Ok(())
}
