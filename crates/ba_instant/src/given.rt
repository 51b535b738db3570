//! Entries whose row some terms give already, by what is known of them.
ghost use Rattle.std.specs.Prelude.{◌≡◌, All, IfOk, IsTrue, option_map};
ghost use Rattle.std.specs.List.{AllZip};
ghost use Rattle.ba_model.specs.declared.query.Operand.TheVariants.{Col};
ghost use Rattle.ba_facts.specs.Known.{seen};
ghost use Rattle.ba_facts.specs.Matches.{IsShown, Under, term_of};
ghost use Rattle.ba_instant.specs.Givens.{GivesBy, GivesSome, IsHeadOf, IsHeadPlace};
ghost use Rattle.ba_instant.specs.QuietSteps.{IsFilled, IsPlain, IsQuietEntry, IsRowFor};

use crate::choices::chosen_rows;
use crate::quiet::is_plain_of;
use ba_facts::{Branch, Knowledge, Term, TermRef};
use ba_kernel::Problem;
use ba_model::{Atom, Column, List, Operand, Part, Schema};
use std::alloc::{AllocError, Global};

/// Whether some terms, in place of the facts that the entry's query asks for, are sure to give its
/// row. One choice of them is tried; another may give it even so.
pub fn is_quiet_entry(
    alloc: Global,
    problem: &Problem,
    branch: &Branch,
    entry: u64,
) -> Result<bool, AllocError>
    ensures { IfOk result (λ it. IsTrue it → IsQuietEntry problem.now branch.now entry) }
{
    let Some(it) = problem.entries.find(entry as usize) else {
        return Ok(false);
    };
    match it.query.parts.find(0) {
        Some(part) => is_row_given(alloc, problem, branch, part, it.row.as_slice()),
        None => Ok(false),
    }
}

fn is_row_given(
    alloc: Global,
    problem: &Problem,
    branch: &Branch,
    part: &Part,
    row: &[Operand],
) -> Result<bool, AllocError>
    ensures { IfOk result
        (λ it. IsTrue it → GivesSome problem.now.policy.schema branch.now part.now row.now) }
{
    let schema = &problem.policy.schema;
    let rows = chosen_rows(alloc, schema, part, row)?;
    Ok(give_row(schema, branch, part, rows.as_slice(), row))
}

/// Whether the rows fit the part's tables, and its atoms and head are known of them.
fn give_row(
    schema: &Schema,
    branch: &Branch,
    part: &Part,
    rows: &[List<Term>],
    row: &[Operand],
) -> bool
    ensures { IsTrue result → GivesBy schema.now branch.now part.now rows.now row.now }
{
    let on = Rows { branch, rows };
    are_rows_for(schema, &branch.known, part.from.as_slice(), rows)
        && on.show_all(part.conds.as_slice())
        && on.are_plain(part.conds.as_slice())
        && on.are_head(part.head.as_slice(), row)
}

/// Whether the term may stand in the column.
fn is_filled(known: &Knowledge, column: &Column, term: &Term) -> bool
    ensures { IsTrue result → IsFilled known.now column.now term.now }
{
    column.nullable || known.shown_not_null(term.by_ref())
}

fn are_filled(known: &Knowledge, columns: &[Column], row: &[Term]) -> bool
    ensures { IsTrue result → AllZip (IsFilled known.now) columns.now row.now }
{
    match (columns.split_first(), row.split_first()) {
        (Some((column, columns)), Some((term, row))) => {
            is_filled(known, column, term) && are_filled(known, columns, row)
        }
        (None, None) => true,
        _ => false,
    }
}

/// Whether the terms are a row for the table.
fn is_row_for(schema: &Schema, known: &Knowledge, table: u32, row: &[Term]) -> bool
    ensures { IsTrue result → IsRowFor schema.now known.now table row.now }
{
    match schema.tables.find(table as usize) {
        Some(it) => are_filled(known, it.columns.as_slice(), row),
        None => false,
    }
}

fn are_rows_for(schema: &Schema, known: &Knowledge, from: &[u32], rows: &[List<Term>]) -> bool
    ensures { IsTrue result → AllZip (IsRowFor schema.now known.now) from.now rows.now }
{
    match (from.split_first(), rows.split_first()) {
        (Some((table, from)), Some((row, rows))) => {
            is_row_for(schema, known, *table, row.as_slice())
                && are_rows_for(schema, known, from, rows)
        }
        (None, None) => true,
        _ => false,
    }
}

/// Rows of terms in place of facts.
#[derive(Clone, Copy)]
struct Rows<'a> {
    branch: &'a Branch,
    rows: &'a [List<Term>],
}

impl<'a> Rows<'a> {
    /// What the operand stands for over the rows.
    fn term_of(&self, operand: &'a Operand) -> Option<TermRef<'a>>
        ensures { option_map seen result ≡ term_of self.now.rows.now operand.now }
    {
        match operand {
            Operand::Col(place, column) => self.term_at(*place, *column),
            Operand::Val(value) => Some(TermRef::Val(value)),
            Operand::Param(n) => Some(TermRef::Param(*n)),
            Operand::Var(n) => Some(TermRef::Var(*n)),
        }
    }

    fn term_at(&self, place: u32, column: u32) -> Option<TermRef<'a>>
        ensures { option_map seen result ≡ term_of self.now.rows.now (Col place column) }
    {
        match self.rows.get(place as usize) {
            Some(row) => match row.find(column as usize) {
                Some(term) => Some(term.by_ref()),
                None => None,
            },
            None => None,
        }
    }

    fn show_all(&self, conds: &'a [Atom]) -> bool
        ensures { IsTrue result
            → All (IsShown self.now.branch.now.known self.now.rows.now) conds.now }
    {
        conds.iter().all(|atom| self.show(atom))
    }

    fn show(&self, atom: &'a Atom) -> bool
        ensures { IsTrue result → IsShown self.now.branch.now.known self.now.rows.now atom.now }
    {
        match (self.term_of(&atom.left), self.term_of(&atom.right)) {
            (Some(left), Some(right)) => self.branch.known.shows(atom.op, left, right),
            _ => false,
        }
    }

    fn are_plain(&self, conds: &'a [Atom]) -> bool
        ensures { IsTrue result
            → All (Under (IsPlain self.now.branch.now.known) self.now.rows.now) conds.now }
    {
        conds.iter().all(|atom| self.is_plain(atom))
    }

    fn is_plain(&self, atom: &'a Atom) -> bool
        ensures { IsTrue result
            → Under (IsPlain self.now.branch.now.known) self.now.rows.now atom.now }
    {
        match (self.term_of(&atom.left), self.term_of(&atom.right)) {
            (Some(left), Some(right)) => is_plain_of(self.branch, atom.op, left, right),
            _ => false,
        }
    }

    /// Whether the head is of one class with the row, place by place.
    fn are_head(&self, head: &'a [Operand], row: &'a [Operand]) -> bool
        ensures { IsTrue result
            → IsHeadOf self.now.branch.now.known self.now.rows.now head.now row.now }
    {
        match (head.split_first(), row.split_first()) {
            (Some((operand, head)), Some((value, row))) => {
                self.is_place(operand, value) && self.are_head(head, row)
            }
            (None, None) => true,
            _ => false,
        }
    }

    fn is_place(&self, operand: &'a Operand, value: &'a Operand) -> bool
        ensures { IsTrue result
            → IsHeadPlace self.now.branch.now.known self.now.rows.now operand.now value.now }
    {
        match (self.term_of(operand), self.branch.term_of(&[], value)) {
            (Some(one), Some(other)) => self.branch.known.one_class(one, other),
            _ => false,
        }
    }
}
