//! Questions that are refuted, with the views that would cover them.

use crate::finding::Finding;
use crate::fits::{Field, Fits};
use crate::report::{File, Report};
use ba_direct::cover;
use ba_hints::{Spot, column_name, literal_text};
use ba_model::{
    Atom, Context, Duplicate, List, Operand, Part, Policy, Query, QueryDraft, Same, Value,
};
use ba_sql_print::print_query;
use std::alloc::{AllocError, Global};

/// A question that was blocked as refuted: the line of the script at which it stands, from 1, its
/// query and its request's context.
#[derive(Clone, Copy)]
pub struct Refuted<'a> {
    pub line: u64,
    pub query: &'a Query,
    pub context: &'a Context,
}

// What literals of a refuted question are taken for, under its context.
#[derive(Drop)]
struct Reading<'a> {
    alloc: Global,
    policy: &'a Policy,
    context: &'a Context,
    fits: Fits<'a>,
    // Which literals that are a parameter's value too stand for themselves alone, in words.
    kept: Vec<String>,
}

impl Reading<'_> {
    // The first parameter of that value that a column is tied to, by its number.
    fn param_of(&self, field: Field, value: &Value) -> Option<u32> {
        for (it, number) in self.context.values.as_slice().iter().zip(0..u32::MAX) {
            if it.same(value) && self.fits.ties(field, number) {
                return Some(number);
            }
        }
        None
    }

    // A side of a condition; in place of a literal the parameter that it is taken for.
    fn side(
        &mut self,
        part: &Part,
        side: &Operand,
        other: &Operand,
    ) -> Result<Operand, AllocError> {
        let (Operand::Val(value), Some(field)) = (side, Field::of(part, other)) else {
            return side.copy(self.alloc);
        };
        if let Some(number) = self.param_of(field, value) {
            return Ok(Operand::Param(number));
        }
        if !self.fits.has_constant(field, value) {
            self.keep(field, value)?;
        }
        side.copy(self.alloc)
    }

    // Says of each parameter that has the value of a literal that it isn't taken for that.
    fn keep(&mut self, field: Field, value: &Value) -> Result<(), AllocError> {
        for (number, it) in self.context.values.as_slice().iter().enumerate() {
            if it.same(value) {
                let text = kept_text(self.alloc, self.policy, field, value, number)?;
                self.push_kept(text)?;
            }
        }
        Ok(())
    }

    // Adds what is said, if it isn't there.
    fn push_kept(&mut self, text: String) -> Result<(), AllocError> {
        let is_there = self
            .kept
            .iter()
            .any(|other| other.as_str() == text.as_str());
        if !is_there {
            self.kept.push(text)?;
        }
        Ok(())
    }

    fn push_conds(&mut self, part: &Part, conds: &mut List<Atom>) -> Result<(), AllocError> {
        for atom in part.conds.as_slice() {
            let left = self.side(part, &atom.left, &atom.right)?;
            let right = self.side(part, &atom.right, &atom.left)?;
            let op = atom.op;
            conds.push(Atom { op, left, right })?;
        }
        Ok(())
    }

    // A part with parameters in place of the literals of its conditions that are taken for them.
    fn part(&mut self, part: &Part) -> Result<Part, AllocError> {
        let mut conds = List::new(self.alloc);
        self.push_conds(part, &mut conds)?;
        let mut wide = part.copy(self.alloc)?;
        wide.conds = conds;
        Ok(wide)
    }
}

// That a literal stands for itself, and not for the parameter of a number, which has its value.
fn kept_text(
    alloc: Global,
    policy: &Policy,
    field: Field,
    value: &Value,
    number: usize,
) -> Result<String, AllocError> {
    let (Some(table), Some(param)) = (
        policy.schema.tables.find(field.table as usize),
        policy.params.find(number),
    ) else {
        return Ok(String::new(alloc));
    };
    let literal = literal_text(alloc, value)?;
    let column = column_name(table, field.column);
    let (table, param) = (&table.name, &param.name);
    format!(in alloc;
        "{literal} stands for that value alone, though ?{param} has it too: no view or link ties {table}.{column} to ?{param}"
    )
}

// The list of a part alone.
fn only(part: Part, alloc: Global) -> Result<List<Part>, AllocError> {
    let mut parts = List::new(alloc);
    parts.push(part)?;
    Ok(parts)
}

// Whether views of the policy cover a part.
fn is_covered(
    alloc: Global,
    policy: &Policy,
    context: &Context,
    part: &Part,
) -> Result<bool, AllocError> {
    let copy = part.copy(alloc)?;
    let parts = only(copy, alloc)?;
    let found = cover(alloc, policy, context, &Query { parts })?;
    Ok(found.is_some())
}

// A statement that makes a view of a part, if it is one of the schema and the parameters.
fn view_text(alloc: Global, policy: &Policy, name: &str, part: Part) -> Result<String, AllocError> {
    let parts = only(part, alloc)?;
    let variables = List::new(alloc);
    let draft = QueryDraft { parts };
    let Ok(query) = Query::check(&policy.schema, &policy.params, &variables, draft) else {
        return Ok(String::new(alloc));
    };
    let sql = print_query(alloc, &policy.schema, &policy.params, &query)?;
    format!(in alloc; "CREATE VIEW {name} AS {sql};")
}

// The name of the view for a part of the question at a line.
fn name_of(alloc: Global, line: u64, count: usize, number: usize) -> Result<String, AllocError> {
    if count <= 1 {
        return format!(in alloc; "Line{line}");
    }
    let number = number.saturating_add(1);
    format!(in alloc; "Line{line}Part{number}")
}

// Statements that make a view for each part of a question that no view covers.
fn views_text(reading: &mut Reading<'_>, question: &Refuted<'_>) -> Result<String, AllocError> {
    let alloc = reading.alloc;
    let policy = reading.policy;
    let mut texts = Vec::new(alloc);
    let count = question.query.parts.len();
    for (number, part) in question.query.parts.as_slice().iter().enumerate() {
        let is_covered = is_covered(alloc, policy, question.context, part)?;
        if !is_covered {
            let name = name_of(alloc, question.line, count, number)?;
            let part = reading.part(part)?;
            let text = view_text(alloc, policy, name.as_str(), part)?;
            texts.push(text)?;
        }
    }
    texts.join(alloc, " ")
}

/// Finds that a question of a script is refuted, with the least views that would cover it: itself,
/// part by part. A literal of its conditions that is compared with a column is taken for the first
/// parameter whose value it is in the request's context and which the policy ties the column to. Of
/// one that isn't, though it is a parameter's value, this is said, unless a view compares the
/// column with that literal.
pub fn find_refuted(
    report: &mut Report,
    script: File<'_>,
    policy: &Policy,
    question: &Refuted<'_>,
) -> Result<(), AllocError> {
    let alloc = report.alloc;
    let mut reading = Reading {
        alloc,
        policy,
        context: question.context,
        fits: Fits::of(alloc, policy)?,
        kept: Vec::new(alloc),
    };
    let views = views_text(&mut reading, question)?;
    let kept = reading.kept.join(alloc, "; ")?;
    let finding = Finding::Refuted {
        views: views.as_str(),
        kept: kept.as_str(),
    };
    report.add(script, Spot::Line(question.line), &finding)
}
