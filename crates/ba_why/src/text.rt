//! Values, rows, tables and views in words.
ghost use Rattle.std.specs.Prelude.{All};
ghost use Rattle.ba_model.specs.Fit.{PolicyFits};
ghost use Rattle.ba_model.specs.RuleFaults.{RuleFits};

use crate::page::{VALUE_BYTES, shown};
use ba_facts::{Branch, Fact, Lesson, Side, Term, TermAtom};
use ba_hints::column_name;
use ba_model::{Context, Duplicate, List, Op, Policy, Query, QueryDraft, Table, Value};
use ba_sql_print::print_query;
use std::alloc::{AllocError, Global};

/// A value as a literal of SQL: a text stands between quotes, and a quote inside it is doubled. Of
/// a text no more than `VALUE_BYTES` bytes are shown, as of all that a page has, and not as many
/// characters as of a hint's.
pub fn literal_text(alloc: Global, value: &Value) -> Result<String, AllocError> {
    match value {
        Value::Null => String::from_str(alloc, "NULL"),
        Value::Int(number) => number.to_string(alloc),
        Value::Text(text) => {
            let front = shown(alloc, text.as_str(), VALUE_BYTES)?;
            let inside = front.as_str().replace(alloc, '\'', "''")?;
            format!(in alloc; "'{inside}'")
        }
    }
}

/// A row: its values between brackets.
pub fn row_text(alloc: Global, row: &[Value]) -> Result<String, AllocError> {
    let mut texts = Vec::new(alloc);
    for value in row {
        let text = literal_text(alloc, value)?;
        texts.push(text)?;
    }
    let inside = texts.join(alloc, ", ")?;
    format!(in alloc; "({inside})")
}

/// The values of a policy's parameters in a context, between brackets behind a blank, if there are
/// any.
pub fn context_text(
    alloc: Global,
    policy: &Policy,
    context: &Context,
) -> Result<String, AllocError> {
    let mut texts = Vec::new(alloc);
    for (number, value) in context.values.as_slice().iter().enumerate() {
        if let Some(param) = policy.params.find(number) {
            let value = literal_text(alloc, value)?;
            let text = format!(in alloc; "{} = {value}", param.name)?;
            texts.push(text)?;
        }
    }
    if texts.is_empty() {
        return Ok(String::new(alloc));
    }
    let inside = texts.join(alloc, ", ")?;
    format!(in alloc; " ({inside})")
}

/// A table with its columns.
pub fn table_text(alloc: Global, table: &Table) -> Result<String, AllocError> {
    let mut names = Vec::new(alloc);
    for column in table.columns.as_slice() {
        let name = String::from_str(alloc, column.name.as_str())?;
        names.push(name)?;
    }
    let inside = names.join(alloc, ", ")?;
    format!(in alloc; "{} ({inside})", table.name)
}

/// Columns of a table, between brackets.
pub fn columns_text(
    alloc: Global,
    table: &Table,
    columns: &List<u32>,
) -> Result<String, AllocError> {
    let mut names = Vec::new(alloc);
    for column in columns.as_slice() {
        let name = String::from_str(alloc, column_name(table, *column))?;
        names.push(name)?;
    }
    let inside = names.join(alloc, ", ")?;
    format!(in alloc; "({inside})")
}

/// The name of the cache key of a number, from 0, of a policy: `?` where there is none.
pub fn key_name(policy: &Policy, number: usize) -> &str {
    match policy.keys.find(number) {
        Some(key) => key.name.as_str(),
        None => "?",
    }
}

/// The query of the view of a number, in SQL.
pub fn view_sql(alloc: Global, policy: &Policy, number: usize) -> Result<String, AllocError>
    requires { PolicyFits policy.now }
{
    match policy.views.find(number) {
        Some(view) => print_query(alloc, &policy.schema, &policy.params, &view.query),
        None => Ok(String::new(alloc)),
    }
}

/// A query in SQL; nothing, where it isn't one for the policy.
pub fn query_sql(alloc: Global, policy: &Policy, query: &Query) -> Result<String, AllocError> {
    let draft = QueryDraft {
        parts: query.parts.copy(alloc)?,
    };
    let none = List::new(alloc);
    match Query::check(&policy.schema, &policy.params, &none, draft) {
        Ok(query) => print_query(alloc, &policy.schema, &policy.params, &query),
        Err(_) => Ok(String::new(alloc)),
    }
}

/// What the rule of a number says, with its queries in SQL.
pub fn rule_sql(alloc: Global, policy: &Policy, number: usize) -> Result<String, AllocError>
    requires { All (RuleFits policy.now.schema) policy.now.schema.rules }
{
    let Some(rule) = policy.schema.rules.find(number) else {
        return Ok(String::new(alloc));
    };
    let none = List::new(alloc);
    let left = print_query(alloc, &policy.schema, &none, &rule.left)?;
    let right = print_query(alloc, &policy.schema, &none, &rule.right)?;
    format!(in alloc; "each row of {left} a row of {right}")
}

// A term of a branch: its literal, if it is shown to have one, else a name that it has in common
// with all that are shown equal.
fn term_text(
    alloc: Global,
    policy: &Policy,
    branch: &Branch,
    term: &Term,
) -> Result<String, AllocError> {
    if let Some(value) = branch.literal(term) {
        return literal_text(alloc, value);
    }
    match term {
        Term::Unknown(number) => {
            let least = branch.least_of(*number);
            format!(in alloc; "x{least}")
        }
        Term::Val(value) => literal_text(alloc, value),
        Term::Param(number) => match policy.params.find(*number as usize) {
            Some(param) => format!(in alloc; "?{}", param.name),
            None => String::from_str(alloc, "?"),
        },
        Term::Var(number) => format!(in alloc; "v{number}"),
    }
}

/// Terms of a branch, between brackets.
pub fn terms_text(
    alloc: Global,
    policy: &Policy,
    branch: &Branch,
    terms: &[Term],
) -> Result<String, AllocError> {
    let mut texts = Vec::new(alloc);
    for term in terms {
        let text = term_text(alloc, policy, branch, term)?;
        texts.push(text)?;
    }
    let inside = texts.join(alloc, ", ")?;
    format!(in alloc; "({inside})")
}

/// A fact of a branch: its table and its terms.
pub fn fact_text(
    alloc: Global,
    policy: &Policy,
    branch: &Branch,
    fact: &Fact,
) -> Result<String, AllocError> {
    let terms = terms_text(alloc, policy, branch, fact.terms.as_slice())?;
    match policy.schema.tables.find(fact.table as usize) {
        Some(table) => format!(in alloc; "{} {terms}", table.name),
        None => Ok(terms),
    }
}

/// The facts of a branch from a number on: which database has them. Nothing, where there are none.
pub fn facts_text(
    alloc: Global,
    policy: &Policy,
    branch: &Branch,
    from: usize,
) -> Result<String, AllocError> {
    let mut texts = Vec::new(alloc);
    let mut side = Side::One;
    for fact in branch.facts.as_slice().iter().skip(from) {
        side = fact.side;
        let text = fact_text(alloc, policy, branch, fact)?;
        texts.push(text)?;
    }
    if texts.is_empty() {
        return Ok(String::new(alloc));
    }
    let all = texts.join(alloc, ", ")?;
    match side {
        Side::One => format!(in alloc; "the first has {all}"),
        Side::Two => format!(in alloc; "the second has {all}"),
    }
}

/// A comparison of terms of a branch.
pub fn atom_text(
    alloc: Global,
    policy: &Policy,
    branch: &Branch,
    atom: &TermAtom,
) -> Result<String, AllocError> {
    let left = term_text(alloc, policy, branch, &atom.left)?;
    let right = term_text(alloc, policy, branch, &atom.right)?;
    match atom.op {
        Op::Eq => format!(in alloc; "{left} = {right}"),
        Op::Ne => format!(in alloc; "{left} <> {right}"),
        Op::Lt => format!(in alloc; "{left} < {right}"),
        Op::Le => format!(in alloc; "{left} <= {right}"),
        Op::IsNull => format!(in alloc; "{left} is NULL"),
        Op::NotNull => format!(in alloc; "{left} isn't NULL"),
    }
}

// The comparison that a lesson tells, if it tells one and it is no equation.
fn compared(lesson: &Lesson) -> Option<&TermAtom> {
    match lesson {
        Lesson::Same(_, _) => None,
        Lesson::Holds(atom) => match atom.op {
            Op::Eq => None,
            _ => Some(atom),
        },
    }
}

/// The comparisons that are known in a branch, but for equations, which the names of terms tell.
/// Nothing, where there are none.
pub fn known_text(alloc: Global, policy: &Policy, branch: &Branch) -> Result<String, AllocError> {
    let mut texts = Vec::new(alloc);
    for lesson in branch.known.learned() {
        if let Some(atom) = compared(lesson) {
            let text = atom_text(alloc, policy, branch, atom)?;
            texts.push(text)?;
        }
    }
    if texts.is_empty() {
        return Ok(String::new(alloc));
    }
    let all = texts.join(alloc, ", ")?;
    format!(in alloc; " where {all}")
}
