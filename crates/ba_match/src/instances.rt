//! A template's steps for a question that it matches.
ghost use Rattle.std.specs.Prelude.{◌≡◌, ◌≤◌, IfOk, IfSome, length, map, slice_get, take};
ghost use Rattle.ba_match.specs.Instances.{atom_with, instance_of, number_at, number_in, rows_before, step_with, steps_with, term_with, variable_with};

use ba_comply::Trace;
use ba_facts::{Term, TermAtom};
use ba_kernel::Step;
use ba_model::{Duplicate, List, Value};
use ba_template::{Match, Template};
use std::alloc::{AllocError, Global};

fn variable_with(alloc: Global, values: &[Value], n: u32) -> Result<Term, AllocError>
    ensures { IfOk result (λ it. it ≡ variable_with n (slice_get values.now n)) }
{
    match values.get(n as usize) {
        Some(value) => Ok(Term::Val(value.copy(alloc)?)),
        None => Ok(Term::Var(n)),
    }
}

/// The term with these values for variables.
fn term_with(alloc: Global, values: &[Value], term: &Term) -> Result<Term, AllocError>
    ensures { IfOk result (λ it. it ≡ term_with values.now term.now) }
{
    match term {
        Term::Unknown(n) => Ok(Term::Unknown(*n)),
        Term::Val(value) => Ok(Term::Val(value.copy(alloc)?)),
        Term::Param(n) => Ok(Term::Param(*n)),
        Term::Var(n) => variable_with(alloc, values, *n),
    }
}

fn atom_with(alloc: Global, values: &[Value], atom: &TermAtom) -> Result<TermAtom, AllocError>
    ensures { IfOk result (λ it. it ≡ atom_with values.now atom.now) }
{
    let left = term_with(alloc, values, &atom.left)?;
    let right = term_with(alloc, values, &atom.right)?;
    Ok(TermAtom {
        op: atom.op,
        left,
        right,
    })
}

fn number_in(numbers: &[u64], entry: u64) -> u64
    ensures { result ≡ number_in numbers.now entry }
{
    match numbers.get(entry as usize) {
        Some(number) => *number,
        None => entry,
    }
}

#[tactic(auto, unfolding(crate::specs::Instances::step_with))]
fn step_with(
    alloc: Global,
    values: &[Value],
    numbers: &[u64],
    step: &Step,
) -> Result<Step, AllocError>
    ensures { IfOk result (λ it. it ≡ step_with values.now numbers.now step.now) }
{
    match step {
        Step::Entry { branch, entry } => Ok(Step::Entry {
            branch: *branch,
            entry: number_in(numbers, *entry),
        }),
        Step::Split { branch, atom } => Ok(Step::Split {
            branch: *branch,
            atom: atom_with(alloc, values, atom)?,
        }),
        _ => step.copy(alloc),
    }
}

/// The steps with these values for variables, and these numbers for entries.
pub(crate) fn steps_with(
    alloc: Global,
    values: &[Value],
    numbers: &[u64],
    steps: &[Step],
) -> Result<List<Step>, AllocError>
    ensures { IfOk result (λ it. it ≡ steps_with values.now numbers.now steps.now) }
{
    let mut all = Vec::with_capacity(alloc, steps.len())?;
    for step in steps {
        all.push(step_with(alloc, values, numbers, step)?)?;
    }
    Ok(List::from_vec(all))
}

/// The count, or the number of the trace's entries where it is less.
fn count_within(trace: &Trace, count: u64) -> u64
    ensures within { result ≤ length trace.now }
    ensures same { take result trace.now ≡ take count trace.now }
{
    let all = trace.len();
    if count < all { count } else { all }
}

/// How many rows the first entries have, if that is a number of 64 bits.
fn rows_before(trace: &Trace, count: u64) -> Option<u64>
    ensures { IfSome result (λ it. it ≡ rows_before trace.now count) }
{
    let mut sum: u64 = 0;
    for t in 0..count_within(trace, count) {
        sum = sum.checked_add(trace.entry(t).rows.len() as u64)?;
    }
    Some(sum)
}

/// The number of the row at a place, if it is one of 64 bits.
fn number_at(trace: &Trace, place: (u64, u64)) -> Option<u64>
    ensures { IfSome result (λ it. it ≡ number_at trace.now place) }
{
    rows_before(trace, place.0)?.checked_add(place.1)
}

fn numbers_at(alloc: Global, trace: &Trace, places: &[(u64, u64)]) -> Result<Vec<u64>, AllocError>
    ensures { IfOk result (λ it. it.items ≡ map (number_at trace.now) places.now) }
{
    let mut numbers = Vec::with_capacity(alloc, places.len())?;
    for place in places {
        let Some(number) = number_at(trace, *place) else {
            return Err(AllocError);
        };
        numbers.push(number)?;
    }
    Ok(numbers)
}

/// The template's steps for a question that it matches after the trace, in the question's own
/// problem ([`ba_kernel::Problem::of`]): the match's values stand for the variables, and for each
/// entry of the template the number of the row at its place, counted over the trace's rows.
///
/// Whether these steps close that problem [`crate::closes_question`] tells. The time is linear in
/// the steps, and for each place in the trace's entries before it. An error is want of memory, or
/// that the trace has 2^64 rows or more.
pub fn instance(
    alloc: Global,
    template: &Template,
    found: &Match,
    trace: &Trace,
) -> Result<List<Step>, AllocError>
    ensures { IfOk result (λ it. it ≡ instance_of found.now trace.now template.now.steps) }
{
    let numbers = numbers_at(alloc, trace, found.places.as_slice())?;
    let values = found.values.as_slice();
    let steps = template.steps();
    steps_with(alloc, values, numbers.as_slice(), steps.as_slice())
}
