//! Steps that are told of the pattern in place of the problem.
ghost use Rattle.std.specs.Prelude.{◌≡◌, ◌++◌, ◌↔◌, Any, Contains, IfOk, IsTrue, OnOk, Some, slice_get};
ghost use Rattle.ba_general.specs.Retold.{AreNamed, AreRenumbered, AreWithVariables, IsFirstWith, IsRenumbered, IsSplit, IsStepWith, IsTermWith, NamesOneOf, named};

use ba_facts::{Term, TermAtom, number_of};
use ba_kernel::Step;
use ba_model::{Duplicate, List, Same, Value};
use std::alloc::{AllocError, Global};

/// The numbers of the entries that the steps name, rising, each once.
pub fn named_entries(alloc: Global, steps: &List<Step>) -> Result<Vec<u64>, AllocError>
    ensures { IfOk result (λ it. AreNamed steps.now it.items) }
{
    let mut numbers = Vec::new(alloc);
    for step in steps.as_slice() {
        add_named(&mut numbers, step)?;
    }
    numbers.sort_unstable();
    numbers.dedup();
    Ok(numbers)
}

fn add_named(numbers: &mut Vec<u64>, step: &Step) -> Result<(), AllocError>
    ensures { OnOk result (numbers.new.items ≡ numbers.old.items ++ named step.now) }
{
    if let Step::Entry { entry, .. } = step {
        numbers.push(*entry)?;
    }
    Ok(())
}

/// The steps with each entry's place among the numbers for its number.
pub fn renumbered(
    alloc: Global,
    steps: &List<Step>,
    numbers: &[u64],
) -> Result<List<Step>, AllocError>
    requires { AreNamed steps.now numbers.now }
    ensures { IfOk result (AreRenumbered numbers.now steps.now) }
{
    let mut all = List::new(alloc);
    for step in steps.as_slice() {
        all.push(renumbered_step(alloc, step, numbers)?)?;
    }
    Ok(all)
}

fn renumbered_step(alloc: Global, step: &Step, numbers: &[u64]) -> Result<Step, AllocError>
    requires { NamesOneOf numbers.now step.now }
    ensures { IfOk result (IsRenumbered numbers.now step.now) }
{
    match step {
        Step::Entry { branch, entry } => Ok(Step::Entry {
            branch: *branch,
            entry: place(numbers, *entry),
        }),
        _ => step.copy(alloc),
    }
}

/// The place of the number.
fn place(numbers: &[u64], number: u64) -> u64
    requires { Contains numbers.now number }
    ensures { slice_get numbers.now result ≡ Some number }
{
    for place in 0..numbers.len() {
        if numbers[place] == number {
            return place as u64;
        }
    }
    0
}

/// The steps where in what is split the first variable with an equal value stands for each literal
/// that has one.
pub fn with_variables(
    alloc: Global,
    steps: &List<Step>,
    values: &[Value],
) -> Result<List<Step>, AllocError>
    ensures { IfOk result (AreWithVariables values.now steps.now) }
{
    let mut all = List::new(alloc);
    for step in steps.as_slice() {
        all.push(step_with(alloc, step, values)?)?;
    }
    Ok(all)
}

/// Whether a step splits by an atom.
pub fn has_split(steps: &List<Step>) -> bool
    ensures { IsTrue result ↔ Any IsSplit steps.now }
{
    steps.as_slice().iter().any(|step| is_split(step))
}

fn is_split(step: &Step) -> bool
    ensures { IsTrue result ↔ IsSplit step.now }
{
    matches!(step, Step::Split { .. })
}

fn step_with(alloc: Global, step: &Step, values: &[Value]) -> Result<Step, AllocError>
    ensures { IfOk result (IsStepWith values.now step.now) }
{
    match step {
        Step::Split { branch, atom } => {
            let left = term_with(alloc, &atom.left, values)?;
            let right = term_with(alloc, &atom.right, values)?;
            Ok(Step::Split {
                branch: *branch,
                atom: TermAtom {
                    op: atom.op,
                    left,
                    right,
                },
            })
        }
        _ => step.copy(alloc),
    }
}

fn term_with(alloc: Global, term: &Term, values: &[Value]) -> Result<Term, AllocError>
    ensures { IfOk result (IsTermWith values.now term.now) }
{
    match term {
        Term::Val(value) => match first_with(values, value) {
            Some(place) => Ok(Term::Var(number_of(place)?)),
            None => term.copy(alloc),
        },
        _ => term.copy(alloc),
    }
}

/// The place of the first of the values that is equal.
fn first_with(values: &[Value], value: &Value) -> Option<usize>
    ensures { IsFirstWith values.now value.now result }
{
    for place in 0..values.len() {
        if values[place].same(value) {
            return Some(place);
        }
    }
    None
}
