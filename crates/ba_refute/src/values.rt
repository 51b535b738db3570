//! Values for the unknowns of a branch.
ghost use Rattle.std.specs.Prelude.{◌≡◌, ℕ, ◌<◌, Contains, IfOk, List as Sequence, MatchOption, Some, length, slice_get};
ghost use Rattle.std.specs.List.{zip};
ghost use Rattle.std.specs.List.Sorted.{IsStrictlySortedBy};
ghost use Rattle.std.specs.Ordering.{nat_cmp};
ghost use Rattle.ba_facts.specs.Shown.{Absurd};
ghost use Rattle.ba_model.specs.declared.value.Value.{Value as Plain};
ghost use Rattle.ba_refute.specs.Images.{AreNodes, AreValues, HasNoLiteral, IsClassValue, IsLeastUnknown, IsMarks, IsValueOf, literals};
ghost use Rattle.ba_refute.specs.OfEquations.{AreSmall};

use crate::literals::{literals, numbers};
use crate::numbers::node_numbers;
use crate::texts::{marks, text_value};
use crate::unknowns::{is_of_kind, nodes};
use crate::wide::WideValue;
use ba_facts::{Branch, Knowledge, TermRef, number_of};
use ba_kernel::Problem;
use ba_model::Kind;
use std::alloc::{AllocError, Global};

/// The number of a node, if it is one.
fn number_at(nodes: &[u32], numbers: &[i128], n: u32) -> Option<i128>
    requires rising { IsStrictlySortedBy nat_cmp nodes.now }
    requires numbered { length numbers.now ≡ length nodes.now }
    ensures { MatchOption result (¬ (Contains nodes.now n))
        (λ number. Contains (zip nodes.now numbers.now) (n, number)) }
{
    match nodes.binary_search(&n) {
        Ok(i) => Some(numbers[i]),
        Err(_) => None,
    }
}

/// The value of a class by its least unknown.
fn class_value(
    alloc: Global,
    known: &Knowledge,
    marks: usize,
    nodes: &[u32],
    numbers: &[i128],
    least: u32,
) -> Result<WideValue, AllocError>
    requires nodes { AreNodes known.now nodes.now }
    requires numbered { length numbers.now ≡ length nodes.now }
    requires is_least { IsLeastUnknown known.now least }
    ensures { IfOk result (λ v. (all : Sequence Plain) → IsMarks all marks
        → IsClassValue known.now all nodes.now numbers.now least v) }
{
    match known.literal(TermRef::Unknown(least)) {
        Some(value) => WideValue::of(alloc, value),
        None => open_value(alloc, known, marks, nodes, numbers, least),
    }
}

/// That of one without a literal.
fn open_value(
    alloc: Global,
    known: &Knowledge,
    marks: usize,
    nodes: &[u32],
    numbers: &[i128],
    least: u32,
) -> Result<WideValue, AllocError>
    requires nodes { AreNodes known.now nodes.now }
    requires numbered { length numbers.now ≡ length nodes.now }
    requires is_least { IsLeastUnknown known.now least }
    requires open { HasNoLiteral known.now least }
    ensures { IfOk result (λ v. (all : Sequence Plain) → IsMarks all marks
        → IsClassValue known.now all nodes.now numbers.now least v) }
{
    if !known.shown_not_null(TermRef::Unknown(least)) {
        return Ok(WideValue::null());
    }
    if is_of_kind(known, Kind::Text, least) {
        return text_value(alloc, marks, least);
    }
    match number_at(nodes, numbers, least) {
        Some(number) => Ok(WideValue::number(number)),
        None => unreachable!(),
    }
}

/// The values of all unknowns.
fn all_values(
    alloc: Global,
    known: &Knowledge,
    marks: usize,
    nodes: &[u32],
    numbers: &[i128],
) -> Result<Vec<WideValue>, AllocError>
    requires nodes { AreNodes known.now nodes.now }
    requires numbered { length numbers.now ≡ length nodes.now }
    ensures len { IfOk result (λ it. length it.items ≡ length known.now.unknowns) }
    ensures each { IfOk result (λ it. (all : Sequence Plain) → IsMarks all marks
        → (n : ℕ) (v : Plain) → slice_get it.items n ≡ Some v
        → IsValueOf known.now all nodes.now numbers.now n v) }
{
    let count = number_of(known.unknowns().len())?;
    let mut values = Vec::with_capacity(alloc, count as usize)?;
    for n in 0..count {
        let least = known.least_of(n);
        values.push(class_value(alloc, known, marks, nodes, numbers, least)?)?;
    }
    Ok(values)
}

/// The values that the unknowns of the branch have in its image.
pub(crate) fn values(
    alloc: Global,
    problem: &Problem,
    branch: &Branch,
) -> Result<Vec<WideValue>, AllocError>
    requires { ¬ (Absurd branch.now.known) }
    ensures image { IfOk result
        (λ it. AreValues branch.now.known (literals problem.now branch.now) it.items) }
    ensures small { IfOk result (λ _. AreSmall problem.now branch.now) }
{
    let all = literals(alloc, problem, branch)?;
    let marks = marks(&all)?;
    let used = numbers(alloc, &all)?;
    let nodes = nodes(alloc, &branch.known)?;
    let numbers = node_numbers(alloc, &branch.known, &nodes, &used)?;
    all_values(alloc, &branch.known, marks, &nodes, &numbers)
}
