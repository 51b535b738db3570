//! The literals that the values of an image look at.
ghost use Rattle.std.specs.Prelude.{◌≡◌, ◌++◌, All, IfOk, List as Sequence, OnOk, map};
ghost use Rattle.std.specs.List.{flat_map};
ghost use Rattle.ba_model.specs.declared.value.Value.{Value as Literal};
ghost use Rattle.ba_refute.specs.Counterexamples.{IsNumber};
ghost use Rattle.ba_refute.specs.Images.{literals, literals_of_atom, literals_of_branch, literals_of_entry, literals_of_fact, literals_of_lesson, literals_of_operand, literals_of_part, literals_of_problem, literals_of_query, literals_of_rule, literals_of_term, literals_of_term_atom, literals_of_view, number_of_value, numbers_of};

use ba_facts::{Branch, Fact, Lesson, Term, TermAtom};
use ba_kernel::{Problem, ProblemEntry};
use ba_model::{Atom, List, Operand, Part, Query, Rule, Shared, Value, View};
use std::alloc::{AllocError, Global};

/// What literals stand in.
pub(crate) trait HasLiterals {
    ghost literals: { Self → Sequence Literal };

    /// Adds its literals, in order.
    fn add_to<'a>(&'a self, found: &mut Vec<&'a Value>) -> Result<(), AllocError>
        ensures { OnOk result (map (λ v. v.now) found.new.items ≡ map (λ v. v.now) found.old.items ++ Self.literals self.now) };
}

/// Adds the literals of each.
fn add_all<'a, T: HasLiterals>(each: &'a [T], found: &mut Vec<&'a Value>) -> Result<(), AllocError>
    ensures { OnOk result (map (λ v. v.now) found.new.items ≡ map (λ v. v.now) found.old.items
        ++ flat_map T.literals each.now) }
{
    for one in each {
        one.add_to(found)?;
    }
    Ok(())
}

impl<T: HasLiterals> HasLiterals for List<T> {
    ghost literals = { flat_map T.literals };

    fn add_to<'a>(&'a self, found: &mut Vec<&'a Value>) -> Result<(), AllocError> {
        add_all(self.as_slice(), found)
    }
}

impl<T: HasLiterals> HasLiterals for Shared<T> {
    ghost literals = { T.literals };

    fn add_to<'a>(&'a self, found: &mut Vec<&'a Value>) -> Result<(), AllocError> {
        let own: &'a T = self;
        own.add_to(found)
    }
}

impl HasLiterals for Operand {
    ghost literals = { literals_of_operand };

    fn add_to<'a>(&'a self, found: &mut Vec<&'a Value>) -> Result<(), AllocError> {
        match self {
            Operand::Val(value) => {
                found.push(value)?;
                Ok(())
            }
            _ => Ok(()),
        }
    }
}

impl HasLiterals for Atom {
    ghost literals = { literals_of_atom };

    fn add_to<'a>(&'a self, found: &mut Vec<&'a Value>) -> Result<(), AllocError> {
        self.left.add_to(found)?;
        self.right.add_to(found)
    }
}

impl HasLiterals for Part {
    ghost literals = { literals_of_part };

    fn add_to<'a>(&'a self, found: &mut Vec<&'a Value>) -> Result<(), AllocError> {
        self.conds.add_to(found)?;
        self.head.add_to(found)
    }
}

impl HasLiterals for Query {
    ghost literals = { literals_of_query };

    fn add_to<'a>(&'a self, found: &mut Vec<&'a Value>) -> Result<(), AllocError> {
        self.parts.add_to(found)
    }
}

impl HasLiterals for View {
    ghost literals = { literals_of_view };

    fn add_to<'a>(&'a self, found: &mut Vec<&'a Value>) -> Result<(), AllocError> {
        self.query.add_to(found)
    }
}

impl HasLiterals for Rule {
    ghost literals = { literals_of_rule };

    fn add_to<'a>(&'a self, found: &mut Vec<&'a Value>) -> Result<(), AllocError> {
        self.left.add_to(found)?;
        self.right.add_to(found)
    }
}

impl HasLiterals for ProblemEntry {
    ghost literals = { literals_of_entry };

    fn add_to<'a>(&'a self, found: &mut Vec<&'a Value>) -> Result<(), AllocError> {
        self.query.add_to(found)?;
        self.row.add_to(found)
    }
}

impl HasLiterals for Term {
    ghost literals = { literals_of_term };

    fn add_to<'a>(&'a self, found: &mut Vec<&'a Value>) -> Result<(), AllocError> {
        match self {
            Term::Val(value) => {
                found.push(value)?;
                Ok(())
            }
            _ => Ok(()),
        }
    }
}

impl HasLiterals for TermAtom {
    ghost literals = { literals_of_term_atom };

    fn add_to<'a>(&'a self, found: &mut Vec<&'a Value>) -> Result<(), AllocError> {
        self.left.add_to(found)?;
        self.right.add_to(found)
    }
}

impl HasLiterals for Lesson {
    ghost literals = { literals_of_lesson };

    fn add_to<'a>(&'a self, found: &mut Vec<&'a Value>) -> Result<(), AllocError> {
        match self {
            Lesson::Same(a, b) => {
                a.add_to(found)?;
                b.add_to(found)
            }
            Lesson::Holds(atom) => atom.add_to(found),
        }
    }
}

impl HasLiterals for Fact {
    ghost literals = { literals_of_fact };

    fn add_to<'a>(&'a self, found: &mut Vec<&'a Value>) -> Result<(), AllocError> {
        self.terms.add_to(found)
    }
}

impl HasLiterals for Problem {
    ghost literals = { literals_of_problem };

    fn add_to<'a>(&'a self, found: &mut Vec<&'a Value>) -> Result<(), AllocError> {
        self.policy.schema.rules.add_to(found)?;
        self.policy.views.add_to(found)?;
        self.goal.add_to(found)?;
        self.entries.add_to(found)?;
        self.assumed.add_to(found)
    }
}

impl HasLiterals for Branch {
    ghost literals = { literals_of_branch };

    fn add_to<'a>(&'a self, found: &mut Vec<&'a Value>) -> Result<(), AllocError> {
        add_all(self.known.learned(), found)?;
        self.facts.add_to(found)?;
        self.goal.add_to(found)
    }
}

/// The literals of a problem and a branch.
pub(crate) fn literals<'a>(
    alloc: Global,
    problem: &'a Problem,
    branch: &'a Branch,
) -> Result<Vec<&'a Value>, AllocError>
    ensures { IfOk result
        (λ found. map (λ v. v.now) found.items ≡ literals problem.now branch.now) }
{
    let mut found = Vec::new(alloc);
    problem.add_to(&mut found)?;
    branch.add_to(&mut found)?;
    Ok(found)
}

/// The whole numbers among some values, in order.
pub(crate) fn numbers(alloc: Global, values: &[&Value]) -> Result<Vec<i128>, AllocError>
    ensures value { IfOk result (λ it. it.items ≡ numbers_of (map (λ v. v.now) values.now)) }
    ensures stored { IfOk result (λ it. All IsNumber it.items) }
{
    let mut numbers = Vec::new(alloc);
    for value in values {
        add_number(value, &mut numbers)?;
    }
    Ok(numbers)
}

fn add_number(value: &Value, numbers: &mut Vec<i128>) -> Result<(), AllocError>
    ensures value { OnOk result
        (numbers.new.items ≡ numbers.old.items ++ number_of_value value.now) }
    ensures stored { OnOk result (All IsNumber (number_of_value value.now)) }
{
    match value {
        Value::Int(n) => {
            numbers.push(*n as i128)?;
            Ok(())
        }
        _ => Ok(()),
    }
}
