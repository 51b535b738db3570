//! The test of a step that splits a branch by an atom.
ghost use Rattle.std.specs.Prelude.{◌≡◌, ◌↔◌, IsTrue, MatchOption, option_map, slice_get};
ghost use Rattle.ba_kernel.specs.Steps.{AreOfKind, MayBeSplit, SidesAreThere, SomeKind, SplitPasses, SplitRefuses};
ghost use Rattle.ba_kernel.specs.SearchStates.{Tested};
ghost use Rattle.ba_facts.specs.Knowing.{IsThere};
ghost use Rattle.ba_facts.specs.Laws.{TermOpFits, kind_of_term};
ghost use Rattle.ba_facts.specs.Shown.{NeitherNull};

use crate::step::StepFault;
use ba_facts::{Branch, Term, TermAtom};
use ba_model::{Kind, Op, Same, Value};

/// Whether the atom may be split.
pub fn test_split(branch: &Branch, atom: &TermAtom) -> Result<(), StepFault>
    ensures { Tested (SplitPasses branch.now atom.now) (SplitRefuses branch.now atom.now) result }
{
    if !sides_are_there(branch, atom) {
        return Err(StepFault::BadFact);
    }
    if split_fits(branch, atom) {
        Ok(())
    } else {
        Err(StepFault::BadRule)
    }
}

fn sides_are_there(branch: &Branch, atom: &TermAtom) -> bool
    ensures { IsTrue result ↔ SidesAreThere branch.now atom.now }
{
    is_there(branch, &atom.left) && is_there(branch, &atom.right)
}

/// Whether the term is no unknown past those that are there.
fn is_there(branch: &Branch, term: &Term) -> bool
    ensures { IsTrue result ↔ IsThere branch.now.known term.now }
{
    match term {
        Term::Unknown(n) => (*n as usize) < branch.known.unknowns().len(),
        Term::Val(_) => true,
        Term::Param(_) => true,
        Term::Var(_) => true,
    }
}

/// Whether the sides are of one kind that the comparison is of, and it may be split.
fn split_fits(branch: &Branch, atom: &TermAtom) -> bool
    ensures { IsTrue result ↔ SplitPasses branch.now atom.now }
{
    match kind_of_sides(branch, atom) {
        Some(kind) => op_fits(atom.op, kind) && may_be_split(branch, atom),
        None => false,
    }
}

/// The kind of both sides, if they have one.
fn kind_of_sides(branch: &Branch, atom: &TermAtom) -> Option<Kind>
    ensures { MatchOption result (¬ (SomeKind branch.now atom.now))
        (AreOfKind branch.now atom.now) }
{
    let left = kind_of_term(branch, &atom.left)?;
    let right = kind_of_term(branch, &atom.right)?;
    if left.same(&right) { Some(left) } else { None }
}

/// The kind of a term, if it is there and isn't NULL.
fn kind_of_term(branch: &Branch, term: &Term) -> Option<Kind>
    ensures { result ≡ kind_of_term branch.now term.now }
{
    match term {
        Term::Unknown(n) => kind_of_unknown(branch, *n as usize),
        Term::Val(Value::Null) => None,
        Term::Val(Value::Int(_)) => Some(Kind::Int),
        Term::Val(Value::Text(_)) => Some(Kind::Text),
        Term::Param(n) => branch.params.find(*n as usize).copied(),
        Term::Var(n) => branch.vars.find(*n as usize).copied(),
    }
}

fn kind_of_unknown(branch: &Branch, number: usize) -> Option<Kind>
    ensures { result ≡ option_map (λ sort. sort.kind) (slice_get branch.now.known.unknowns number) }
{
    match branch.known.unknowns().get(number) {
        Some(sort) => Some(sort.kind),
        None => None,
    }
}

/// Whether terms of the kind may be compared so: order is of whole numbers alone.
fn op_fits(op: Op, kind: Kind) -> bool
    ensures { IsTrue result ↔ TermOpFits op kind }
{
    match op {
        Op::Eq => true,
        Op::Ne => true,
        Op::Lt => kind == Kind::Int,
        Op::Le => kind == Kind::Int,
        Op::IsNull => true,
        Op::NotNull => true,
    }
}

/// Whether sides that are compared aren't null, or the right one of IS NULL or IS NOT NULL repeats
/// the left.
fn may_be_split(branch: &Branch, atom: &TermAtom) -> bool
    ensures { IsTrue result ↔ MayBeSplit branch.now atom.now.op atom.now.left atom.now.right }
{
    match atom.op {
        Op::Eq => neither_null(branch, atom),
        Op::Ne => neither_null(branch, atom),
        Op::Lt => neither_null(branch, atom),
        Op::Le => neither_null(branch, atom),
        Op::IsNull => atom.right.same(&atom.left),
        Op::NotNull => atom.right.same(&atom.left),
    }
}

/// Whether both sides are shown not null.
pub fn neither_null(branch: &Branch, atom: &TermAtom) -> bool
    ensures { IsTrue result ↔ NeitherNull branch.now.known atom.now.left atom.now.right }
{
    branch.known.shown_not_null(atom.left.by_ref())
        && branch.known.shown_not_null(atom.right.by_ref())
}
