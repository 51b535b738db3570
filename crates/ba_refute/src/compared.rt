//! Which classes of whole numbers comparisons by `<=` and `<` speak of.
ghost use Rattle.std.specs.Prelude.{◌≡◌, ◌⊎◌, ◌↔◌, ℕ, Contains, IfOk, IsTrue, OnOk};
ghost use Rattle.ba_facts.specs.Known.{OneClass};
ghost use Rattle.ba_refute.specs.Compared.{ComparesClass, HaveCompared, HaveMore, IsOfOrder, TellsOfClass};

use ba_facts::{Knowledge, Lesson, Term, TermAtom};
use ba_model::Op;
use std::alloc::{AllocError, Global};
use std::collections::BTreeSet;

/// Adds the unknown.
fn add(found: &mut BTreeSet<u32>, unknown: u32) -> Result<(), AllocError>
    ensures { OnOk result ((n : ℕ) → Contains found.new.keys n
        ↔ (Contains found.old.keys n ⊎ (n ≡ unknown))) }
{
    found.insert(unknown)?;
    Ok(())
}

/// Adds each of the unknowns.
fn add_all(found: &mut BTreeSet<u32>, unknowns: &[u32]) -> Result<(), AllocError>
    ensures { OnOk result ((n : ℕ) → (Contains found.old.keys n ⊎ Contains unknowns.now n)
        → Contains found.new.keys n) }
{
    for unknown in unknowns {
        add(found, *unknown)?;
    }
    Ok(())
}

/// Adds the least unknown of the term's class, if it is one of whole numbers that is valued.
fn add_class(known: &Knowledge, term: &Term, found: &mut BTreeSet<u32>) -> Result<(), AllocError>
    ensures { OnOk result (HaveMore known.now (λ t. OneClass known.now t term.now) found.old.keys
        found.new.keys) }
{
    match term {
        Term::Unknown(n) => add(found, known.least_of(*n)),
        Term::Val(_) => Ok(()),
        Term::Param(_) | Term::Var(_) => add_all(found, &known.members(term.by_ref())?),
    }
}

fn is_of_order(op: Op) -> bool
    ensures { IsTrue result ↔ IsOfOrder op }
{
    match op {
        Op::Lt | Op::Le => true,
        Op::Eq | Op::Ne | Op::IsNull | Op::NotNull => false,
    }
}

/// Adds those that the atom compares by the order.
fn add_compared(
    known: &Knowledge,
    atom: &TermAtom,
    found: &mut BTreeSet<u32>,
) -> Result<(), AllocError>
    ensures { OnOk result (HaveMore known.now (ComparesClass known.now atom.now) found.old.keys
        found.new.keys) }
{
    if !is_of_order(atom.op) {
        return Ok(());
    }
    add_class(known, &atom.left, found)?;
    add_class(known, &atom.right, found)
}

/// Adds those that the lesson compares by the order.
fn add_told(known: &Knowledge, lesson: &Lesson, found: &mut BTreeSet<u32>) -> Result<(), AllocError>
    ensures { OnOk result (HaveMore known.now (TellsOfClass known.now lesson.now) found.old.keys
        found.new.keys) }
{
    match lesson {
        Lesson::Same(_, _) => Ok(()),
        Lesson::Holds(atom) => add_compared(known, atom, found),
    }
}

/// The least unknowns of the classes of whole numbers that are compared, and maybe other unknowns.
pub(crate) fn compared(alloc: Global, known: &Knowledge) -> Result<BTreeSet<u32>, AllocError>
    ensures { IfOk result (λ it. HaveCompared known.now it.keys) }
{
    let mut found = BTreeSet::new(alloc);
    for lesson in known.learned() {
        add_told(known, lesson, &mut found)?;
    }
    Ok(found)
}
