//! Numbers for classes of unknowns.
ghost use Rattle.std.specs.Prelude.{◌≡◌, IfOk};
ghost use Rattle.ba_classes.specs.Image.{IsGreatest, IsLeast};
ghost use Rattle.ba_facts.specs.Knowing.{IsRising};
ghost use Rattle.ba_facts.specs.declared.term.Term.TheVariants.{Unknown};
ghost use Rattle.ba_refute.specs.Compared.{HaveCompared, IsNumbered};
ghost use Rattle.ba_refute.specs.Images.{AreNodes, AreNumbers, IsLowerBound, IsNode, IsNumberOf, IsUpperBound};

use crate::compared::compared;
use crate::used::Used;
use ba_classes::image::{difference, greater, lesser, sum};
use ba_facts::{Knowledge, Term, TermRef};
use ba_model::Value;
use std::alloc::{AllocError, Global};
use std::collections::BTreeSet;

/// The greatest lower bound of the unknown that the values of some terms show.
fn lower_bound(
    known: &Knowledge,
    valued: &[(Term, i128)],
    n: u32,
) -> Result<Option<i128>, AllocError>
    requires { ¬ (IsRising known.now) }
    ensures { IfOk result (IsGreatest (IsLowerBound known.now valued.now (Unknown n))) }
{
    let mut bound = None;
    for (other, value) in valued {
        if let Some(gap) = known.bound(other.by_ref(), TermRef::Unknown(n)) {
            bound = greater(bound, sum(*value, gap)?);
        }
    }
    Ok(bound)
}

/// The least upper bound of the unknown that the values of some terms show.
fn upper_bound(
    known: &Knowledge,
    valued: &[(Term, i128)],
    n: u32,
) -> Result<Option<i128>, AllocError>
    requires { ¬ (IsRising known.now) }
    ensures { IfOk result (IsLeast (IsUpperBound known.now valued.now (Unknown n))) }
{
    let mut bound = None;
    for (other, value) in valued {
        if let Some(gap) = known.bound(TermRef::Unknown(n), other.by_ref()) {
            bound = lesser(bound, difference(*value, gap)?);
        }
    }
    Ok(bound)
}

/// The value of the unknown, where some terms have values and some numbers are used.
fn number(
    known: &Knowledge,
    valued: &[(Term, i128)],
    used: &mut Used,
    n: u32,
) -> Result<i128, AllocError>
    requires { ¬ (IsRising known.now) }
    ensures value { IfOk result (IsNumberOf known.now valued.now used.old (Unknown n)) }
    ensures used { used.new ≡ used.old }
{
    let low = lower_bound(known, valued, n)?;
    let high = upper_bound(known, valued, n)?;
    used.value_between(low, high)
}

/// The value of an unknown that is compared, which is valued from then on.
fn compared_number(
    known: &Knowledge,
    valued: &mut Vec<(Term, i128)>,
    used: &mut Used,
    n: u32,
) -> Result<i128, AllocError>
    requires { ¬ (IsRising known.now) }
    ensures value { IfOk result (λ value.
        IsNumbered known.now used.old n valued.old.items value valued.new.items) }
    ensures used { used.new ≡ used.old }
{
    let value = number(known, valued, used, n)?;
    valued.push((Term::Unknown(n), value))?;
    Ok(value)
}

/// The value of the next node. One that isn't compared has no bounds, and is none for others.
fn next_number(
    known: &Knowledge,
    compared: &BTreeSet<u32>,
    valued: &mut Vec<(Term, i128)>,
    used: &mut Used,
    n: u32,
) -> Result<i128, AllocError>
    requires order { ¬ (IsRising known.now) }
    requires compared { HaveCompared known.now compared.now.keys }
    requires node { IsNode known.now n }
    ensures value { IfOk result (λ value.
        IsNumbered known.now used.old n valued.old.items value valued.new.items) }
    ensures used { used.new ≡ used.old }
{
    if compared.contains(&n) {
        compared_number(known, valued, used, n)
    } else {
        used.least()
    }
}

/// Numbers for the nodes, one after another. `AllocError` also where one would pass 128 bits.
pub(crate) fn node_numbers(
    alloc: Global,
    known: &Knowledge,
    nodes: &[u32],
    used: &[i128],
) -> Result<Vec<i128>, AllocError>
    requires order { ¬ (IsRising known.now) }
    requires nodes { AreNodes known.now nodes.now }
    ensures { IfOk result (λ it. AreNumbers known.now used.now nodes.now it.items) }
{
    let compared = compared(alloc, known)?;
    let mut valued = Vec::new(alloc);
    valued.push((Term::Val(Value::Int(0)), 0))?;
    let mut taken = Used::of(alloc, used)?;
    let mut numbers = Vec::new(alloc);
    for n in nodes {
        let value = next_number(known, &compared, &mut valued, &mut taken, *n)?;
        taken.add(value)?;
        numbers.push(value)?;
    }
    Ok(numbers)
}
