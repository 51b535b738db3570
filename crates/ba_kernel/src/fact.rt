//! The facts of a branch by number.
ghost use Rattle.std.specs.Prelude.{◌≡◌, ◌<◌, IfOk, Some, length, slice_get};
ghost use Rattle.std.specs.Option.{option_copied};

use ba_facts::{Branch, Fact};
use ba_model::{Duplicate, Shared};
use std::alloc::{AllocError, Global};

/// The fact of the number, which is there.
#[inline(always)]
pub fn fact_at(branch: &Branch, number: usize) -> &Fact
    requires { number < length branch.now.facts }
    ensures { slice_get branch.now.facts number ≡ Some result.now }
{
    branch.facts.get(number)
}

/// The fact of the number, if it is there.
#[inline(always)]
pub fn find_fact(branch: &Branch, number: usize) -> Option<&Fact>
    ensures { option_copied result ≡ slice_get branch.now.facts number }
{
    match branch.facts.find(number) {
        Some(fact) => Some(fact),
        None => None,
    }
}

/// The fact of the number, which is there, held in common with the branch.
#[inline(always)]
pub fn shared_fact(
    alloc: Global,
    branch: &Branch,
    number: usize,
) -> Result<Shared<Fact>, AllocError>
    requires { number < length branch.now.facts }
    ensures { IfOk result (λ fact. slice_get branch.now.facts number ≡ Some fact) }
{
    branch.facts.get(number).copy(alloc)
}
