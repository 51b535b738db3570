//! The template of a proof.
ghost use Rattle.std.specs.Prelude.{IfErr, OnErr, OnOk};
ghost use Rattle.ba_general.specs.Generals.{IsOfQuestion, IsTooWide};
ghost use Rattle.ba_judge.specs.Shelves.{IsKept, Stays};
ghost use Rattle.ba_model.specs.Readings.{OfFault};

use crate::shelves::Shelves;
use ba_general::{GeneralFault, generalise};
use ba_kernel::Proved;
use ba_model::{Failure, Shared};
use std::alloc::Global;

/// Keeps the template of a proof for the questions that follow. `Wide` comes where what it would
/// keep is too wide for a template; after it, and after want of memory, the shelves are as before.
pub(crate) fn keep(
    alloc: Global,
    shelves: &mut Shelves,
    proved: &Proved,
) -> Result<(), Failure<GeneralFault>>
    requires question { IsOfQuestion proved.now.problem }
    ensures kept { OnOk result (IsKept proved.now shelves.old shelves.new) }
    ensures wide { IfErr result (λ e. OfFault e (λ _. IsTooWide proved.now)) }
    ensures err { OnErr result (Stays shelves.old shelves.new) }
{
    let template = generalise(alloc, proved)?;
    let template = Shared::new(alloc, template)?;
    shelves.admit(template)?;
    Ok(())
}
