//! Reads what an audit is of.
ghost use Rattle.std.specs.Prelude.{◌≡◌, ◌⊎◌, ◌<◌, ◌≤◌, IfOk};
ghost use Rattle.ba_input.specs.Inputs.{IsInput};
ghost use Rattle.ba_input.specs.Reading.{audit_plan, names_of, output_plan};
ghost use Rattle.ba_input.specs.Tasks.{IsTask};
ghost use Rattle.ba_model.specs.Limits.{most_budget, most_workers};
ghost use Rattle.ba_plan.specs.Follows.{Follows};

use crate::input::Input;
use crate::run_input::{Named, read_named};
use crate::task::Task;
use ba_model::MAX_FILE_BYTES;
use ba_outside::Files;
use ba_plan::{Stop, read_file};
use ba_wire::Fault;
use std::alloc::Global;

// The output, and the audit of it.
fn read_output<F: Files>(
    alloc: Global,
    files: &mut F,
    name: &str,
    input: Input,
) -> Result<Task, Stop<Fault>>
    requires { IsInput input }
    ensures follows { Follows (output_plan name.now input)
        (F.seen files.old) (F.seen files.new) result }
    ensures task { IfOk result IsTask }
{
    let bytes = read_file(alloc, files, name, MAX_FILE_BYTES)?;
    Ok(Task::Audit(input, bytes))
}

/// Reads what an audit is of: what the run was given, in the order in which it was read, and last the
/// output, whatever its bytes are.
pub(crate) fn read_audit<F: Files>(
    alloc: Global,
    files: &mut F,
    given: &Named<'_>,
    output: &str,
) -> Result<Task, Stop<Fault>>
    requires workers { (0 < given.now.workers) × (given.now.workers ≤ most_workers) }
    requires budget { given.now.budget ≤ most_budget }
    requires orders { (given.now.orders ≡ 1) ⊎ (given.now.orders ≡ 2) }
    ensures follows { Follows (audit_plan (names_of given.now) output.now)
        (F.seen files.old) (F.seen files.new) result }
    ensures task { IfOk result IsTask }
{
    let input = read_named(alloc, files, given)?;
    read_output(alloc, files, output, input)
}
