//! Reads the templates that a run is to begin with.
ghost use Rattle.std.specs.Prelude.{◌≡◌, ◌≤◌, All, IfOk, Some, length};
ghost use Rattle.ba_model.specs.Fit.{PolicyFits};
ghost use Rattle.ba_model.specs.Limits.{most_templates};
ghost use Rattle.ba_model.specs.RuleFaults.{AreRules};
ghost use Rattle.ba_model.specs.SchemaFaults.{AreTables};
ghost use Rattle.ba_input.specs.Inputs.{IsInput};
ghost use Rattle.ba_input.specs.Reading.{load_plan};
ghost use Rattle.ba_input.specs.Reads.{Comes, Finds, Loaded};
ghost use Rattle.ba_input.specs.Tasks.{IsTask};

use crate::input::Input;
use crate::refusal::template_refusal;
use crate::task::{Task, Told};
use ba_model::{Failure, List, MAX_FILE_BYTES, Policy, Shared, Str};
use ba_outside::Files;
use ba_plan::{Stop, read_file};
use ba_store::read_templates;
use ba_template::Template;
use ba_wire::Fault;
use std::alloc::Global;

// The templates of a file's bytes.
fn templates_at(
    alloc: Global,
    file: &str,
    policy: &Shared<Policy>,
    bytes: &List<u8>,
) -> Result<List<Shared<Template>>, Stop<Fault>>
    requires views { PolicyFits policy.now }
    requires tables { AreTables policy.now.schema.tables }
    requires rules { AreRules policy.now.schema }
    ensures loaded { Loaded policy.now file.now bytes.now result }
    ensures of_policy { IfOk result (λ found. All (λ it. it.problem.policy ≡ policy.now) found) }
    ensures few { IfOk result (λ found. length found ≤ most_templates) }
{
    match read_templates(alloc, policy, bytes.as_slice()) {
        Ok(found) => Ok(found),
        Err(Failure::Fault(fault)) => {
            let file = Str::new(alloc, file)?;
            let refusal = template_refusal(alloc, file, fault)?;
            Err(Stop::Refused(refusal))
        }
        Err(Failure::NoMemory) => Err(Stop::NoMemory),
    }
}

/// The templates of a file.
pub(crate) fn read_loaded<F: Files>(
    alloc: Global,
    files: &mut F,
    file: &str,
    policy: &Shared<Policy>,
) -> Result<List<Shared<Template>>, Stop<Fault>>
    requires views { PolicyFits policy.now }
    requires tables { AreTables policy.now.schema.tables }
    requires rules { AreRules policy.now.schema }
    ensures finds { Finds policy.now file.now (F.seen files.old) (F.seen files.new) result }
    ensures of_policy { IfOk result (λ found. All (λ it. it.problem.policy ≡ policy.now) found) }
    ensures few { IfOk result (λ found. length found ≤ most_templates) }
{
    let bytes = read_file(alloc, files, file, MAX_FILE_BYTES)?;
    templates_at(alloc, file, policy, &bytes)
}

/// The run of an input that is to begin with the templates of a file: that of this name, the last that
/// is read.
pub(crate) fn read_loading<F: Files>(
    alloc: Global,
    files: &mut F,
    mut input: Input,
    told: Told,
    file: &str,
) -> Result<Task, Stop<Fault>>
    requires input { IsInput input }
    requires rules { AreRules input.policy.schema }
    ensures comes { Comes (load_plan told (Some file.now) input)
        (F.seen files.old) (F.seen files.new) result }
    ensures task { IfOk result IsTask }
{
    let loaded = read_loaded(alloc, files, file, &input.policy)?;
    input.loaded = loaded;
    Ok(Task::Run(input, told))
}
