//! Reads what a check is of.
ghost use Rattle.std.specs.Prelude.{◌≡◌, IfOk};
ghost use Rattle.ba_model.specs.Fit.{PolicyFits};
ghost use Rattle.ba_model.specs.Readings.{widened};
ghost use Rattle.ba_model.specs.RuleFaults.{AreRules};
ghost use Rattle.ba_model.specs.SchemaFaults.{AreTables};
ghost use Rattle.ba_plan.specs.Follows.{Follows, Gives};
ghost use Rattle.ba_proof.specs.Reading.{proof_of};
ghost use Rattle.ba_input.specs.Tasks.{IsCheckable, IsTask};
ghost use Rattle.ba_input.specs.Reading.{check_plan, proof_plan, proof_reading_of};
ghost use Rattle.ba_input.specs.Refusals.{proof_refusal};

use crate::refusal::proof_refusal;
use crate::run_input::{policy_at, schema_at};
use crate::task::Task;
use ba_model::{Failure, List, MAX_FILE_BYTES, Policy, Shared, Str};
use ba_outside::Files;
use ba_plan::{Stop, read_file};
use ba_proof::{Proof, read_proof};
use ba_wire::Fault;
use std::alloc::Global;

/// The names of the files of a check.
#[derive(Clone, Copy, Debug)]
pub(crate) struct NamedProof<'a> {
    pub(crate) schema: &'a str,
    pub(crate) policy: &'a str,
    pub(crate) proof: &'a str,
}

fn proof_at(
    alloc: Global,
    file: &str,
    policy: &Shared<Policy>,
    bytes: &List<u8>,
) -> Result<Proof, Stop<Fault>>
    requires views { PolicyFits policy.now }
    requires tables { AreTables policy.now.schema.tables }
    requires rules { AreRules policy.now.schema }
    ensures reads { Gives result
        (widened (proof_refusal file.now) (proof_of policy.now bytes.now)) }
    ensures checkable { IfOk result IsCheckable }
{
    match read_proof(alloc, policy, bytes.as_slice()) {
        Ok(proof) => Ok(proof),
        Err(Failure::Fault(fault)) => {
            let file = Str::new(alloc, file)?;
            let refusal = proof_refusal(alloc, file, fault)?;
            Err(Stop::Refused(refusal))
        }
        Err(Failure::NoMemory) => Err(Stop::NoMemory),
    }
}

// The last file.
fn read_last<F: Files>(
    alloc: Global,
    files: &mut F,
    name: &str,
    policy: &Shared<Policy>,
) -> Result<Proof, Stop<Fault>>
    requires views { PolicyFits policy.now }
    requires tables { AreTables policy.now.schema.tables }
    requires rules { AreRules policy.now.schema }
    ensures follows { Follows (proof_plan name.now policy.now)
        (F.seen files.old) (F.seen files.new) result }
    ensures checkable { IfOk result IsCheckable }
{
    let bytes = read_file(alloc, files, name, MAX_FILE_BYTES)?;
    proof_at(alloc, name, policy, &bytes)
}

// The proof, for the policy of the schema.
fn read_files<F: Files>(
    alloc: Global,
    files: &mut F,
    named: &NamedProof<'_>,
) -> Result<Proof, Stop<Fault>>
    ensures follows { Follows (proof_reading_of (record {
      schema = named.now.schema.now;
      policy = named.now.policy.now;
      proof = named.now.proof.now;
    }))
        (F.seen files.old) (F.seen files.new) result }
    ensures checkable { IfOk result IsCheckable }
{
    let bytes = read_file(alloc, files, named.schema, MAX_FILE_BYTES)?;
    let schema = schema_at(alloc, named.schema, &bytes)?;
    let text = read_file(alloc, files, named.policy, MAX_FILE_BYTES)?;
    let policy = policy_at(alloc, named.policy, &schema, &text)?;
    read_last(alloc, files, named.proof, &policy)
}

/// Reads the schema, the policy and the proof of a check: each file once, in this order, up to the first fault.
pub(crate) fn read_check<F: Files>(
    alloc: Global,
    files: &mut F,
    named: &NamedProof<'_>,
) -> Result<Task, Stop<Fault>>
    ensures follows { Follows (check_plan (record {
      schema = named.now.schema.now;
      policy = named.now.policy.now;
      proof = named.now.proof.now;
    }))
        (F.seen files.old) (F.seen files.new) result }
    ensures task { IfOk result IsTask }
{
    let proof = read_files(alloc, files, named)?;
    Ok(Task::Check(proof))
}
