//! A policy, proof files as changes of one file, and what they come to.
ghost use Rattle.std.specs.Prelude.{◌≤◌, IfOk, length};
ghost use Rattle.ba_model.specs.Limits.{most_steps};
ghost use Rattle.ba_kernel.specs.Courses.{ProblemFits};
ghost use Rattle.ba_proof.specs.Checked.{IsPolicy};

use super::policies::TABLES;
use ba_kernel::StepFault;
use ba_model::{Failure, Policy, Shared};
use ba_policy::read_policy;
use ba_proof::{CheckFault, Proof, ProofFault, check, read_proof};
use ba_sql_ddl::read_schema;
use std::alloc::{AllocError, Global};

pub const POLICY: &str = "PARAM MyUId INT;
CREATE VIEW V1 AS SELECT UId, Name FROM Users;
CREATE VIEW V2 AS SELECT UId, EId, At FROM Attendances WHERE UId = ?MyUId;
CREATE VIEW V3 AS SELECT e.EId, e.Title, e.Duration FROM Events e
  JOIN Attendances a ON a.EId = e.EId WHERE a.UId = ?MyUId;";

/// The title of an event that the user is known to attend, proved in three steps.
pub const PROOF: &str =
    "{\"context\":{\"MyUId\":2},\"entries\":[{\"query\":\"SELECT t0.\\\"UId\\\", t0.\\\"EId\\\", t0.\\\"At\\\" FROM \\\"Attendances\\\" t0 WHERE t0.\\\"UId\\\" = 2 AND t0.\\\"EId\\\" = 5\",\"row\":[2,5,100]}],\"goal\":\"SELECT t0.\\\"Title\\\" FROM \\\"Events\\\" t0 WHERE t0.\\\"EId\\\" = 5\",\"steps\":[[\"entry\",0,0],[\"view\",0,2,0,[0,1]],[\"goal\",0,0,[2]]],\"version\":1}";

/// The standard policy. A fault of its texts is told as want of memory.
pub fn policy(alloc: Global) -> Result<Shared<Policy>, AllocError>
    ensures { IfOk result IsPolicy }
{
    policy_of(alloc, POLICY)
}

/// The policy of the text. A fault of a text is told as want of memory.
pub fn policy_of(alloc: Global, text: &str) -> Result<Shared<Policy>, AllocError>
    ensures { IfOk result IsPolicy }
{
    let Ok(schema) = read_schema(alloc, TABLES.as_bytes()) else {
        return Err(AllocError);
    };
    let schema = Shared::new(alloc, schema)?;
    let Ok(policy) = read_policy(alloc, &schema, text.as_bytes()) else {
        return Err(AllocError);
    };
    Shared::new(alloc, policy)
}

fn step_fault(alloc: Global, step: u32, fault: StepFault) -> Result<String, AllocError> {
    match fault {
        StepFault::NoBranch => format!(in alloc; "step {step}: branch"),
        StepFault::BadFact => format!(in alloc; "step {step}: fact"),
        StepFault::BadRule => format!(in alloc; "step {step}: rule"),
        StepFault::CondNotShown(n) => format!(in alloc; "step {step}: cond {n}"),
        StepFault::HeadDiffers(n) => format!(in alloc; "step {step}: head {n}"),
        StepFault::NotAbsurd => format!(in alloc; "step {step}: absurd"),
    }
}

fn checked(alloc: Global, proof: Proof) -> Result<String, AllocError>
    requires fits { ProblemFits proof.problem }
    requires few { length proof.steps ≤ most_steps }
{
    match check(alloc, proof) {
        Ok(proved) => {
            let steps = proved.steps().len();
            format!(in alloc; "accepted {steps}")
        }
        Err(Failure::NoMemory) => Err(AllocError),
        Err(Failure::Fault(CheckFault::NotShown { step, fault })) => step_fault(alloc, step, fault),
        Err(Failure::Fault(CheckFault::StillOpen { branches })) => {
            format!(in alloc; "open {branches}")
        }
    }
}

fn file_fault(alloc: Global, fault: ProofFault) -> Result<String, AllocError> {
    match fault {
        ProofFault::BadJson => format!(in alloc; "json"),
        ProofFault::TooLong => format!(in alloc; "too long"),
        ProofFault::BadField(field) => {
            let name = field.name();
            format!(in alloc; "field {name}")
        }
    }
}

/// What a file comes to: `accepted` with the number of steps; the first step that isn't accepted with its fault; `open` with the number
/// of branches; or the fault of a file that isn't read.
pub fn verdict(alloc: Global, text: &str) -> Result<String, AllocError> {
    let policy = policy(alloc)?;
    match read_proof(alloc, &policy, text.as_bytes()) {
        Ok(proof) => checked(alloc, proof),
        Err(Failure::NoMemory) => Err(AllocError),
        Err(Failure::Fault(fault)) => file_fault(alloc, fault),
    }
}

/// The standard file with one text, where it stands first, in another's place.
pub fn changed(alloc: Global, old: &str, new: &str) -> Result<String, AllocError> {
    match PROOF.split_once(old) {
        Some((front, back)) => format!(in alloc; "{front}{new}{back}"),
        None => String::from_str(alloc, "not there"),
    }
}

/// The first line `old => new => verdict` of which the verdict isn't that of the changed file, or an empty text.
pub fn first_wrong<'a>(alloc: Global, lines: &'a str) -> Result<&'a str, AllocError> {
    for line in lines.lines() {
        let (old, rest) = line.split_once(" => ").unwrap_or((line, ""));
        let (new, wanted) = rest.split_once(" => ").unwrap_or((rest, ""));
        let file = changed(alloc, old, new)?;
        let found = verdict(alloc, file.as_str())?;
        if found.as_str() != wanted {
            return Ok(line);
        }
    }
    Ok("")
}
