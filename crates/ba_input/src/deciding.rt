//! Reads what a decision service is given.
ghost use Rattle.std.specs.Prelude.{◌≡◌, ◌≤◌, All, IfOk, map, string_bytes};
ghost use Rattle.ba_model.specs.Fit.{PolicyFits};
ghost use Rattle.ba_model.specs.Limits.{most_budget};
ghost use Rattle.ba_model.specs.RuleFaults.{AreRules};
ghost use Rattle.ba_model.specs.SchemaFaults.{AreTables};
ghost use Rattle.ba_plan.specs.Follows.{Follows};
ghost use Rattle.ba_input.specs.Deciding.{IsPolicyInput, IsServed, LoadsFrom, ReadsNamed, ReadsPolicy, ReadsServed, policy_reading_of, text_plan};
ghost use Rattle.ba_target.specs.Names.{Serves};

use crate::refusal::names_refusal;
use crate::run_input::{policy_at, schema_at};
use crate::template_input::read_loaded;
use ba_command::{Deciding, WordsFault, read_decide};
use ba_model::{Duplicate, Failure, List, MAX_FILE_BYTES, Policy, Schema, Shared, Str};
use ba_outside::Files;
use ba_plan::{Stop, read_file};
use ba_target::{Target, check_names};
use ba_template::Template;
use ba_wire::Fault;
use std::alloc::Global;

/// What a decision service is given.
#[derive(Drop)]
pub struct PolicyInput {
    pub policy: Shared<Policy>,
    /// The templates of the file that the words name, in its order: with these the shelves begin. None
    /// where no file is named.
    pub loaded: List<Shared<Template>>,
    /// How many steps the search for a question's proof may take.
    pub budget: u32,
    /// Whether the lines of decisions tell their evidence.
    pub evidence: bool,
    /// The database that allowed questions are sent to.
    pub target: Target,
}

// The policy of a file, over the schema.
fn read_text<F: Files>(
    alloc: Global,
    files: &mut F,
    name: &str,
    schema: &Shared<Schema>,
) -> Result<Shared<Policy>, Stop<Fault>>
    ensures follows { Follows (text_plan name.now schema.now)
        (F.seen files.old) (F.seen files.new) result }
    ensures fits { IfOk result PolicyFits }
    ensures same { IfOk result (λ policy. policy.schema ≡ schema.now) }
{
    let bytes = read_file(alloc, files, name, MAX_FILE_BYTES)?;
    policy_at(alloc, name, schema, &bytes)
}

// The policy, over the schema of another file.
fn read_policy<F: Files>(
    alloc: Global,
    files: &mut F,
    schema: &str,
    policy: &str,
) -> Result<Shared<Policy>, Stop<Fault>>
    ensures follows { Follows (policy_reading_of schema.now policy.now)
        (F.seen files.old) (F.seen files.new) result }
    ensures fits { IfOk result PolicyFits }
    ensures tables { IfOk result (λ policy. AreTables policy.schema.tables) }
    ensures rules { IfOk result (λ policy. AreRules policy.schema) }
{
    let bytes = read_file(alloc, files, schema, MAX_FILE_BYTES)?;
    let schema = schema_at(alloc, schema, &bytes)?;
    read_text(alloc, files, policy, &schema)
}

// The templates of the file, if one is named.
fn read_given<F: Files>(
    alloc: Global,
    files: &mut F,
    named: &Deciding,
    policy: &Shared<Policy>,
) -> Result<List<Shared<Template>>, Stop<Fault>>
    requires views { PolicyFits policy.now }
    requires tables { AreTables policy.now.schema.tables }
    requires rules { AreRules policy.now.schema }
    ensures loads { LoadsFrom named.now.load policy.now
        (F.seen files.old) (F.seen files.new) result }
    ensures of_policy { IfOk result (λ found. All (λ it. it.problem.policy ≡ policy.now) found) }
{
    match &named.load {
        Some(file) => read_loaded(alloc, files, file.as_str(), policy),
        None => Ok(List::new(alloc)),
    }
}

// Reads what the words name, for this database.
fn read_named<F: Files>(
    alloc: Global,
    files: &mut F,
    named: &Deciding,
    target: Target,
) -> Result<PolicyInput, Stop<Fault>>
    requires budget { named.now.budget ≤ most_budget }
    requires target { target ≡ named.now.target }
    ensures reads { ReadsNamed named.now (F.seen files.old) (F.seen files.new) result }
    ensures input { IfOk result IsPolicyInput }
{
    let policy = read_policy(alloc, files, named.schema.as_str(), named.policy.as_str())?;
    let loaded = read_given(alloc, files, named, &policy)?;
    Ok(PolicyInput {
        policy,
        loaded,
        budget: named.budget,
        evidence: named.evidence,
        target,
    })
}

// What was read, where its database serves the schema, which stands in the file.
fn served(alloc: Global, file: &Str, input: PolicyInput) -> Result<PolicyInput, Stop<Fault>>
    ensures serves { IsServed file.now input result }
{
    match check_names(alloc, &input.target, &input.policy.schema) {
        Ok(()) => Ok(input),
        Err(Failure::Fault(fault)) => match file.copy(alloc) {
            Ok(file) => Err(Stop::Refused(names_refusal(file, fault))),
            Err(_) => Err(Stop::NoMemory),
        },
        Err(Failure::NoMemory) => Err(Stop::NoMemory),
    }
}

// Reads what the words name, which their database has to serve.
fn read_served<F: Files>(
    alloc: Global,
    files: &mut F,
    named: &Deciding,
    target: Target,
) -> Result<PolicyInput, Stop<Fault>>
    requires budget { named.now.budget ≤ most_budget }
    requires target { target ≡ named.now.target }
    ensures reads { ReadsServed named.now (F.seen files.old) (F.seen files.new) result }
    ensures input { IfOk result IsPolicyInput }
    ensures serves { IfOk result (λ it. Serves it.target it.policy.schema) }
{
    match read_named(alloc, files, named, target) {
        Ok(input) => served(alloc, &named.schema, input),
        Err(stop) => Err(stop),
    }
}

/// Reads what the words behind `decide` name: the schema, the policy and, last, the file of templates,
/// if there is one; file by file, up to the first fault. Then the database has to keep the schema's
/// names, and to tell them apart.
///
/// # Errors
/// Those of [`crate::read_task`].
pub fn read_policy_input<F: Files>(
    alloc: Global,
    words: &[String],
    files: &mut F,
) -> Result<PolicyInput, Stop<Fault>>
    ensures reads { ReadsPolicy (map string_bytes words.now)
        (F.seen files.old) (F.seen files.new) result }
    ensures input { IfOk result IsPolicyInput }
    ensures serves { IfOk result (λ it. Serves it.target it.policy.schema) }
{
    match read_decide(alloc, words) {
        Ok(named) => match named.target.copy(alloc) {
            Ok(target) => read_served(alloc, files, &named, target),
            Err(_) => Err(Stop::NoMemory),
        },
        Err(Failure::Fault(WordsFault::NoForm)) => Err(Stop::Refused(Fault::Words)),
        Err(Failure::NoMemory) => Err(Stop::NoMemory),
    }
}
