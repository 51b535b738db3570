//! Reads what the words of a command name.
ghost use Rattle.std.specs.Prelude.{◌≡◌, ◌<◌, ◌≤◌, IfOk, IfSome, map, string_bytes};
ghost use Rattle.std.specs.Option.{option_copied};
ghost use Rattle.ba_command.specs.Words.{AreOrders, budget_of, orders_of, workers_of};
ghost use Rattle.ba_model.specs.Limits.{most_budget, most_workers};
ghost use Rattle.ba_input.specs.Reading.{command_plan, names_of, served_plan, told_by};
ghost use Rattle.ba_input.specs.Reads.{Comes, Reads};
ghost use Rattle.ba_input.specs.Tasks.{IsTask};

use crate::audit_input::read_audit;
use crate::proof_input::{NamedProof, read_check};
use crate::run_input::{Named, read_named};
use crate::task::{Task, Told};
use crate::template_input::read_loading;
use crate::workload::read_workload;
use ba_command::{Command, ORDERS, WordsFault, read_words};
use ba_model::{BUDGET, Failure, Str, WORKERS};
use ba_outside::Files;
use ba_plan::Stop;
use ba_wire::Fault;
use std::alloc::Global;

// The name of the file of templates, if there is one.
fn name_of(load: &Option<Str>) -> Option<&str>
    ensures { option_copied result ≡ load.now }
{
    match load {
        Some(file) => Some(file.as_str()),
        None => None,
    }
}

// What a run tells: its lines, with their proofs or without.
fn told_by(proofs: bool) -> Told
    ensures { result ≡ told_by proofs }
{
    if proofs { Told::Proofs } else { Told::Lines }
}

// A script that is served, and told so; to begin with the templates of a file, if one is named.
fn read_served<F: Files>(
    alloc: Global,
    files: &mut F,
    named: &Named<'_>,
    load: Option<&str>,
    told: Told,
) -> Result<Task, Stop<Fault>>
    requires workers { (0 < named.now.workers) × (named.now.workers ≤ most_workers) }
    requires budget { named.now.budget ≤ most_budget }
    requires orders { AreOrders named.now.orders }
    ensures comes { Comes (served_plan told (option_copied load.entry) (record {
      schema = named.now.schema.now;
      policy = named.now.policy.now;
      tables = named.now.tables.now;
      script = named.now.script.now;
      workers = named.now.workers;
      budget = named.now.budget;
      orders = named.now.orders;
    }))
        (F.seen files.old) (F.seen files.new) result }
    ensures task { IfOk result IsTask }
{
    let input = read_named(alloc, files, named)?;
    match load {
        Some(file) => read_loading(alloc, files, input, told, file),
        None => Ok(Task::Run(input, told)),
    }
}

// The names of what a run is given, and how it is made.
fn named_run<'a>(
    schema: &'a Str,
    policy: &'a Str,
    tables: &'a Str,
    script: &'a Str,
    workers: u32,
    budget: u32,
    orders: u32,
) -> Named<'a>
    ensures { names_of result ≡ (record {
      schema = schema.now;
      policy = policy.now;
      tables = tables.now;
      script = script.now;
      workers = workers;
      budget = budget;
      orders = orders;
    }) }
{
    Named {
        schema: schema.as_str(),
        policy: policy.as_str(),
        tables: tables.as_str(),
        script: script.as_str(),
        workers,
        budget,
        orders,
    }
}

// What a check is of.
fn read_checked<F: Files>(
    alloc: Global,
    files: &mut F,
    schema: &Str,
    policy: &Str,
    proof: &Str,
) -> Result<Task, Stop<Fault>>
    ensures comes { Comes (command_plan (Command.Check schema.now policy.now proof.now))
        (F.seen files.old) (F.seen files.new) result }
    ensures task { IfOk result IsTask }
{
    let named = NamedProof {
        schema: schema.as_str(),
        policy: policy.as_str(),
        proof: proof.as_str(),
    };
    read_check(alloc, files, &named)
}

// What an audit is of.
fn read_audited<F: Files>(
    alloc: Global,
    files: &mut F,
    schema: &Str,
    policy: &Str,
    tables: &Str,
    script: &Str,
    output: &Str,
) -> Result<Task, Stop<Fault>>
    ensures comes { Comes (command_plan
        (Command.Audit schema.now policy.now tables.now script.now output.now))
        (F.seen files.old) (F.seen files.new) result }
    ensures task { IfOk result IsTask }
{
    let given = named_run(schema, policy, tables, script, WORKERS, BUDGET, ORDERS);
    read_audit(alloc, files, &given, output.as_str())
}

fn read_command<F: Files>(
    alloc: Global,
    command: &Command,
    files: &mut F,
) -> Result<Task, Stop<Fault>>
    requires workers { IfSome (workers_of command.now) (λ n. (0 < n) × (n ≤ most_workers)) }
    requires budget { budget_of command.now ≤ most_budget }
    requires orders { IfSome (orders_of command.now) AreOrders }
    ensures comes { Comes (command_plan command.now)
        (F.seen files.old) (F.seen files.new) result }
    ensures task { IfOk result IsTask }
{
    match command {
        Command::Run {
            schema,
            policy,
            tables,
            script,
            load,
            proofs,
            workers,
            budget,
            orders,
        } => {
            let named = named_run(schema, policy, tables, script, *workers, *budget, *orders);
            read_served(alloc, files, &named, name_of(load), told_by(*proofs))
        }
        Command::Store {
            schema,
            policy,
            tables,
            script,
            workers,
            budget,
            orders,
        } => {
            let named = named_run(schema, policy, tables, script, *workers, *budget, *orders);
            read_served(alloc, files, &named, None, Told::Templates)
        }
        Command::Gen {
            seed,
            requests,
            workers,
            print,
        } => read_workload(alloc, *seed, *requests, *workers, *print),
        Command::Check {
            schema,
            policy,
            proof,
        } => read_checked(alloc, files, schema, policy, proof),
        Command::Audit {
            schema,
            policy,
            tables,
            script,
            output,
        } => read_audited(alloc, files, schema, policy, tables, script, output),
    }
}

/// Reads what the words name, and the table sets that a script publishes: file by file, in order, up
/// to the first fault. The file of templates, if the words name one, is the last; nothing in it is
/// believed, and each template's steps are taken anew. So is an output that is audited the last, of
/// which any bytes will do. What was read belongs together.
///
/// # Errors
/// `Refused` where the words are no command's form, a file has no reading, rows break a key or a link,
/// a template isn't proved, or a count is above its limit: never with [`Fault::Read`]. `Read` and
/// `TooLong` name the file that was asked for last. `NoMemory` may come at any point.
pub fn read_task<F: Files>(
    alloc: Global,
    words: &[String],
    files: &mut F,
) -> Result<Task, Stop<Fault>>
    ensures reads { Reads (map string_bytes words.now)
        (F.seen files.old) (F.seen files.new) result }
    ensures task { IfOk result IsTask }
{
    match read_words(alloc, words) {
        Ok(command) => read_command(alloc, &command, files),
        Err(Failure::Fault(WordsFault::NoForm)) => Err(Stop::Refused(Fault::Words)),
        Err(Failure::NoMemory) => Err(Stop::NoMemory),
    }
}
