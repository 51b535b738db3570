//! The options of the command `audit`, read by `clap`.
ghost use Rattle.std.specs.Prelude.{◌≡◌, ◌≤◌, map, string_bytes, IfOk, IfSome};
ghost use Rattle.clap.specs.Words.{app_of, first_value, found_of};
ghost use Rattle.ba_model.specs.Readings.{Gives};
ghost use Rattle.ba_model.specs.Limits.{most_budget};
ghost use Rattle.ba_command.specs.Words.{AreOrders, AreWorkers, WorkloadFits, audit_app, audit_from, audit_of, budget_of, orders_of, workers_of};

use crate::command::{Command, WordsFault};
use crate::form::{needed, refusal, text_of};
use crate::given::{given_form, given_of};
use ba_model::Failure;
use clap::{ArgMatches, Command as Form};
use std::alloc::{AllocError, Global};

fn audit_form<'a>(alloc: Global) -> Result<Form<'a>, AllocError>
    ensures { IfOk result (λ form. app_of form ≡ audit_app) }
{
    given_form(alloc, "audit")?.arg(needed(alloc, "output"))
}

fn command_of(alloc: Global, matches: &ArgMatches<'_>) -> Result<Command, Failure<WordsFault>>
    ensures reads { Gives result (audit_from (first_value (found_of matches.now))) }
    ensures budget { IfOk result (λ command. budget_of command ≤ most_budget) }
    ensures workers { IfOk result (λ command. IfSome (workers_of command) AreWorkers) }
    ensures orders { IfOk result (λ command. IfSome (orders_of command) AreOrders) }
    ensures workload { IfOk result WorkloadFits }
{
    let output = text_of(alloc, matches, "output")?;
    let given = given_of(alloc, matches)?;
    match output {
        Some(output) => Ok(Command::Audit {
            schema: given.schema,
            policy: given.policy,
            tables: given.tables,
            script: given.script,
            output,
        }),
        None => Err(Failure::Fault(WordsFault::NoForm)),
    }
}

/// What the words behind `audit` ask for.
pub(crate) fn read_audit(alloc: Global, words: &[String]) -> Result<Command, Failure<WordsFault>>
    ensures reads { Gives result (audit_of (map string_bytes words.now)) }
    ensures budget { IfOk result (λ command. budget_of command ≤ most_budget) }
    ensures workers { IfOk result (λ command. IfSome (workers_of command) AreWorkers) }
    ensures orders { IfOk result (λ command. IfSome (orders_of command) AreOrders) }
    ensures workload { IfOk result WorkloadFits }
{
    let form = audit_form(alloc)?;
    match form.try_get_matches_from(words) {
        Ok(matches) => command_of(alloc, &matches),
        Err(e) => Err(refusal(&e)),
    }
}
