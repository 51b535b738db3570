//! The options of the command `check`, read by `clap`.
ghost use Rattle.std.specs.Prelude.{◌≡◌, ◌≤◌, map, string_bytes, IfOk, IfSome};
ghost use Rattle.clap.specs.Words.{app_of, first_value, found_of};
ghost use Rattle.ba_model.specs.Readings.{Gives};
ghost use Rattle.ba_model.specs.Limits.{most_budget};
ghost use Rattle.ba_command.specs.Words.{AreOrders, AreWorkers, WorkloadFits, budget_of, check_app, check_from, check_of, orders_of, workers_of};

use crate::command::{Command, WordsFault};
use crate::form::{bare, needed, refusal, text_of};
use ba_model::Failure;
use clap::{ArgMatches, Command as Form};
use std::alloc::{AllocError, Global};

fn check_form<'a>(alloc: Global) -> Result<Form<'a>, AllocError>
    ensures { IfOk result (λ form. app_of form ≡ check_app) }
{
    bare(alloc, "check")
        .arg(needed(alloc, "schema"))?
        .arg(needed(alloc, "policy"))?
        .arg(needed(alloc, "proof"))
}

fn command_of(alloc: Global, matches: &ArgMatches<'_>) -> Result<Command, Failure<WordsFault>>
    ensures reads { Gives result (check_from (first_value (found_of matches.now))) }
    ensures budget { IfOk result (λ command. budget_of command ≤ most_budget) }
    ensures workers { IfOk result (λ command. IfSome (workers_of command) AreWorkers) }
    ensures orders { IfOk result (λ command. IfSome (orders_of command) AreOrders) }
    ensures workload { IfOk result WorkloadFits }
{
    let schema = text_of(alloc, matches, "schema")?;
    let policy = text_of(alloc, matches, "policy")?;
    let proof = text_of(alloc, matches, "proof")?;
    match (schema, policy, proof) {
        (Some(schema), Some(policy), Some(proof)) => Ok(Command::Check {
            schema,
            policy,
            proof,
        }),
        _ => Err(Failure::Fault(WordsFault::NoForm)),
    }
}

/// What the words behind `check` ask for.
pub(crate) fn read_check(alloc: Global, words: &[String]) -> Result<Command, Failure<WordsFault>>
    ensures reads { Gives result (check_of (map string_bytes words.now)) }
    ensures budget { IfOk result (λ command. budget_of command ≤ most_budget) }
    ensures workers { IfOk result (λ command. IfSome (workers_of command) AreWorkers) }
    ensures orders { IfOk result (λ command. IfSome (orders_of command) AreOrders) }
    ensures workload { IfOk result WorkloadFits }
{
    let form = check_form(alloc)?;
    match form.try_get_matches_from(words) {
        Ok(matches) => command_of(alloc, &matches),
        Err(e) => Err(refusal(&e)),
    }
}
