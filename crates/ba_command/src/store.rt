//! The options of the command `store`, read by `clap`.
ghost use Rattle.std.specs.Prelude.{◌≡◌, ◌≤◌, map, string_bytes, IfOk, IfSome};
ghost use Rattle.clap.specs.Words.{app_of, first_value, found_of};
ghost use Rattle.ba_model.specs.Readings.{Gives};
ghost use Rattle.ba_model.specs.Limits.{most_budget};
ghost use Rattle.ba_command.specs.Words.{AreOrders, AreWorkers, WorkloadFits, budget_of, orders_of, store_app, store_from, store_of, workers_of};

use crate::command::{Command, WordsFault};
use crate::form::refusal;
use crate::served::{served_form, served_of};
use ba_model::Failure;
use clap::{ArgMatches, Command as Form};
use std::alloc::{AllocError, Global};

fn store_form<'a>(alloc: Global) -> Result<Form<'a>, AllocError>
    ensures { IfOk result (λ form. app_of form ≡ store_app) }
{
    served_form(alloc, "store")
}

fn command_of(alloc: Global, matches: &ArgMatches<'_>) -> Result<Command, Failure<WordsFault>>
    ensures reads { Gives result (store_from (first_value (found_of matches.now))) }
    ensures budget { IfOk result (λ command. budget_of command ≤ most_budget) }
    ensures workers { IfOk result (λ command. IfSome (workers_of command) AreWorkers) }
    ensures orders { IfOk result (λ command. IfSome (orders_of command) AreOrders) }
    ensures workload { IfOk result WorkloadFits }
{
    let served = served_of(alloc, matches)?;
    Ok(Command::Store {
        schema: served.schema,
        policy: served.policy,
        tables: served.tables,
        script: served.script,
        workers: served.workers,
        budget: served.budget,
        orders: served.orders,
    })
}

/// What the words behind `store` ask for.
pub(crate) fn read_store(alloc: Global, words: &[String]) -> Result<Command, Failure<WordsFault>>
    ensures reads { Gives result (store_of (map string_bytes words.now)) }
    ensures budget { IfOk result (λ command. budget_of command ≤ most_budget) }
    ensures workers { IfOk result (λ command. IfSome (workers_of command) AreWorkers) }
    ensures orders { IfOk result (λ command. IfSome (orders_of command) AreOrders) }
    ensures workload { IfOk result WorkloadFits }
{
    let form = store_form(alloc)?;
    match form.try_get_matches_from(words) {
        Ok(matches) => command_of(alloc, &matches),
        Err(e) => Err(refusal(&e)),
    }
}
