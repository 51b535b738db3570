//! The options of the command `gen`, read by `clap`.
ghost use Rattle.std.specs.Prelude.{◌≡◌, ◌≤◌, false, map, string_bytes, IfOk, IfSome};
ghost use Rattle.clap.specs.Words.{app_of, first_value, found_of, rule_of};
ghost use Rattle.ba_model.specs.Readings.{Gives};
ghost use Rattle.ba_model.specs.Limits.{most_budget};
ghost use Rattle.ba_command.specs.Words.{AreOrders, AreWorkers, WorkloadFits, budget_of, gen_app, gen_from, gen_of, needed, number_rule, orders_of, workers_of};

use crate::command::{Command, WordsFault};
use crate::form::{bare, flag, is_set, refusal};
use crate::number::{number, number_of, number_or};
use ba_model::{Failure, MAX_REQUESTS, MAX_SEED, MAX_WORKERS, MIN_WORKERS, WORKERS};
use clap::{Arg, ArgMatches, Command as Form};
use std::alloc::{AllocError, Global};

// An option that must be given, whose value is a number of a range.
fn needed_number<'a>(alloc: Global, id: &'a str, least: u64, most: u64) -> Arg<'a>
    ensures rule { rule_of result ≡ needed (number_rule id.entry.now least most) }
    ensures local { result.global ≡ false }
{
    number(alloc, id, least, most).required(true)
}

fn gen_form<'a>(alloc: Global) -> Result<Form<'a>, AllocError>
    ensures { IfOk result (λ form. app_of form ≡ gen_app) }
{
    bare(alloc, "gen")
        .arg(needed_number(alloc, "seed", 0, MAX_SEED))?
        .arg(needed_number(alloc, "requests", 0, MAX_REQUESTS as u64))?
        .arg(number(alloc, "workers", MIN_WORKERS, MAX_WORKERS))?
        .arg(flag(alloc, "print"))
}

fn command_of(matches: &ArgMatches<'_>) -> Result<Command, Failure<WordsFault>>
    ensures reads { Gives result (gen_from (first_value (found_of matches.now))) }
    ensures budget { IfOk result (λ command. budget_of command ≤ most_budget) }
    ensures workers { IfOk result (λ command. IfSome (workers_of command) AreWorkers) }
    ensures orders { IfOk result (λ command. IfSome (orders_of command) AreOrders) }
    ensures workload { IfOk result WorkloadFits }
{
    let seed = number_of(matches, "seed", 0, MAX_SEED);
    let requests = number_of(matches, "requests", 0, MAX_REQUESTS as u64);
    let workers = number_or(matches, "workers", MIN_WORKERS, MAX_WORKERS, WORKERS as u64) as u32;
    let print = is_set(matches, "print");
    match (seed, requests) {
        (Some(seed), Some(requests)) => Ok(Command::Gen {
            seed,
            requests: requests as u32,
            workers,
            print,
        }),
        _ => Err(Failure::Fault(WordsFault::NoForm)),
    }
}

/// What the words behind `gen` ask for.
pub(crate) fn read_gen(alloc: Global, words: &[String]) -> Result<Command, Failure<WordsFault>>
    ensures reads { Gives result (gen_of (map string_bytes words.now)) }
    ensures budget { IfOk result (λ command. budget_of command ≤ most_budget) }
    ensures workers { IfOk result (λ command. IfSome (workers_of command) AreWorkers) }
    ensures orders { IfOk result (λ command. IfSome (orders_of command) AreOrders) }
    ensures workload { IfOk result WorkloadFits }
{
    let form = gen_form(alloc)?;
    match form.try_get_matches_from(words) {
        Ok(matches) => command_of(&matches),
        Err(e) => Err(refusal(&e)),
    }
}
