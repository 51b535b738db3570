//! The options of the commands that serve a script, read by `clap`.
ghost use Rattle.std.specs.Prelude.{◌≡◌, ◌≤◌, IfOk, codes};
ghost use Rattle.clap.specs.Words.{app_of, first_value, found_of};
ghost use Rattle.ba_model.specs.Readings.{Gives};
ghost use Rattle.ba_model.specs.Limits.{most_budget};
ghost use Rattle.ba_command.specs.Words.{AreOrders, AreWorkers, least_orders, most_orders, number_or, served_app, served_from, usual_orders};

use crate::command::{ORDERS, WordsFault};
use crate::given::{given_form, given_of};
use crate::number::{number, number_or};
use ba_model::{BUDGET, Failure, MAX_BUDGET, MAX_WORKERS, MIN_BUDGET, MIN_WORKERS, Str, WORKERS};
use clap::{ArgMatches, Command as Form};
use std::alloc::{AllocError, Global};

// In how many orders of its due steps a proof may be searched for, at least and at most.
const MIN_ORDERS: u64 = 1;

const MAX_ORDERS: u64 = 2;

/// Which script is served, over what, and how.
#[derive(Debug, Drop)]
pub(crate) struct Served {
    pub(crate) schema: Str,
    pub(crate) policy: Str,
    pub(crate) tables: Str,
    pub(crate) script: Str,
    pub(crate) workers: u32,
    pub(crate) budget: u32,
    pub(crate) orders: u32,
}

/// A command of this name that serves a script.
pub(crate) fn served_form<'a>(alloc: Global, name: &'a str) -> Result<Form<'a>, AllocError>
    ensures { IfOk result (λ form. app_of form ≡ served_app name.entry.now) }
{
    given_form(alloc, name)?
        .arg(number(alloc, "workers", MIN_WORKERS, MAX_WORKERS))?
        .arg(number(alloc, "budget", MIN_BUDGET, MAX_BUDGET))?
        .arg(number(alloc, "orders", MIN_ORDERS, MAX_ORDERS))
}

// In how many orders of its due steps a proof is searched for.
fn orders_of(matches: &ArgMatches<'_>) -> u32
    ensures is { result ≡ number_or least_orders most_orders usual_orders
        (first_value (found_of matches.now) (codes "orders")) }
    ensures orders { AreOrders result }
{
    number_or(matches, "orders", MIN_ORDERS, MAX_ORDERS, ORDERS as u64) as u32
}

/// What the values of its options are.
pub(crate) fn served_of(
    alloc: Global,
    matches: &ArgMatches<'_>,
) -> Result<Served, Failure<WordsFault>>
    ensures reads { Gives result (served_from (first_value (found_of matches.now))) }
    ensures budget { IfOk result (λ served. served.budget ≤ most_budget) }
    ensures workers { IfOk result (λ served. AreWorkers served.workers) }
    ensures orders { IfOk result (λ served. AreOrders served.orders) }
{
    let given = given_of(alloc, matches)?;
    let workers = number_or(matches, "workers", MIN_WORKERS, MAX_WORKERS, WORKERS as u64) as u32;
    let budget = number_or(matches, "budget", MIN_BUDGET, MAX_BUDGET, BUDGET as u64) as u32;
    let orders = orders_of(matches);
    Ok(Served {
        schema: given.schema,
        policy: given.policy,
        tables: given.tables,
        script: given.script,
        workers,
        budget,
        orders,
    })
}
