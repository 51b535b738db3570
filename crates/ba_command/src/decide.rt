//! The options of the command `decide`, read by `clap`.
ghost use Rattle.std.specs.Prelude.{◌≡◌, ◌≤◌, map, string_bytes, IfOk};
ghost use Rattle.clap.specs.Words.{app_of, first_value, found_of};
ghost use Rattle.ba_model.specs.Readings.{Gives};
ghost use Rattle.ba_model.specs.Limits.{most_budget};
ghost use Rattle.ba_command.specs.Deciding.{database_of, decide_app, decide_from, decide_of, target_from};

use crate::command::WordsFault;
use crate::form::{bare, flag, is_set, needed, option, refusal, text_of};
use crate::number::{number, number_or};
use ba_model::{BUDGET, Failure, MAX_BUDGET, MIN_BUDGET, Str};
use ba_target::{Database, Target};
use clap::{ArgMatches, Command as Form};
use std::alloc::{AllocError, Global};

/// What the words of `decide --schema S --policy P [--load T] [--budget B] [--evidence]
/// [--database postgresql|sqlite|mysql] [--namespace N]` ask for.
#[derive(Debug, Drop)]
pub struct Deciding {
    /// The name of the schema's file.
    pub schema: Str,
    /// The name of the policy's file.
    pub policy: Str,
    /// The name of the file of the templates to begin with, if there is one.
    pub load: Option<Str>,
    /// How many steps a search may take, from 16 to 100,000; 2000 where the words don't say.
    pub budget: u32,
    /// Whether the lines of decisions tell their evidence.
    pub evidence: bool,
    /// The database that allowed questions are sent to, PostgreSQL where the words don't say, and
    /// the namespace of its tables, if they name one.
    pub target: Target,
}

fn decide_form<'a>(alloc: Global) -> Result<Form<'a>, AllocError>
    ensures { IfOk result (λ form. app_of form ≡ decide_app) }
{
    bare(alloc, "decide")
        .arg(needed(alloc, "schema"))?
        .arg(needed(alloc, "policy"))?
        .arg(option(alloc, "load"))?
        .arg(number(alloc, "budget", MIN_BUDGET, MAX_BUDGET))?
        .arg(flag(alloc, "evidence"))?
        .arg(option(alloc, "database"))?
        .arg(option(alloc, "namespace"))
}

// The database of this name; PostgreSQL where there is none.
fn database_of(name: &Option<Str>) -> Option<Database>
    ensures { result ≡ database_of name.now }
{
    let Some(name) = name else {
        return Some(Database::PostgreSql);
    };
    match name.as_str() {
        "postgresql" => Some(Database::PostgreSql),
        "sqlite" => Some(Database::Sqlite),
        "mysql" => Some(Database::MySql),
        _ => None,
    }
}

// The database that the words name, with the namespace.
fn target_of(alloc: Global, matches: &ArgMatches<'_>) -> Result<Target, Failure<WordsFault>>
    ensures { Gives result (target_from (first_value (found_of matches.now))) }
{
    let name = text_of(alloc, matches, "database")?;
    let namespace = text_of(alloc, matches, "namespace")?;
    match database_of(&name) {
        Some(database) => Ok(Target {
            database,
            namespace,
        }),
        None => Err(Failure::Fault(WordsFault::NoForm)),
    }
}

fn deciding_of(alloc: Global, matches: &ArgMatches<'_>) -> Result<Deciding, Failure<WordsFault>>
    ensures reads { Gives result (decide_from (first_value (found_of matches.now))) }
    ensures budget { IfOk result (λ it. it.budget ≤ most_budget) }
{
    let schema = text_of(alloc, matches, "schema")?;
    let policy = text_of(alloc, matches, "policy")?;
    let load = text_of(alloc, matches, "load")?;
    let budget = number_or(matches, "budget", MIN_BUDGET, MAX_BUDGET, BUDGET as u64) as u32;
    let evidence = is_set(matches, "evidence");
    let target = target_of(alloc, matches)?;
    match (schema, policy) {
        (Some(schema), Some(policy)) => Ok(Deciding {
            schema,
            policy,
            load,
            budget,
            evidence,
            target,
        }),
        _ => Err(Failure::Fault(WordsFault::NoForm)),
    }
}

/// What the words behind `decide` ask for. The options stand in any order, each once and with one
/// value, as `--option VALUE` or `--option=VALUE`; `--evidence` has none, and the value of
/// `--database` is `postgresql`, `sqlite` or `mysql`. All else is `NoForm`.
pub fn read_decide(alloc: Global, words: &[String]) -> Result<Deciding, Failure<WordsFault>>
    ensures reads { Gives result (decide_of (map string_bytes words.now)) }
    ensures budget { IfOk result (λ it. it.budget ≤ most_budget) }
{
    let form = decide_form(alloc)?;
    match form.try_get_matches_from(words) {
        Ok(matches) => deciding_of(alloc, &matches),
        Err(e) => Err(refusal(&e)),
    }
}
