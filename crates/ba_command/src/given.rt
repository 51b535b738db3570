//! The options of the commands that are given a script and what it is served over, read by `clap`.
ghost use Rattle.std.specs.Prelude.{◌≡◌, IfOk};
ghost use Rattle.clap.specs.Words.{app_of, first_value, found_of};
ghost use Rattle.ba_model.specs.Readings.{Gives};
ghost use Rattle.ba_command.specs.Words.{given_app, given_from};

use crate::command::WordsFault;
use crate::form::{bare, needed, text_of};
use ba_model::{Failure, Str};
use clap::{ArgMatches, Command as Form};
use std::alloc::{AllocError, Global};

/// The files of a script, and of what it is served over.
#[derive(Debug, Drop)]
pub(crate) struct Given {
    pub(crate) schema: Str,
    pub(crate) policy: Str,
    pub(crate) tables: Str,
    pub(crate) script: Str,
}

/// A command of this name that is given a script.
pub(crate) fn given_form<'a>(alloc: Global, name: &'a str) -> Result<Form<'a>, AllocError>
    ensures { IfOk result (λ form. app_of form ≡ given_app name.entry.now) }
{
    bare(alloc, name)
        .arg(needed(alloc, "schema"))?
        .arg(needed(alloc, "policy"))?
        .arg(needed(alloc, "tables"))?
        .arg(needed(alloc, "script"))
}

/// What the values of its options are.
pub(crate) fn given_of(
    alloc: Global,
    matches: &ArgMatches<'_>,
) -> Result<Given, Failure<WordsFault>>
    ensures { Gives result (given_from (first_value (found_of matches.now))) }
{
    let schema = text_of(alloc, matches, "schema")?;
    let policy = text_of(alloc, matches, "policy")?;
    let tables = text_of(alloc, matches, "tables")?;
    let script = text_of(alloc, matches, "script")?;
    match (schema, policy, tables, script) {
        (Some(schema), Some(policy), Some(tables), Some(script)) => Ok(Given {
            schema,
            policy,
            tables,
            script,
        }),
        _ => Err(Failure::Fault(WordsFault::NoForm)),
    }
}
