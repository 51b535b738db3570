//! Commands and their options, as `clap` reads them.
ghost use Rattle.std.specs.Prelude.{◌≡◌, ◌≢◌, false, IfOk};
ghost use Rattle.clap.specs.Words.{app_of, first_value, found_of, kind_of, rule_of};
ghost use Rattle.ba_command.specs.Words.{bare, flag_rule, is_set, needed, option_rule};

use crate::command::WordsFault;
use ba_model::{Failure, Str};
use clap::error::ErrorKind;
use clap::{Arg, ArgAction, ArgMatches, Command as Form, Error};
use std::alloc::{AllocError, Global};

/// An option with one value.
pub(crate) fn option<'a>(alloc: Global, id: &'a str) -> Arg<'a>
    ensures rule { rule_of result ≡ option_rule id.entry.now }
    ensures local { result.global ≡ false }
{
    Arg::new(alloc, id).long(id).action(ArgAction::Set)
}

/// An option that must be given.
pub(crate) fn needed<'a>(alloc: Global, id: &'a str) -> Arg<'a>
    ensures rule { rule_of result ≡ needed (option_rule id.entry.now) }
    ensures local { result.global ≡ false }
{
    option(alloc, id).required(true)
}

/// An option that has no value.
pub(crate) fn flag<'a>(alloc: Global, id: &'a str) -> Arg<'a>
    ensures rule { rule_of result ≡ flag_rule id.entry.now }
    ensures local { result.global ≡ false }
{
    Arg::new(alloc, id).long(id).action(ArgAction::SetTrue)
}

/// A command without its options.
pub(crate) fn bare<'a>(alloc: Global, name: &'a str) -> Form<'a>
    ensures { app_of result ≡ bare name.entry.now }
{
    Form::new(alloc, name)
        .no_binary_name(true)
        .disable_help_flag(true)
        .disable_version_flag(true)
}

/// The text given under an id.
pub(crate) fn text_of(
    alloc: Global,
    matches: &ArgMatches<'_>,
    id: &str,
) -> Result<Option<Str>, AllocError>
    ensures { IfOk result (λ text. text ≡ first_value (found_of matches.now) id.now) }
{
    match matches.get_str(id) {
        Some(text) => Ok(Some(Str::new(alloc, text)?)),
        None => Ok(None),
    }
}

/// Whether an option that has no value is given.
pub(crate) fn is_set(matches: &ArgMatches<'_>, id: &str) -> bool
    ensures { result ≡ is_set (first_value (found_of matches.now) id.now) }
{
    match matches.get_str(id) {
        Some(text) => text == "true",
        None => false,
    }
}

/// Want of memory, or bad words.
pub(crate) fn refusal(e: &Error) -> Failure<WordsFault>
    ensures { result ≡ Failure.Fault WordsFault.NoForm → kind_of e.now ≢ ErrorKind.OutOfMemory }
{
    if e.kind() == ErrorKind::OutOfMemory {
        Failure::NoMemory
    } else {
        Failure::Fault(WordsFault::NoForm)
    }
}
