//! Options whose values are numbers.
ghost use Rattle.std.specs.Prelude.{◌≡◌, ◌≤◌, false, IfSome};
ghost use Rattle.clap.specs.Words.{first_value, found_of, rule_of};
ghost use Rattle.ba_command.specs.Words.{number_in, number_or, number_rule};

use crate::form::option;
use clap::builder::ValueParser;
use clap::{Arg, ArgMatches};
use std::alloc::Global;

/// An option whose value is a number of a range.
pub(crate) fn number<'a>(alloc: Global, id: &'a str, least: u64, most: u64) -> Arg<'a>
    ensures rule { rule_of result ≡ number_rule id.entry.now least most }
    ensures local { result.global ≡ false }
{
    option(alloc, id).value_parser(ValueParser::Unsigned(least, most))
}

/// The number between two that is given under an id, if there is one.
pub(crate) fn number_of(matches: &ArgMatches<'_>, id: &str, least: u64, most: u64) -> Option<u64>
    ensures is { result ≡ number_in least most (first_value (found_of matches.now) id.now) }
    ensures within { IfSome result (λ number. (least ≤ number) × (number ≤ most)) }
{
    match matches.get_str(id) {
        Some(text) => match text.parse::<u64>() {
            Ok(number) => {
                if least <= number && number <= most {
                    Some(number)
                } else {
                    None
                }
            }
            Err(_) => None,
        },
        None => None,
    }
}

/// The number between two that is given under an id, or another of these.
pub(crate) fn number_or(
    matches: &ArgMatches<'_>,
    id: &str,
    least: u64,
    most: u64,
    other: u64,
) -> u64
    requires { (least ≤ other) × (other ≤ most) }
    ensures is { result ≡ number_or least most other (first_value (found_of matches.now) id.now) }
    ensures within { (least ≤ result) × (result ≤ most) }
{
    number_of(matches, id, least, most).unwrap_or(other)
}
