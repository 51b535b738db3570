//! Reads the words of a command line.
ghost use Rattle.std.specs.Prelude.{◌≡◌, ◌≤◌, IfOk, IfSome, map, string_bytes};
ghost use Rattle.ba_model.specs.Readings.{Gives};
ghost use Rattle.ba_model.specs.Limits.{most_budget};
ghost use Rattle.ba_command.specs.Words.{AreOrders, AreWorkers, WorkloadFits, budget_of, command_of, orders_of, workers_of};

use crate::audit::read_audit;
use crate::check::read_check;
use crate::command::{Command, WordsFault};
use crate::generate::read_gen;
use crate::run::read_run;
use crate::store::read_store;
use ba_model::Failure;
use std::alloc::Global;

/// The command that the words ask for, without the program's name: `run`, `check`, `gen`, `store` or
/// `audit` and its options, in any order, each once and with one value, as `--option VALUE` or
/// `--option=VALUE`; `--print` and `--proofs` have none. Numbers are in decimal, and within their
/// ranges.
///
/// All else is `NoForm`: other commands, no words, a missing or repeated option or one of another
/// command, as `--load` or `--proofs` behind `store`, an abbreviation, a word left over.
pub fn read_words(alloc: Global, words: &[String]) -> Result<Command, Failure<WordsFault>>
    ensures exact { Gives result (command_of (map string_bytes words.now)) }
    ensures budget { IfOk result (λ command. budget_of command ≤ most_budget) }
    ensures workers { IfOk result (λ command. IfSome (workers_of command) AreWorkers) }
    ensures orders { IfOk result (λ command. IfSome (orders_of command) AreOrders) }
    ensures workload { IfOk result WorkloadFits }
{
    let [name, rest @ ..] = words else {
        return Err(Failure::Fault(WordsFault::NoForm));
    };
    if name.as_str() == "run" {
        read_run(alloc, rest)
    } else if name.as_str() == "check" {
        read_check(alloc, rest)
    } else if name.as_str() == "gen" {
        read_gen(alloc, rest)
    } else if name.as_str() == "store" {
        read_store(alloc, rest)
    } else if name.as_str() == "audit" {
        read_audit(alloc, rest)
    } else {
        Err(Failure::Fault(WordsFault::NoForm))
    }
}
