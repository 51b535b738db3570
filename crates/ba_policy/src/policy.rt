//! Policies.
ghost use Rattle.std.specs.Prelude.{◌≡◌, ◌≤◌, All, IfOk, length, map};
ghost use Rattle.ba_model.specs.Fit.{PolicyFits};
ghost use Rattle.ba_model.specs.Readings.{Gives};
ghost use Rattle.ba_model.specs.Limits.{most_cache_keys, most_params, most_views};
ghost use Rattle.ba_policy.specs.Meaning.{IsSmall, all_added, finished, nothing, params_in};
ghost use Rattle.ba_policy.specs.Reading.{policy_of, policy_of_statements, words_of};

use crate::draft::{draft_of, finish};
use crate::error::PolicyFault;
use crate::statement::statements;
use ba_grammar::lexemes;
use ba_lex::{Lexeme, tokens_of_bytes};
use ba_model::{Failure, List, MAX_PARAMS, MAX_TEXT_BYTES, MAX_VIEWS, Policy, Schema, Shared};
use std::alloc::Global;

fn words_of(alloc: Global, bytes: &[u8]) -> Result<List<Lexeme>, Failure<PolicyFault>>
    ensures { Gives result (words_of bytes.now) }
{
    let tokens = tokens_of_bytes(alloc, bytes, MAX_TEXT_BYTES).map_err(Failure::widen)?;
    Ok(lexemes(alloc, tokens)?)
}

/// The policy that a file is: `{ PARAM word ( INT | TEXT ) ; | CREATE VIEW word AS words ; | CREATE KEY word ( arguments ) AS words
/// { ALSO words } ; }`, where the arguments are `[ word ( INT | TEXT ) { , word ( INT | TEXT ) } ]`.
///
/// A policy is a set of views with parameters of the request's context, as in the OSDI 2022 paper on Blockaid, and the keys of the
/// application's own cache with the queries whose answers lie behind them. Names are any unquoted words, keywords too. A view's words are
/// those up to the next `;`, read as `ba_sql_query::read_words` reads them, with the parameters that are declared before the view. Those of
/// a key end at the unquoted word ALSO too, in any case; its queries may name the parameters that are declared before the key, and its
/// arguments. In the policy an argument stands behind all parameters, also those that are declared later. The policy holds the schema in
/// common with the caller.
///
/// The file has at most 1,048,576 bytes and may be empty. The first of these faults is told:
/// - `Lex`: the file is too long, isn't UTF-8, or has no tokens.
/// - `Syntax`: the words aren't statements of these three forms, at whatever place.
/// - then statement by statement `DuplicateParam` and `DuplicateView`, where a parameter or a view before has the name, and `View`, where a
///   view's words are no query, with the query's own fault; for a key first `DuplicateParam`, where an argument has the name of a parameter
///   before the key or of an argument before it, then `DuplicateKey`, where a key before has the name, then `Key` with the fault of the first
///   of its queries that is none.
/// - `TooMany`: more than 128 views, or else more than 128 cache keys, or else a key with more than 8 queries, or else more than 16 parameters,
///   where a key's arguments count with the policy's parameters.
///
/// `NoMemory` leaves nothing behind.
#[tactic(auto, unfolding(crate::specs::Reading::policy_of, crate::specs::Reading::policy_of_statements))]
pub fn read_policy(
    alloc: Global,
    schema: &Shared<Schema>,
    bytes: &[u8],
) -> Result<Policy, Failure<PolicyFault>>
    ensures exact { Gives result (policy_of schema.now bytes.now) }
    ensures same { IfOk result (λ policy. policy.schema ≡ schema.now) }
    ensures fits { IfOk result PolicyFits }
    ensures views { IfOk result (λ policy. length policy.views ≤ most_views) }
    ensures params { IfOk result (λ policy. length policy.params ≤ most_params) }
    ensures keys { IfOk result (λ policy. length policy.keys ≤ most_cache_keys) }
    ensures small { IfOk result (λ policy. All (IsSmall policy.params) policy.keys) }
{
    let words = words_of(alloc, bytes)?;
    let statements = statements(alloc, words.as_slice()).map_err(Failure::widen)?;
    let draft = draft_of(alloc, schema, statements.as_slice())?;
    finish(alloc, schema, draft)
}
