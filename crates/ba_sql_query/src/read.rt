//! Reads words, or a text, as a query.
ghost use Rattle.std.specs.Prelude.{[], IfOk};
ghost use Rattle.ba_model.specs.Fit.{IsQuery, kinds_of};
ghost use Rattle.ba_model.specs.Readings.{Gives};
ghost use Rattle.ba_sql_query.specs.Reads.{ReadsQuery};
ghost use Rattle.ba_sql_query.specs.Texts.{query_of, query_of_words};

use crate::fault::ReadQueryFault;
use crate::query::query_of_written;
use ba_grammar::lexemes;
use ba_lex::{Lexeme, tokens};
use ba_model::{Failure, List, MAX_QUERY_BYTES, Parameter, Query, Schema};
use ba_sql_syntax::read_written;
use std::alloc::Global;

/// The query that words mean for a schema and parameters, as `read_query` says. Their number has no limit.
#[tactic(auto, unfolding(crate::specs::Texts::query_of_words))]
pub fn read_words(
    alloc: Global,
    schema: &Schema,
    params: &List<Parameter>,
    words: &[Lexeme],
) -> Result<Query, Failure<ReadQueryFault>>
    ensures exact { Gives result (query_of_words schema.now params.now words.now) }
    // It fits the schema and the parameters, and its counts are within the limits.
    ensures query { IfOk result (IsQuery schema.now (kinds_of params.now) []) }
{
    let text = read_written(alloc, words).map_err(Failure::widen)?;
    query_of_written(alloc, schema, params, &text)
}

#[tactic(auto, unfolding(crate::specs::Texts::query_of))]
fn query_of(
    alloc: Global,
    schema: &Schema,
    params: &List<Parameter>,
    text: &str,
) -> Result<Query, Failure<ReadQueryFault>>
    ensures exact { Gives result (query_of schema.now params.now text.now) }
    ensures query { IfOk result (IsQuery schema.now (kinds_of params.now) []) }
{
    let tokens = tokens(alloc, text, MAX_QUERY_BYTES).map_err(Failure::widen)?;
    let words = lexemes(alloc, tokens)?;
    read_words(alloc, schema, params, words.as_slice())
}

/// The query that a text of at most 65,536 bytes means for a schema and parameters, or the first fault.
///
/// The form is that of `ba_sql_syntax::read_written`: selects with joins and conditions, and their union, a part of the queries of the SQL
/// standard. A source is called by its alias, or by its table's name if it has none; a column without qualifier is that of the only source
/// that has it. `*` stands for all columns of all sources in order. The condition of each select is brought into its disjunctive form,
/// whose members are the query's parts, in the order of the text. IS NULL and IS NOT NULL may stand behind any column, literal or
/// parameter; the right side of such an atom repeats the left.
///
/// Faults, of which the first of this order is told, wherever it stands:
/// - `Lex`: the text is too long, or has no tokens.
/// - `Unsupported`: the first word or sign that isn't supported, before any look at the grammar. NULL is one everywhere but in IS NULL
///   and IS NOT NULL.
/// - `Syntax`: the grammar has no such words.
/// - `UnknownTable`: a source's table isn't of the schema, or a qualifier calls no source of its select.
/// - `UnknownColumn`: no source that may be meant has the column.
/// - `Ambiguous`: a qualifier calls two sources, or two sources have a column without qualifier.
/// - `UnknownParam`: a parameter isn't declared.
/// - `KindDiffers`: the sides of a comparison have different kinds.
/// - `OrderOnText`: `<`, `<=`, `>` or `>=` of texts.
/// - `HeadDiffers`: two selects put out different numbers or kinds of columns.
/// - `TooMany`: more than 32 parts, or a part with more than 8 tables, 64 atoms or 256 heads.
///
/// `NoMemory` leaves nothing behind.
pub fn read_query(
    alloc: Global,
    schema: &Schema,
    params: &List<Parameter>,
    text: &str,
) -> Result<Query, Failure<ReadQueryFault>>
    ensures exact { Gives result (query_of schema.now params.now text.now) }
    // The tokens, the grammar, the schema's names and the limits say what a text reads as.
    ensures reads { IfOk result (ReadsQuery schema.now params.now text.now) }
    // It fits the schema and the parameters, and its counts are within the limits.
    ensures query { IfOk result (IsQuery schema.now (kinds_of params.now) []) }
{
    query_of(alloc, schema, params, text)
}
