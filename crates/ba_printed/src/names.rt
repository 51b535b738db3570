//! Clauses, faults and kinds of evidence by their printed names.
ghost use Rattle.ba_model.specs.Readings.{Gives};
ghost use Rattle.ba_printed.specs.Reading.{by_at, by_named, clause_named, fault_named, lex_named};
ghost use Rattle.serde_json.specs.View.{view};

use crate::shapes::{FormFault, no_form, text_of};
use ba_lex::LexFault;
use ba_model::Failure;
use ba_refute::Clause;
use ba_sql_query::ReadQueryFault;
use ba_wire::By;
use serde_json::Value;

/// The clause of the name.
#[tactic(auto, unfolding(crate::specs::Reading::clause_named))]
pub(crate) fn clause_named(name: &str) -> Result<Clause, Failure<FormFault>>
    ensures { Gives result (clause_named name.now) }
{
    if name == "value" {
        Ok(Clause::Value)
    } else if name == "conform_one" {
        Ok(Clause::ConformOne)
    } else if name == "conform_two" {
        Ok(Clause::ConformTwo)
    } else if name == "within" {
        Ok(Clause::Within)
    } else if name == "shown" {
        Ok(Clause::Shown)
    } else if name == "asked" {
        Ok(Clause::Asked)
    } else if name == "absent" {
        Ok(Clause::Absent)
    } else {
        no_form()
    }
}

#[tactic(auto, unfolding(crate::specs::Reading::lex_named))]
fn lex_named(name: &str) -> Result<ReadQueryFault, Failure<FormFault>>
    ensures { Gives result (lex_named name.now) }
{
    if name == "too_long" {
        Ok(ReadQueryFault::Lex(LexFault::TooLong))
    } else if name == "bad_byte" {
        Ok(ReadQueryFault::Lex(LexFault::BadByte))
    } else if name == "open_quote" {
        Ok(ReadQueryFault::Lex(LexFault::OpenQuote))
    } else if name == "number_too_large" {
        Ok(ReadQueryFault::Lex(LexFault::NumberTooLarge))
    } else {
        no_form()
    }
}

/// The fault of the name, other than of what isn't supported.
#[tactic(auto, unfolding(crate::specs::Reading::fault_named))]
pub(crate) fn fault_named(name: &str) -> Result<ReadQueryFault, Failure<FormFault>>
    ensures { Gives result (fault_named name.now) }
{
    if name == "syntax" {
        Ok(ReadQueryFault::Syntax)
    } else if name == "unknown_table" {
        Ok(ReadQueryFault::UnknownTable)
    } else if name == "unknown_column" {
        Ok(ReadQueryFault::UnknownColumn)
    } else if name == "ambiguous" {
        Ok(ReadQueryFault::Ambiguous)
    } else if name == "unknown_param" {
        Ok(ReadQueryFault::UnknownParam)
    } else if name == "kind_differs" {
        Ok(ReadQueryFault::KindDiffers)
    } else if name == "order_on_text" {
        Ok(ReadQueryFault::OrderOnText)
    } else if name == "head_differs" {
        Ok(ReadQueryFault::HeadDiffers)
    } else if name == "too_many" {
        Ok(ReadQueryFault::TooMany)
    } else {
        lex_named(name)
    }
}

#[tactic(auto, unfolding(crate::specs::Reading::by_named))]
fn by_named(name: &str) -> Result<By, Failure<FormFault>>
    ensures { Gives result (by_named name.now) }
{
    if name == "cover" {
        Ok(By::Cover)
    } else if name == "template" {
        Ok(By::Template)
    } else if name == "proof" {
        Ok(By::Proof)
    } else {
        no_form()
    }
}

/// What a query is said to rest on.
#[tactic(auto, unfolding(crate::specs::Reading::by_at))]
pub(crate) fn by_at(value: &Value) -> Result<By, Failure<FormFault>>
    ensures { Gives result (by_at (view value.now)) }
{
    let name = text_of(value)?;
    by_named(name)
}
