//! The query that a written text means.
ghost use Rattle.std.specs.Prelude.{◌≡◌, [], IfOk};
ghost use Rattle.ba_model.specs.Fit.{IsQuery, kinds_of};
ghost use Rattle.ba_model.specs.Readings.{Gives};
ghost use Rattle.ba_sql_query.specs.Meaning.{fault_of, query_of_selects, query_of_written};
ghost use Rattle.ba_sql_query.specs.Resolved.{AreResolved};

use crate::count::size_of;
use crate::expand::parts_of;
use crate::fault::ReadQueryFault;
use crate::kinds::{heads_agree, kinds_agree, orders_numbers};
use crate::resolve::names_of;
use crate::resolved::ResolvedSelect;
use ba_model::{Failure, List, Parameter, Query, Schema};
use ba_sql_syntax::QueryText;
use std::alloc::{AllocError, Global};

// The first fault beside those of names.
#[tactic(auto, unfolding(crate::specs::Meaning::fault_of))]
fn fault_of(
    alloc: Global,
    schema: &Schema,
    params: &[Parameter],
    selects: &[ResolvedSelect],
) -> Result<Option<ReadQueryFault>, AllocError>
    ensures { IfOk result (λ fault. fault ≡ fault_of schema.now params.now selects.now) }
{
    if !kinds_agree(schema, params, selects) {
        return Ok(Some(ReadQueryFault::KindDiffers));
    }
    if !orders_numbers(schema, params, selects) {
        return Ok(Some(ReadQueryFault::OrderOnText));
    }
    let size = size_of(alloc, selects)?;
    if !heads_agree(schema, params, selects) || !size.some {
        return Ok(Some(ReadQueryFault::HeadDiffers));
    }
    if !size.within {
        return Ok(Some(ReadQueryFault::TooMany));
    }
    Ok(None)
}

// The query of the selects, or the first fault beside those of names.
fn query_of_selects(
    alloc: Global,
    schema: &Schema,
    params: &List<Parameter>,
    selects: &[ResolvedSelect],
) -> Result<Query, Failure<ReadQueryFault>>
    requires { AreResolved schema.now params.now selects.now }
    ensures exact { Gives result (query_of_selects schema.now params.now selects.now) }
    ensures query { IfOk result (IsQuery schema.now (kinds_of params.now) []) }
{
    let fault = fault_of(alloc, schema, params.as_slice(), selects)?;
    match fault {
        Some(fault) => Err(Failure::Fault(fault)),
        None => {
            let parts = parts_of(alloc, selects)?;
            Ok(Query { parts })
        }
    }
}

/// The query that a written text means for a schema and parameters, or the first fault of `ReadQueryFault`'s order.
#[tactic(auto, unfolding(crate::specs::Meaning::query_of_written))]
pub fn query_of_written(
    alloc: Global,
    schema: &Schema,
    params: &List<Parameter>,
    text: &QueryText,
) -> Result<Query, Failure<ReadQueryFault>>
    ensures exact { Gives result (query_of_written schema.now params.now text.now) }
    ensures query { IfOk result (IsQuery schema.now (kinds_of params.now) []) }
{
    let selects = names_of(alloc, schema, params.as_slice(), text)?;
    query_of_selects(alloc, schema, params, selects.as_slice())
}
