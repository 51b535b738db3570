//! Queries.
ghost use Rattle.std.specs.Prelude.{◌≡◌, ◌++◌, [], ◌∷◌, IfErr, IfOk, OnOk, codes, map, string_bytes};
ghost use Rattle.ba_keys.specs.Literals.{part_with};
ghost use Rattle.ba_model.specs.Fit.{ContextFits, IsQuery, kinds_of};
ghost use Rattle.ba_model.specs.Readings.{OfFault};
ghost use Rattle.ba_model.specs.SchemaFaults.{AreTables};
ghost use Rattle.ba_send.specs.ReadBack.{ReadsSent};
ghost use Rattle.ba_send.specs.Sendable.{IsSendable, IsUnsendable};
ghost use Rattle.ba_send.specs.Sent.{closed, following, most_sent_bytes, part_pieces, pieces_text, sent_bytes, word};
ghost use Rattle.ba_target.specs.Names.{Serves};

use crate::fault::Unsendable;
use crate::null_test::misreads;
use crate::part::push_selected;
use crate::zero::query_has_zero;
use ba_model::{Context, Failure, Part, Policy, Query, Schema, Value};
use ba_target::Target;
use std::alloc::{AllocError, Global};

/// The most bytes of a text that is sent.
pub const MAX_SENT_BYTES: usize = 1_048_576;

/// Adds the parts behind the first, each behind UNION.
fn push_next_parts(
    out: &mut String,
    target: &Target,
    schema: &Schema,
    values: &[Value],
    several: bool,
    next: &[Part],
) -> Result<(), AllocError>
    ensures { OnOk result (string_bytes out.new ≡ string_bytes out.old
        ++ pieces_text target.now.database (following (word (codes "UNION"))
        (map (part_pieces target.now schema.now several)
        (map (part_with 0 values.now) next.now)))) }
{
    for part in next {
        out.push_str(" UNION")?;
        out.push_str(" SELECT")?;
        push_selected(out, target, schema, values, several, part)?;
    }
    Ok(())
}

fn printed(
    alloc: Global,
    target: &Target,
    schema: &Schema,
    context: &Context,
    query: &Query,
) -> Result<String, AllocError>
    ensures { IfOk result (λ text. string_bytes text
        ≡ sent_bytes target.now schema.now context.now query.now) }
{
    let values = context.values.as_slice();
    let mut out = String::new(alloc);
    let parts = query.parts.as_slice();
    let several = parts.len() > 1;
    match parts {
        [] => Ok(out),
        [first, next @ ..] => {
            out.push_str("SELECT")?;
            push_selected(&mut out, target, schema, values, several, first)?;
            push_next_parts(&mut out, target, schema, values, several, next)?;
            Ok(out)
        }
    }
}

/// The text that is sent to the database for a query of the policy under a context. By the grammar
/// of questions, over the tokens that the database has, it is read as this query, with the context's
/// value for each parameter, and as no other.
///
/// Between each two of its pieces stands one blank. A part is `SELECT DISTINCT h , .. FROM
/// "namespace"."T" t0 , .. WHERE ( a ) AND ..`; several parts are joined by UNION, without
/// DISTINCT. Names stand in quotes, a column as `t0."C"`, a whole number in decimal, and a text so
/// that the database reads its very bytes.
///
/// The database serves the policy's schema, and the context fits its parameters. Errors: want of
/// memory; in MySQL an IS NULL of a column that has no NULL; a text with the byte 0; more than
/// 1,048,576 bytes. An error leaves nothing behind.
pub fn sent_text(
    alloc: Global,
    target: &Target,
    policy: &Policy,
    context: &Context,
    query: &Query,
) -> Result<String, Failure<Unsendable>>
    requires tables { AreTables policy.now.schema.tables }
    requires serves { Serves target.now policy.now.schema }
    requires query { IsQuery policy.now.schema (kinds_of policy.now.params) [] query.now }
    requires context { ContextFits (kinds_of policy.now.params) context.now }
    ensures text { IfOk result (λ text. string_bytes text
        ≡ sent_bytes target.now policy.now.schema context.now query.now) }
    ensures reads { IfOk result (λ text. ReadsSent target.now policy.now.schema
        (string_bytes text) (closed context.now query.now)) }
    ensures sendable { IfOk result (λ _.
        IsSendable target.now policy.now.schema context.now query.now) }
    ensures fault { IfErr result (λ e. OfFault e
        (IsUnsendable target.now policy.now.schema context.now query.now)) }
{
    if misreads(target.database, &policy.schema, query) {
        return Err(Failure::Fault(Unsendable::NullTest));
    }
    if query_has_zero(context.values.as_slice(), query) {
        return Err(Failure::Fault(Unsendable::ZeroByte));
    }
    let text = printed(alloc, target, &policy.schema, context, query)?;
    if text.len() > MAX_SENT_BYTES {
        return Err(Failure::Fault(Unsendable::TooLong));
    }
    Ok(text)
}
