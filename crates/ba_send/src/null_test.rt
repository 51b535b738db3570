//! IS NULL of columns that have no NULL.
ghost use Rattle.std.specs.Prelude.{◌≡◌};
ghost use Rattle.ba_send.specs.Sendable.{is_filled, is_null_test, misreads, part_has_null_test, query_has_null_test};

use crate::column::column_at;
use ba_model::{Atom, Op, Operand, Part, Query, Schema};
use ba_target::Database;

fn is_filled(schema: &Schema, from: &[u32], operand: &Operand) -> bool
    ensures { result ≡ is_filled schema.now from.now operand.now }
{
    match operand {
        Operand::Col(place, column) => match column_at(schema, from, *place, *column) {
            Some(column) => !column.nullable,
            None => false,
        },
        Operand::Val(_) | Operand::Param(_) | Operand::Var(_) => false,
    }
}

fn is_null_test(schema: &Schema, from: &[u32], atom: &Atom) -> bool
    ensures { result ≡ is_null_test schema.now from.now atom.now }
{
    matches!(atom.op, Op::IsNull) && is_filled(schema, from, &atom.left)
}

fn part_has_null_test(schema: &Schema, part: &Part) -> bool
    ensures { result ≡ part_has_null_test schema.now part.now }
{
    let from = part.from.as_slice();
    let conds = part.conds.as_slice();
    conds.iter().any(|atom| is_null_test(schema, from, atom))
}

fn query_has_null_test(schema: &Schema, query: &Query) -> bool
    ensures { result ≡ query_has_null_test schema.now query.now }
{
    let parts = query.parts.as_slice();
    parts.iter().any(|part| part_has_null_test(schema, part))
}

/// Whether the database finds rows by an IS NULL of the query that no row meets, since the schema
/// lets no NULL stand in the column.
pub fn misreads(database: Database, schema: &Schema, query: &Query) -> bool
    ensures { result ≡ misreads database schema.now query.now }
{
    match database {
        Database::PostgreSql | Database::Sqlite => false,
        Database::MySql => query_has_null_test(schema, query),
    }
}
