//! That the numbers of a pair that was read are within 64 bits.
ghost use Rattle.std.specs.Prelude.{All};
ghost use Rattle.ba_refute.specs.Counterexamples.{AreStored, IsPairStored, IsStored};

use ba_model::{List, Row, RowSet, Value};
use ba_refute::Counterexample;

fn know_value(value: &Value)
    ensures { IsStored value.now }
{
    match value {
        Value::Null => {}
        Value::Int(n) => {
            let _number = *n;
        }
        Value::Text(_) => {}
    }
}

fn know_row(row: &[Value])
    ensures { All IsStored row.now }
{
    for value in row {
        know_value(value);
    }
}

fn know_rows(rows: &[Row])
    ensures { All (All IsStored) rows.now }
{
    for row in rows {
        know_row(row.as_slice());
    }
}

fn know_tables(tables: &[List<Row>])
    ensures { All (All (All IsStored)) tables.now }
{
    for rows in tables {
        know_rows(rows.as_slice());
    }
}

fn know_set(set: &RowSet)
    ensures { AreStored set.now }
{
    know_tables(set.tables.as_slice());
}

/// The numbers of the pair are within 64 bits. It changes nothing, and reads each value once.
pub(crate) fn know_pair(pair: &Counterexample)
    ensures { IsPairStored pair.now }
{
    know_set(&pair.one);
    know_set(&pair.two);
    know_row(pair.row.as_slice());
}
