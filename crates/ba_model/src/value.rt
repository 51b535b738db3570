//! Values and rows.
ghost use Rattle.std.specs.Prelude.{◌≡◌, IfOk};
ghost use Rattle.ba_model.specs.Order.{value_cmp};
ghost use Rattle.ba_model.specs.declared.value.Value.TheVariants.{Text};

use crate::list::List;
use crate::shared::Shared;
use crate::text::Str;
use std::alloc::{AllocError, Global};
use std::cmp::Ordering;

/// A value of a column: NULL, a whole number of 64 bits or a text, which its copies hold in common.
///
/// The definitions of databases range over all whole numbers.
#[derive(Debug, Drop)]
pub enum Value {
    Null,
    Int(i64),
    Text(Shared<Str>),
}

/// The values of a row, column by column.
pub type Row = List<Value>;

/// For each table of a schema its rows, which are read as a set.
#[derive(Debug, Drop)]
pub struct RowSet {
    pub tables: List<List<Row>>,
}

impl Value {
    /// A text, in a cell of its own.
    pub fn text(alloc: Global, text: Str) -> Result<Value, AllocError>
        ensures { IfOk result (λ it. it ≡ Text text) }
    {
        Ok(Value::Text(Shared::new(alloc, text)?))
    }

    /// NULL first, then whole numbers by value, then texts by bytes.
    pub fn order(&self, other: &Value) -> Ordering
        ensures { result ≡ value_cmp self.now other.now }
    {
        match (self, other) {
            (Value::Null, Value::Null) => Ordering::Equal,
            (Value::Null, _) => Ordering::Less,
            (_, Value::Null) => Ordering::Greater,
            (Value::Int(n), Value::Int(m)) => n.cmp(m),
            (Value::Int(_), Value::Text(_)) => Ordering::Less,
            (Value::Text(_), Value::Int(_)) => Ordering::Greater,
            (Value::Text(s), Value::Text(t)) => s.as_bytes().cmp(t.as_bytes()),
        }
    }
}
