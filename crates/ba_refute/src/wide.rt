//! Values whose numbers may be past 64 bits.
ghost use Rattle.std.specs.Prelude.{◌≡◌, refl, IfOk, All};
ghost use Rattle.std.specs.Cmp.{partial_equiv_from_equiv, partial_order_from_total};
ghost use Rattle.std.specs.Ordering.{eq_by_cmp, as_partial_cmp};
ghost use Rattle.ba_model.specs.Order.{value_cmp};
ghost use Rattle.ba_model.specs.OrderLaws.{value_equiv, value_total};
ghost use Rattle.ba_model.specs.declared.value.Value.TheVariants.{Null, Int, Text};
ghost use Rattle.ba_refute.specs.Counterexamples.{IsStored};
ghost use Rattle.ba_refute.specs.Wide.{Narrows};

use ba_model::{Duplicate, List, Row, Shared, Str, Value};
use std::alloc::{AllocError, Global};
use std::cmp::Ordering;
use std::marker::Model;

#[derive(Drop)]
enum Content {
    Null,
    Int(i128),
    Text(Shared<Str>),
}

/// A value whose number may be past 64 bits. A contract sees the value.
#[derive(Drop)]
pub(crate) struct WideValue {
    content: Content,
}

/// The values of a row, column by column.
pub(crate) type WideRow = List<WideValue>;

impl Model for WideValue {
    ghost use Rattle.ba_model.specs.declared.value.Value.{Value as Plain};
    ghost use Rattle.ba_refute.specs.Wide.{plain};

    ghost Value = { Plain };

    ghost view = { λ it. plain it.content };
}

impl WideValue {
    pub(crate) fn null() -> WideValue
        ensures { result ≡ Null }
    {
        WideValue {
            content: Content::Null,
        }
    }

    pub(crate) fn number(number: i128) -> WideValue
        ensures { result ≡ Int number }
    {
        WideValue {
            content: Content::Int(number),
        }
    }

    pub(crate) fn text(text: Shared<Str>) -> WideValue
        ensures { result ≡ Text text }
    {
        WideValue {
            content: Content::Text(text),
        }
    }

    /// A copy of a value.
    pub(crate) fn of(alloc: Global, value: &Value) -> Result<WideValue, AllocError>
        ensures { IfOk result (λ it. it ≡ value.now) }
    {
        match value {
            Value::Null => Ok(WideValue::null()),
            Value::Int(n) => Ok(WideValue::number(*n as i128)),
            Value::Text(text) => Ok(WideValue::text(text.copy(alloc)?)),
        }
    }

    fn order(&self, other: &WideValue) -> Ordering
        ensures { result ≡ value_cmp self.now other.now }
    {
        match (&self.content, &other.content) {
            (Content::Null, Content::Null) => Ordering::Equal,
            (Content::Null, _) => Ordering::Less,
            (_, Content::Null) => Ordering::Greater,
            (Content::Int(n), Content::Int(m)) => n.cmp(m),
            (Content::Int(_), Content::Text(_)) => Ordering::Less,
            (Content::Text(_), Content::Int(_)) => Ordering::Greater,
            (Content::Text(s), Content::Text(t)) => s.as_bytes().cmp(t.as_bytes()),
        }
    }

    /// The value, if its number is within 64 bits.
    fn narrow(&self, alloc: Global) -> Result<Option<Value>, AllocError>
        ensures { IfOk result (Narrows IsStored self.now) }
    {
        match &self.content {
            Content::Null => Ok(Some(Value::Null)),
            Content::Int(number) => Ok(narrow_number(*number)),
            Content::Text(text) => Ok(Some(Value::Text(text.copy(alloc)?))),
        }
    }
}

fn narrow_number(number: i128) -> Option<Value>
    ensures { Narrows IsStored (Int number) result }
{
    if number < i64::MIN as i128 || number > i64::MAX as i128 {
        return None;
    }
    Some(Value::Int(number as i64))
}

/// The row, if its numbers are within 64 bits.
pub(crate) fn narrow_row(alloc: Global, values: &[WideValue]) -> Result<Option<Row>, AllocError>
    ensures { IfOk result (Narrows (All IsStored) values.now) }
{
    let mut row = Vec::with_capacity(alloc, values.len())?;
    for value in values {
        let narrow = value.narrow(alloc)?;
        match narrow {
            Some(value) => row.push(value)?,
            None => return Ok(None),
        }
    }
    Ok(Some(List::from_vec(row)))
}

/// The rows, if their numbers are within 64 bits.
pub(crate) fn narrow_rows(alloc: Global, rows: &[WideRow]) -> Result<Option<List<Row>>, AllocError>
    ensures { IfOk result (Narrows (All (All IsStored)) rows.now) }
{
    let mut all = Vec::with_capacity(alloc, rows.len())?;
    for row in rows {
        let narrow = narrow_row(alloc, row.as_slice())?;
        match narrow {
            Some(row) => all.push(row)?,
            None => return Ok(None),
        }
    }
    Ok(Some(List::from_vec(all)))
}

/// The rows of each table, if their numbers are within 64 bits.
pub(crate) fn narrow_tables(
    alloc: Global,
    tables: &[List<WideRow>],
) -> Result<Option<List<List<Row>>>, AllocError>
    ensures { IfOk result (Narrows (All (All (All IsStored))) tables.now) }
{
    let mut all = Vec::with_capacity(alloc, tables.len())?;
    for rows in tables {
        let narrow = narrow_rows(alloc, rows.as_slice())?;
        match narrow {
            Some(rows) => all.push(rows)?,
            None => return Ok(None),
        }
    }
    Ok(Some(List::from_vec(all)))
}

impl Duplicate for WideValue {
    fn copy(&self, alloc: Global) -> Result<WideValue, AllocError> {
        match &self.content {
            Content::Null => Ok(WideValue::null()),
            Content::Int(n) => Ok(WideValue::number(*n)),
            Content::Text(text) => Ok(WideValue::text(text.copy(alloc)?)),
        }
    }
}

impl PartialEq for WideValue {
    ghost eq = { eq_by_cmp value_cmp };

    ghost laws = { partial_equiv_from_equiv value_equiv };

    fn eq(&self, other: &Self) -> bool {
        self.order(other).is_eq()
    }
}

impl Eq for WideValue {
    ghost laws = { value_equiv };
}

impl PartialOrd for WideValue {
    ghost partial_cmp = { as_partial_cmp value_cmp };

    ghost laws = { partial_order_from_total value_total };

    fn partial_cmp(&self, other: &Self) -> Option<Ordering> {
        Some(self.order(other))
    }
}

impl Ord for WideValue {
    ghost cmp = { value_cmp };

    ghost total = { value_total };

    ghost matches_partial_cmp = { λ x y. refl };

    ghost matches_eq = { λ x y. refl };

    fn cmp(&self, other: &Self) -> Ordering {
        self.order(other)
    }
}
