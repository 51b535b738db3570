//! JSON values as lists, texts and numbers.
ghost use Rattle.std.specs.Prelude.{map};
ghost use Rattle.serde_json.specs.View.{view};
ghost use Rattle.ba_model.specs.Readings.{Gives, Sees};
ghost use Rattle.ba_store.specs.Shapes.{list_at, number_at, text_at};

use crate::fault::{StoreField, bad};
use ba_model::Failure;
use ba_proof::{as_list, as_short};
use serde_json::Value;

/// The items of an array.
pub(crate) fn list_at(field: StoreField, value: &Value) -> Result<&[Value], Failure<StoreField>>
    ensures { Sees (λ v. map view v.now) result (list_at field (view value.now)) }
{
    match as_list(value) {
        Some(list) => Ok(list),
        None => bad(field),
    }
}

/// A text.
pub(crate) fn text_at(field: StoreField, value: &Value) -> Result<&str, Failure<StoreField>>
    ensures { Sees (λ s. s.now) result (text_at field (view value.now)) }
{
    match value.as_str() {
        Some(text) => Ok(text),
        None => bad(field),
    }
}

/// A number of 32 bits.
pub(crate) fn number_at(field: StoreField, value: &Value) -> Result<u32, Failure<StoreField>>
    ensures { Gives result (number_at field (view value.now)) }
{
    match as_short(value) {
        Some(n) => Ok(n),
        None => bad(field),
    }
}
