//! JSON values as lists, texts and numbers.
ghost use Rattle.std.specs.Prelude.{◌≡◌, map, option_map};
ghost use Rattle.serde_json.specs.View.{view};
ghost use Rattle.ba_model.specs.Readings.{Sees};
ghost use Rattle.ba_proof.specs.Shapes.{as_list, as_short, list_at, text_at};

use crate::fault::{ProofFault, ProofField, bad};
use ba_model::Failure;
use serde_json::Value;

/// The greatest number of a branch, a fact, a key, a link, a rule, a view, a part or an unknown.
pub(crate) const GREATEST: u64 = 0xffff_ffff;

/// The items of an array.
#[tactic(auto, using(crate::proofs::ShapeLemmas::items_are))]
pub fn as_list(value: &Value) -> Option<&[Value]>
    ensures { option_map (λ v. map view v.now) result ≡ as_list (view value.now) }
{
    match value.as_array() {
        Some(list) => Some(list.as_slice()),
        None => None,
    }
}

/// A whole number of 32 bits without a sign.
#[tactic(auto, unfolding(crate::specs::Shapes::as_short))]
pub fn as_short(value: &Value) -> Option<u32>
    ensures { result ≡ as_short (view value.now) }
{
    match value.as_u64() {
        Some(n) if n <= GREATEST => Some(n as u32),
        _ => None,
    }
}

/// The items of an array; anything else is a bad field.
pub(crate) fn list_at(field: ProofField, value: &Value) -> Result<&[Value], Failure<ProofFault>>
    ensures { Sees (λ v. map view v.now) result (list_at field (view value.now)) }
{
    match as_list(value) {
        Some(list) => Ok(list),
        None => bad(field),
    }
}

/// A text; anything else is a bad field.
pub(crate) fn text_at(field: ProofField, value: &Value) -> Result<&str, Failure<ProofFault>>
    ensures { Sees (λ s. s.now) result (text_at field (view value.now)) }
{
    match value.as_str() {
        Some(text) => Ok(text),
        None => bad(field),
    }
}
