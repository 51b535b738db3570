//! JSON values as texts, numbers, lists and fields.
ghost use Rattle.std.specs.Prelude.{◌≡◌, map};
ghost use Rattle.std.specs.Str.{bytes_eq};
ghost use Rattle.serde_json.specs.View.{members_view, view};
ghost use Rattle.ba_model.specs.Readings.{Gives, Sees, each};
ghost use Rattle.ba_printed.specs.Shapes.{field, is_true, keys_are, list_of, long_in, long_of, longs_of, only_if, text_in, text_of, word_in};

use ba_model::{Failure, List, Str};
use ba_proof::as_list;
use serde_json::{Map, Value};
use std::alloc::Global;

/// Why a value says nothing: it isn't what a form has in its place.
#[derive(Clone, Copy, Debug, PartialEq, Eq)]
pub(crate) enum FormFault {
    NoForm,
}

/// The value is of no form.
pub(crate) fn no_form<T>() -> Result<T, Failure<FormFault>>
    ensures { result ≡ Err (Failure.Fault FormFault.NoForm) }
{
    Err(Failure::Fault(FormFault::NoForm))
}

/// Nothing more, where it holds.
pub(crate) fn only_if(holds: bool) -> Result<(), Failure<FormFault>>
    ensures { Gives result (only_if holds) }
{
    if holds { Ok(()) } else { no_form() }
}

/// A text.
pub(crate) fn text_of(value: &Value) -> Result<&str, Failure<FormFault>>
    ensures { Sees (λ s. s.now) result (text_of (view value.now)) }
{
    match value.as_str() {
        Some(text) => Ok(text),
        None => no_form(),
    }
}

/// A whole number of 64 bits without a sign.
pub(crate) fn long_of(value: &Value) -> Result<u64, Failure<FormFault>>
    ensures { Gives result (long_of (view value.now)) }
{
    match value.as_u64() {
        Some(n) => Ok(n),
        None => no_form(),
    }
}

/// The items of an array.
pub(crate) fn list_of(value: &Value) -> Result<&[Value], Failure<FormFault>>
    ensures { Sees (λ v. map view v.now) result (list_of (view value.now)) }
{
    match as_list(value) {
        Some(list) => Ok(list),
        None => no_form(),
    }
}

fn each_long(alloc: Global, items: &[Value]) -> Result<List<usize>, Failure<FormFault>>
    ensures { Gives result (each long_of (map view items.now)) }
{
    let mut found = List::new(alloc);
    for item in items {
        let n = long_of(item)?;
        found.push(n as usize)?;
    }
    Ok(found)
}

/// An array of whole numbers.
#[tactic(auto, unfolding(crate::specs::Shapes::longs_of))]
pub(crate) fn longs_of(alloc: Global, value: &Value) -> Result<List<usize>, Failure<FormFault>>
    ensures { Gives result (longs_of (view value.now)) }
{
    let items = list_of(value)?;
    each_long(alloc, items)
}

/// The value under a name.
pub(crate) fn field<'a>(value: &'a Value, name: &str) -> Result<&'a Value, Failure<FormFault>>
    ensures { Sees (λ v. view v.now) result (field name.now (view value.now)) }
{
    match value.get(name) {
        Some(found) => Ok(found),
        None => no_form(),
    }
}

/// The text under a name.
#[tactic(auto, unfolding(crate::specs::Shapes::text_in))]
pub(crate) fn text_in<'a>(value: &'a Value, name: &str) -> Result<&'a str, Failure<FormFault>>
    ensures { Sees (λ s. s.now) result (text_in name.now (view value.now)) }
{
    let found = field(value, name)?;
    text_of(found)
}

/// The same, in a cell of its own.
pub(crate) fn name_in(alloc: Global, value: &Value, name: &str) -> Result<Str, Failure<FormFault>>
    ensures { Gives result (text_in name.now (view value.now)) }
{
    let text = text_in(value, name)?;
    Ok(Str::new(alloc, text)?)
}

/// The number under a name.
#[tactic(auto, unfolding(crate::specs::Shapes::long_in))]
pub(crate) fn long_in(value: &Value, name: &str) -> Result<u64, Failure<FormFault>>
    ensures { Gives result (long_in name.now (view value.now)) }
{
    let found = field(value, name)?;
    long_of(found)
}

/// The word stands under a name.
#[tactic(auto, unfolding(crate::specs::Shapes::word_in))]
pub(crate) fn word_in(value: &Value, name: &str, word: &str) -> Result<(), Failure<FormFault>>
    ensures { Gives result (word_in word.now name.now (view value.now)) }
{
    let text = text_in(value, name)?;
    only_if(is_text(text, word))
}

/// It is `true`.
pub(crate) fn is_true(value: &Value) -> Result<(), Failure<FormFault>>
    ensures { Gives result (is_true (view value.now)) }
{
    match value.as_bool() {
        Some(holds) => only_if(holds),
        None => no_form(),
    }
}

fn is_text(text: &str, word: &str) -> bool
    ensures { result ≡ bytes_eq text.now word.now }
{
    text == word
}

/// Whether the keys are exactly these, which stand in the order of their bytes.
pub(crate) fn keys_are(names: &[&str], members: &Map<String, Value>) -> bool
    ensures { result ≡ keys_are (map (λ s. s.now) names.now) (members_view members.now.entries) }
{
    let mut rest = members.iter();
    for name in names {
        match rest.next() {
            Some((key, _)) => {
                if !is_text(key.as_str(), name) {
                    return false;
                }
            }
            None => return false,
        }
    }
    rest.next().is_none()
}
