//! Texts that no literal begins with.
ghost use Rattle.std.specs.Prelude.{◌≡◌, ◌∷◌, ◌++◌, ◌+◌, [], IfOk, map};
ghost use Rattle.std.specs.Fmt.{decimal};
ghost use Rattle.std.specs.List.{repeat};
ghost use Rattle.ba_model.specs.declared.value.Value.TheVariants.{Text};
ghost use Rattle.ba_refute.specs.Images.{IsMarks, signs};

use crate::wide::WideValue;
use ba_model::{Shared, Str, Value};
use std::alloc::{AllocError, Global};

/// How many signs `~` the value begins with.
fn signs(value: &Value) -> usize
    ensures { result ≡ signs value.now }
{
    match value {
        Value::Text(text) => signs_of(text.as_bytes()),
        _ => 0,
    }
}

fn signs_of(bytes: &[u8]) -> usize
    ensures { result ≡ signs (Text bytes.now) }
{
    bytes.iter().take_while(|byte| **byte == 126).count()
}

fn more_signs(value: &Value) -> Result<usize, AllocError>
    ensures { IfOk result (λ it. it ≡ signs value.now + 1) }
{
    signs(value).checked_add(1).ok_or(AllocError)
}

/// The least number of signs, from 1 on, that no text among the values begins with. `AllocError`
/// where it is past the size of a text.
pub(crate) fn marks(values: &[&Value]) -> Result<usize, AllocError>
    ensures { IfOk result (IsMarks (map (λ v. v.now) values.now)) }
{
    let mut marks = 1;
    for value in values {
        let more = more_signs(value)?;
        if marks < more {
            marks = more;
        }
    }
    Ok(marks)
}

/// So many signs, and the number in decimal.
pub(crate) fn text_value(alloc: Global, marks: usize, number: u32) -> Result<WideValue, AllocError>
    ensures { IfOk result (λ it. it ≡ Text (repeat marks (126 ∷ []) ++ decimal number)) }
{
    let signs = "~".repeat(alloc, marks)?;
    let text = format!(in alloc; "{signs}{number}")?;
    let text = Shared::new(alloc, Str::from_string(text))?;
    Ok(WideValue::text(text))
}
