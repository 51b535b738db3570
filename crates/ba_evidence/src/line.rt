//! A JSON value as a line.
ghost use Rattle.std.specs.Prelude.{◌≡◌, ◌≤◌, false, IfOk, string_bytes};
ghost use Rattle.serde_json.specs.Data.{depth};
ghost use Rattle.serde_json.specs.Read.{max_depth};
ghost use Rattle.serde_json.specs.View.{view};
ghost use Rattle.serde_json.specs.Written.{has_float};
ghost use Rattle.ba_wire.specs.Printed.{ReadsBack, json_line};

use serde_json::Value as Json;
use std::alloc::{AllocError, Global};

/// The value's compact text and a line feed.
pub(crate) fn line_of(alloc: Global, value: &Json) -> Result<String, AllocError>
    ensures text { IfOk result (λ s. has_float (view value.now) ≡ false
        → string_bytes s ≡ json_line (view value.now)) }
    ensures reads_back { IfOk result (λ s. depth (view value.now) ≤ max_depth
        → ReadsBack (string_bytes s) (view value.now)) }
{
    let mut text = value.to_string(alloc)?;
    text.push('\n')?;
    Ok(text)
}
