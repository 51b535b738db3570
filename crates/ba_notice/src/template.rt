//! Template files whose lines aren't proved, or are none.

use crate::proof::{not_shown_text, still_open_text};
use ba_hints::{Hint, Spot, template_hint};
use ba_wire::TemplateFault;
use std::alloc::{AllocError, Global};

/// What stands behind a text on a line that was proved once, if `store` wrote it.
const ANEW: &str =
    "store it anew where the schema or the policy isn't that which it was stored with";

// A hint on a line whose steps don't prove it.
fn unproved_hint(alloc: Global, line: u64, why: &str) -> Result<Hint, AllocError> {
    let text = format!(in alloc; "{why}; {ANEW}")?;
    let spot = Spot::Line(line);
    Ok(Hint { spot, text })
}

/// A hint on a line of a template file, of whose bytes there may be none.
pub fn line_hint(
    alloc: Global,
    bytes: Option<&[u8]>,
    line: u64,
    reason: &TemplateFault,
) -> Result<Hint, AllocError> {
    match reason {
        TemplateFault::Json => template_hint(alloc, bytes, line, None),
        TemplateFault::Field { name } => template_hint(alloc, bytes, line, Some(name.as_str())),
        TemplateFault::NotShown { step, fault } => {
            let why = not_shown_text(alloc, *step, *fault)?;
            unproved_hint(alloc, line, why.as_str())
        }
        TemplateFault::StillOpen { branches } => {
            let why = still_open_text(alloc, *branches)?;
            unproved_hint(alloc, line, why.as_str())
        }
    }
}
