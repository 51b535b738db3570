//! Reads an output, line by line.
ghost use Rattle.std.specs.Prelude.{◌≡◌, length};
ghost use Rattle.serde_json.specs.View.{view};
ghost use Rattle.ba_model.specs.Readings.{Gives, widened};
ghost use Rattle.ba_printed.specs.Lines.{printed_lines};
ghost use Rattle.ba_printed.specs.Reading.{line_at, printed_of};

use crate::forms::line_at;
use crate::line::{LineReason, PrintedLine};
use crate::shapes::FormFault;
use ba_model::{Failure, Owned, Policy};
use ba_script::{Lines, count_lines, script_lines};
use serde_json::Value;
use std::alloc::Global;

/// The lines of an output's bytes, which are not copied: a line feed ends each, but the last may do
/// without.
pub fn printed_lines(bytes: &[u8]) -> Lines<'_>
    ensures { result ≡ printed_lines bytes.now }
{
    script_lines(bytes)
}

/// How many lines an output has.
pub fn count_printed(bytes: &[u8]) -> usize
    ensures { result ≡ length (printed_lines bytes.now) }
{
    count_lines(bytes)
}

/// The line that a JSON value is.
fn line_of(
    alloc: Global,
    policy: &Policy,
    value: &Value,
) -> Result<Owned<PrintedLine>, Failure<LineReason>>
    ensures { Gives result
        (widened (λ (fault : FormFault). LineReason.Shape) (line_at policy.now (view value.now))) }
{
    match line_at(alloc, policy, value) {
        Ok(line) => Ok(line),
        Err(Failure::NoMemory) => Err(Failure::NoMemory),
        Err(Failure::Fault(FormFault::NoForm)) => Err(Failure::Fault(LineReason::Shape)),
    }
}

/// The line that bytes without their line feed are, for a policy: `Json` where they are no JSON in
/// UTF-8, else `Shape` where the value is of no form.
///
/// Where an object has a key twice, its last value counts. The tables of a pair are those of the
/// policy's schema, and the parameters in steps those of the policy. The only other error is want of
/// memory.
pub fn read_printed(
    alloc: Global,
    policy: &Policy,
    bytes: &[u8],
) -> Result<Owned<PrintedLine>, Failure<LineReason>>
    ensures { Gives result (printed_of policy.now bytes.now) }
{
    match Value::from_slice(alloc, bytes) {
        Ok(value) => line_of(alloc, policy, &value),
        Err(e) => {
            if e.is_memory() {
                Err(Failure::NoMemory)
            } else {
                Err(Failure::Fault(LineReason::Json))
            }
        }
    }
}
