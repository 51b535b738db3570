// One line to a sink.
ghost use Rattle.std.specs.Prelude.{[], ◌∷◌};
ghost use Rattle.ba_plan.specs.Sent.{SentLines};

use ba_outside::{Sink, WriteFail};

/// Hands a line to the sink, and then each rest of it that wasn't taken, until all of it is
/// written. An empty line is never handed over.
///
/// # Errors
/// As the sink answers: the piece that failed is the last one handed over, what was taken before
/// stays written, and the sink may be written to again.
pub fn send<S: Sink>(sink: &mut S, line: &[u8]) -> Result<(), WriteFail>
    ensures { SentLines (line.now ∷ []) (S.seen sink.old) (S.seen sink.new) result }
{
    let mut rest = line;
    while !rest.is_empty() {
        let count = sink.write(rest)?;
        rest = rest.split_at(count).1;
    }
    Ok(())
}
