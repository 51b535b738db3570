//! How a command ends that hands lines to its sink.
ghost use Rattle.std.specs.Prelude.{◌≡◌, ℕ, IsOk, List};
ghost use Rattle.ba_outside.specs.Seen.{SinkSeen};
ghost use Rattle.ba_plan.specs.Sent.{SentLines};
ghost use Rattle.ba_top.specs.Ends.{EndsLines};

use ba_input::Detail;
use ba_outside::WriteFail;

/// How a command ends whose lines went so, and which ends as a whole where all are written.
pub(crate) fn ended(sent: Result<(), WriteFail>, whole: Detail) -> Detail
    ensures ends { (lines : List (List ℕ)) (s t : SinkSeen) → SentLines lines s t sent
        → EndsLines lines whole s t result }
    ensures done { result ≡ Detail.Done → IsOk sent }
{
    match sent {
        Ok(()) => whole,
        Err(WriteFail::Failed) => Detail::Write,
        Err(WriteFail::NoMemory) => Detail::Memory,
    }
}
