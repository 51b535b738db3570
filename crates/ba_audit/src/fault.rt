//! Whether a line says rightly that a text has no reading.
ghost use Rattle.std.specs.Prelude.{◌≡◌, ◌↔◌, IsTrue, Some, None};
ghost use Rattle.std.specs.Option.{option_copied};
ghost use Rattle.ba_audit.specs.Lines.{unread_in};

use crate::printed::unread_in;
use ba_lex::LexFault;
use ba_model::{Same, Str};
use ba_printed::PrintedLine;
use ba_sql_query::ReadQueryFault;

fn is_lex(fault: &ReadQueryFault, other: LexFault) -> bool
    ensures { IsTrue result ↔ (fault.now ≡ ReadQueryFault.Lex other) }
{
    match fault {
        ReadQueryFault::Lex(own) => *own == other,
        _ => false,
    }
}

fn is_unsupported(fault: &ReadQueryFault, word: &Str) -> bool
    ensures { IsTrue result ↔ (fault.now ≡ ReadQueryFault.Unsupported word.now) }
{
    match fault {
        ReadQueryFault::Unsupported(own) => own.same(word),
        _ => false,
    }
}

/// Whether the faults are equal.
fn is_fault(fault: &ReadQueryFault, other: &ReadQueryFault) -> bool
    ensures { IsTrue result ↔ (fault.now ≡ other.now) }
{
    match other {
        ReadQueryFault::Lex(other) => is_lex(fault, *other),
        ReadQueryFault::Unsupported(word) => is_unsupported(fault, word),
        ReadQueryFault::Syntax => matches!(fault, ReadQueryFault::Syntax),
        ReadQueryFault::UnknownTable => matches!(fault, ReadQueryFault::UnknownTable),
        ReadQueryFault::UnknownColumn => matches!(fault, ReadQueryFault::UnknownColumn),
        ReadQueryFault::Ambiguous => matches!(fault, ReadQueryFault::Ambiguous),
        ReadQueryFault::UnknownParam => matches!(fault, ReadQueryFault::UnknownParam),
        ReadQueryFault::KindDiffers => matches!(fault, ReadQueryFault::KindDiffers),
        ReadQueryFault::OrderOnText => matches!(fault, ReadQueryFault::OrderOnText),
        ReadQueryFault::HeadDiffers => matches!(fault, ReadQueryFault::HeadDiffers),
        ReadQueryFault::TooMany => matches!(fault, ReadQueryFault::TooMany),
    }
}

/// Whether the line says that the text has this fault.
pub(crate) fn says_fault(line: &PrintedLine, fault: &ReadQueryFault) -> bool
    ensures { IsTrue result ↔ (unread_in line.now ≡ Some fault.now) }
{
    match unread_in(line) {
        Some(said) => is_fault(said, fault),
        None => false,
    }
}

/// Whether the line says nothing of a fault.
pub(crate) fn says_none(line: &PrintedLine) -> bool
    ensures { IsTrue result ↔ (unread_in line.now ≡ None) }
{
    unread_in(line).is_none()
}
