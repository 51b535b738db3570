//! How faults of query texts and of steps are printed.
ghost use Rattle.std.specs.Prelude.{◌≡◌, IfOk, string_bytes};
ghost use Rattle.ba_wire.specs.Names.{fault_name, fault_words, lex_name, step_fault_text};

use ba_kernel::StepFault;
use ba_lex::LexFault;
use ba_sql_query::ReadQueryFault;
use std::alloc::{AllocError, Global};

fn lex_name(fault: LexFault) -> &'static str
    ensures { result.now ≡ lex_name fault }
{
    match fault {
        LexFault::TooLong => "too_long",
        LexFault::BadByte => "bad_byte",
        LexFault::OpenQuote => "open_quote",
        LexFault::NumberTooLarge => "number_too_large",
    }
}

/// The fault's name, without the word of what isn't supported.
#[tactic(auto, unfolding(crate::specs::Names::fault_name))]
pub(crate) fn fault_name(fault: &ReadQueryFault) -> &'static str
    ensures { result.now ≡ fault_name fault.now }
{
    match fault {
        ReadQueryFault::Lex(fault) => lex_name(*fault),
        ReadQueryFault::Unsupported(_) => "unsupported",
        ReadQueryFault::Syntax => "syntax",
        ReadQueryFault::UnknownTable => "unknown_table",
        ReadQueryFault::UnknownColumn => "unknown_column",
        ReadQueryFault::Ambiguous => "ambiguous",
        ReadQueryFault::UnknownParam => "unknown_param",
        ReadQueryFault::KindDiffers => "kind_differs",
        ReadQueryFault::OrderOnText => "order_on_text",
        ReadQueryFault::HeadDiffers => "head_differs",
        ReadQueryFault::TooMany => "too_many",
    }
}

/// The fault's name, with the word of what isn't supported behind it.
#[tactic(auto, unfolding(crate::specs::Names::fault_words))]
pub(crate) fn fault_words(alloc: Global, fault: &ReadQueryFault) -> Result<String, AllocError>
    ensures { IfOk result (λ text. string_bytes text ≡ fault_words fault.now) }
{
    match fault {
        ReadQueryFault::Unsupported(word) => format!(in alloc; "unsupported {word}"),
        _ => String::from_str(alloc, fault_name(fault)),
    }
}

/// Why a step isn't accepted.
#[tactic(auto, unfolding(crate::specs::Names::step_fault_text))]
pub(crate) fn step_fault_text(alloc: Global, fault: StepFault) -> Result<String, AllocError>
    ensures { IfOk result (λ text. string_bytes text ≡ step_fault_text fault) }
{
    match fault {
        StepFault::NoBranch => String::from_str(alloc, "branch"),
        StepFault::BadFact => String::from_str(alloc, "fact"),
        StepFault::BadRule => String::from_str(alloc, "rule"),
        StepFault::CondNotShown(number) => format!(in alloc; "cond {number}"),
        StepFault::HeadDiffers(number) => format!(in alloc; "head {number}"),
        StepFault::NotAbsurd => String::from_str(alloc, "absurd"),
    }
}
