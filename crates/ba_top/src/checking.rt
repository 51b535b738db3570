//! Checks a proof, and writes what it comes to.
ghost use Rattle.std.specs.Prelude.{◌≡◌, [], ◌∷◌, IfOk};
ghost use Rattle.ba_plan.specs.Sent.{SentLines};
ghost use Rattle.ba_input.specs.Tasks.{IsCheckable};
ghost use Rattle.ba_top.specs.Checking.{EndsCheck, IsFinding, detail_found, fault_line, line_found};
ghost use Rattle.ba_top.specs.Ends.{EndsLine};
ghost use Rattle.ba_wire.specs.Verdicts.{verdict_bytes};

use crate::ending::ended;
use ba_input::Detail;
use ba_model::Failure;
use ba_outside::{Sink, WriteFail};
use ba_plan::send;
use ba_proof::{CheckFault, Proof, check};
use ba_wire::{Verdict, verdict_text};
use std::alloc::{AllocError, Global};

fn fault_line(fault: CheckFault) -> Verdict
    ensures { result ≡ fault_line fault }
{
    match fault {
        CheckFault::NotShown { step, fault } => Verdict::NotShown { step, fault },
        CheckFault::StillOpen { branches } => Verdict::StillOpen { branches },
    }
}

// Writes the line of a verdict.
fn print_verdict<S: Sink>(alloc: Global, verdict: Verdict, sink: &mut S) -> Result<(), WriteFail>
    ensures { SentLines (verdict_bytes verdict ∷ []) (S.seen sink.old) (S.seen sink.new) result }
{
    let Ok(text) = verdict_text(alloc, verdict) else {
        return Err(WriteFail::NoMemory);
    };
    send(sink, text.as_bytes())
}

// Tells the verdict, and then ends so.
fn tell<S: Sink>(alloc: Global, verdict: Verdict, whole: Detail, sink: &mut S) -> Detail
    ensures { EndsLine (verdict_bytes verdict) whole (S.seen sink.old) (S.seen sink.new) result }
{
    let sent = print_verdict(alloc, verdict, sink);
    ended(sent, whole)
}

// What the check of a proof finds, if there is memory: its fault, or that it is accepted.
fn finding(alloc: Global, proof: Proof) -> Result<Option<CheckFault>, AllocError>
    requires { IsCheckable proof }
    ensures { IfOk result (λ found. IsFinding proof found) }
{
    match check(alloc, proof) {
        Ok(_) => Ok(None),
        Err(Failure::Fault(fault)) => Ok(Some(fault)),
        Err(Failure::NoMemory) => Err(AllocError),
    }
}

fn detail_found(found: Option<CheckFault>) -> Detail
    ensures { result ≡ detail_found found }
{
    match found {
        Some(fault) => Detail::NotAccepted(fault),
        None => Detail::Done,
    }
}

fn line_found(steps: u64, found: Option<CheckFault>) -> Verdict
    ensures { result ≡ line_found steps found }
{
    match found {
        Some(fault) => fault_line(fault),
        None => Verdict::Accepted { steps },
    }
}

/// Checks the proof, by its steps alone, and writes one line: that it is accepted, or why it isn't.
pub(crate) fn end_check<S: Sink>(alloc: Global, proof: Proof, sink: &mut S) -> Detail
    requires { IsCheckable proof }
    ensures { EndsCheck proof (S.seen sink.old) (S.seen sink.new) result }
{
    let steps = proof.steps.len() as u64;
    match finding(alloc, proof) {
        Ok(found) => tell(alloc, line_found(steps, found), detail_found(found), sink),
        Err(_) => Detail::Memory,
    }
}
