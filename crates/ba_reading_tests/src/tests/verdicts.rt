//! Lines of checks and audits, and the reasons of files that are no proofs or no templates, as the
//! program prints them.

use super::faults::write_reason;
use ba_kernel::StepFault;
use ba_model::{Counted, Str};
use ba_wire::{
    AuditFault, AuditReason, Audited, Fault, Reason, TemplateFault, Verdict, fault_text,
    finding_text, verdict_text,
};
use std::alloc::{AllocError, Global};
use std::test::Fail;

const FAULTS: [StepFault; 6] = [
    StepFault::NoBranch,
    StepFault::BadFact,
    StepFault::BadRule,
    StepFault::CondNotShown(0),
    StepFault::HeadDiffers(255),
    StepFault::NotAbsurd,
];

const LINES: &str = "{\"accepted\":true,\"steps\":100000}
{\"accepted\":false,\"open\":1}
{\"accepted\":false,\"fault\":\"branch\",\"step\":7}
{\"accepted\":false,\"fault\":\"fact\",\"step\":7}
{\"accepted\":false,\"fault\":\"rule\",\"step\":7}
{\"accepted\":false,\"fault\":\"cond 0\",\"step\":7}
{\"accepted\":false,\"fault\":\"head 255\",\"step\":7}
{\"accepted\":false,\"fault\":\"absurd\",\"step\":7}
";

fn write_verdict(alloc: Global, told: &mut String, verdict: Verdict) -> Result<(), AllocError> {
    let line = verdict_text(alloc, verdict)?;
    told.push_str(line.as_str())
}

fn write_faults(alloc: Global, told: &mut String) -> Result<(), AllocError> {
    for fault in FAULTS {
        write_verdict(alloc, told, Verdict::NotShown { step: 7, fault })?;
    }
    Ok(())
}

#[test]
fn lines_of_checks(rt: HostRuntime) -> Result<(), Fail> {
    let alloc = rt.alloc();
    let mut told = String::new(alloc);
    write_verdict(alloc, &mut told, Verdict::Accepted { steps: 100_000 })?;
    write_verdict(alloc, &mut told, Verdict::StillOpen { branches: 1 })?;
    write_faults(alloc, &mut told)?;
    assert_eq!(rt; told.as_str(), LINES);
    Ok(())
}

const REASONS: [AuditReason; 12] = [
    AuditReason::Count,
    AuditReason::Json,
    AuditReason::Shape,
    AuditReason::Kind,
    AuditReason::Version,
    AuditReason::Unread,
    AuditReason::By,
    AuditReason::Covered,
    AuditReason::Rows,
    AuditReason::Proof,
    AuditReason::Pair,
    AuditReason::Summary,
];

const FINDINGS: &str = "{\"audited\":true,\"lines\":65536,\"unaudited\":3}
{\"audited\":false,\"line\":2,\"reason\":\"count\"}
{\"audited\":false,\"line\":2,\"reason\":\"json\"}
{\"audited\":false,\"line\":2,\"reason\":\"shape\"}
{\"audited\":false,\"line\":2,\"reason\":\"kind\"}
{\"audited\":false,\"line\":2,\"reason\":\"version\"}
{\"audited\":false,\"line\":2,\"reason\":\"unread\"}
{\"audited\":false,\"line\":2,\"reason\":\"by\"}
{\"audited\":false,\"line\":2,\"reason\":\"covered\"}
{\"audited\":false,\"line\":2,\"reason\":\"rows\"}
{\"audited\":false,\"line\":2,\"reason\":\"proof\"}
{\"audited\":false,\"line\":2,\"reason\":\"pair\"}
{\"audited\":false,\"line\":2,\"reason\":\"summary\"}
";

fn write_finding(
    alloc: Global,
    told: &mut String,
    finding: Result<Audited, AuditFault>,
) -> Result<(), AllocError> {
    let line = finding_text(alloc, finding)?;
    told.push_str(line.as_str())
}

#[test]
fn lines_of_audits(rt: HostRuntime) -> Result<(), Fail> {
    let alloc = rt.alloc();
    let mut told = String::new(alloc);
    let audited = Audited {
        lines: 65_536,
        unaudited: 3,
    };
    write_finding(alloc, &mut told, Ok(audited))?;
    for reason in REASONS {
        write_finding(alloc, &mut told, Err(AuditFault::At(2, reason)))?;
    }
    assert_eq!(rt; told.as_str(), FINDINGS);
    Ok(())
}

#[test]
fn reasons_of_no_proofs(rt: HostRuntime) -> Result<(), Fail> {
    let alloc = rt.alloc();
    let mut told = String::new(alloc);
    write_reason(alloc, Reason::Json, &mut told)?;
    told.push(';')?;
    let name = Str::new(alloc, "keys")?;
    write_reason(alloc, Reason::Field { name }, &mut told)?;
    assert_eq!(rt; told.as_str(), "json;field keys");
    Ok(())
}

fn write_template(
    alloc: Global,
    line: u64,
    reason: TemplateFault,
    told: &mut String,
) -> Result<(), AllocError> {
    write_reason(alloc, Reason::Template { line, reason }, told)?;
    told.push(';')
}

#[test]
fn reasons_of_no_templates(rt: HostRuntime) -> Result<(), Fail> {
    let alloc = rt.alloc();
    let mut told = String::new(alloc);
    write_template(alloc, 3, TemplateFault::Json, &mut told)?;
    let name = Str::new(alloc, "vars")?;
    write_template(alloc, 8192, TemplateFault::Field { name }, &mut told)?;
    let fault = StepFault::CondNotShown(0);
    write_template(
        alloc,
        1,
        TemplateFault::NotShown { step: 1, fault },
        &mut told,
    )?;
    write_template(
        alloc,
        1,
        TemplateFault::StillOpen { branches: 2 },
        &mut told,
    )?;
    let wanted = "line 3 json;line 8192 field vars;line 1 fault cond 0 step 1;line 1 open 2;";
    assert_eq!(rt; told.as_str(), wanted);
    Ok(())
}

const LIMITS: &str = "{\"fault\":\"limit\",\"limit\":100000,\"status\":7,\"what\":\"steps\"}
{\"fault\":\"limit\",\"limit\":8192,\"status\":7,\"what\":\"templates\"}
";

#[test]
fn more_steps_and_templates_than_the_limits(rt: HostRuntime) -> Result<(), Fail> {
    let mut told = String::new(rt.alloc());
    for what in [Counted::Steps, Counted::Templates] {
        let limit = what.limit();
        let line = fault_text(rt.alloc(), &Fault::Limit { what, limit })?;
        told.push_str(line.as_str())?;
    }
    assert_eq!(rt; told.as_str(), LIMITS);
    Ok(())
}
