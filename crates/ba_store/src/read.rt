//! Reads a template file.
ghost use Rattle.std.specs.Prelude.{◌≡◌, ◌≤◌, [], All, IfOk, length};
ghost use Rattle.ba_model.specs.Fit.{PolicyFits};
ghost use Rattle.ba_model.specs.Limits.{most_steps, most_templates};
ghost use Rattle.ba_model.specs.Readings.{Gives, widened};
ghost use Rattle.ba_model.specs.RuleFaults.{AreRules};
ghost use Rattle.ba_model.specs.SchemaFaults.{AreTables};
ghost use Rattle.ba_kernel.specs.Courses.{ProblemFits};
ghost use Rattle.ba_kernel.specs.Drafts.{IsChecked};
ghost use Rattle.ba_kernel.specs.Problems.{StrongAll};
ghost use Rattle.ba_template.specs.Templates.{EachVarStands};
ghost use Rattle.ba_script.specs.Lines.{script_lines};
ghost use Rattle.ba_store.specs.Loads.{Answers, LineLoads, LinesLoad, Loads, Proves, at_line};
ghost use Rattle.ba_store.specs.Reading.{draft_of};

use crate::draft::draft_of;
use crate::fault::{LineFault, StoreFault};
use ba_kernel::Proved;
use ba_kernel::laws::{checked_links_fit, closed_is_strong};
use ba_model::{Failure, List, MAX_TEMPLATES, Policy, Shared};
use ba_proof::{CheckFault, Proof, check};
use ba_script::{Lines, count_lines, script_lines};
use ba_template::Template;
use std::alloc::Global;

/// What the bytes of the line of this number say.
fn draft_at(
    alloc: Global,
    policy: &Shared<Policy>,
    line: u64,
    bytes: &[u8],
) -> Result<Proof, Failure<StoreFault>>
    ensures { Gives result (widened (at_line line) (draft_of policy.now bytes.now)) }
{
    match draft_of(alloc, policy, bytes) {
        Ok(draft) => Ok(draft),
        Err(Failure::NoMemory) => Err(Failure::NoMemory),
        Err(Failure::Fault(LineFault::Json)) => Err(Failure::Fault(StoreFault::Json(line))),
        Err(Failure::Fault(LineFault::Field(field))) => {
            Err(Failure::Fault(StoreFault::Field(line, field)))
        }
    }
}

/// The proof that the steps are, taken anew from the start of the problem.
fn proved_at(alloc: Global, line: u64, draft: Proof) -> Result<Proved, Failure<StoreFault>>
    requires fits { ProblemFits draft.problem }
    requires few { length draft.steps ≤ most_steps }
    ensures { Answers result (Proves line draft) }
{
    match check(alloc, draft) {
        Ok(proved) => Ok(proved),
        Err(Failure::NoMemory) => Err(Failure::NoMemory),
        Err(Failure::Fault(CheckFault::NotShown { step, fault })) => {
            Err(Failure::Fault(StoreFault::NotShown(line, step as u64, fault)))
        }
        Err(Failure::Fault(CheckFault::StillOpen { branches })) => {
            Err(Failure::Fault(StoreFault::StillOpen(line, branches as u64)))
        }
    }
}

/// The template of the draft, whose variables stand in its goal or an entry.
fn template_at(
    alloc: Global,
    line: u64,
    draft: Proof,
) -> Result<Shared<Template>, Failure<StoreFault>>
    requires fits { ProblemFits draft.problem }
    requires few { length draft.steps ≤ most_steps }
    requires stands { EachVarStands draft.problem }
    ensures { Answers result (Proves line draft) }
{
    let proved = proved_at(alloc, line, draft)?;
    let template = Template::of(alloc, proved)?;
    let template = Shared::new(alloc, template)?;
    Ok(template)
}

/// The template of the line of this number.
fn line_of(
    alloc: Global,
    policy: &Shared<Policy>,
    line: u64,
    bytes: &[u8],
) -> Result<Shared<Template>, Failure<StoreFault>>
    requires { IsChecked policy.now }
    ensures { Answers result (LineLoads policy.now line bytes.now) }
{
    let draft = draft_at(alloc, policy, line, bytes)?;
    template_at(alloc, line, draft)
}

fn lines_of(
    alloc: Global,
    policy: &Shared<Policy>,
    lines: Lines<'_>,
) -> Result<List<Shared<Template>>, Failure<StoreFault>>
    requires checked { IsChecked policy.now }
    requires few { length lines ≤ most_templates }
    ensures { Answers result (LinesLoad policy.now lines.entry) }
{
    let mut found = List::new(alloc);
    for bytes in lines {
        let line = found.len() as u64 + 1;
        let template = line_of(alloc, policy, line, bytes)?;
        found.push(template)?;
    }
    Ok(found)
}

fn loaded(
    alloc: Global,
    policy: &Shared<Policy>,
    bytes: &[u8],
) -> Result<List<Shared<Template>>, Failure<StoreFault>>
    requires { IsChecked policy.now }
    ensures { Answers result (Loads policy.now bytes.now) }
{
    if count_lines(bytes) as u64 > MAX_TEMPLATES {
        return Err(Failure::Fault(StoreFault::TooMany {
            limit: MAX_TEMPLATES,
        }));
    }
    lines_of(alloc, policy, script_lines(bytes))
}

/// The templates that a file holds, for a policy, in the order of its lines.
///
/// Each line is one JSON object with exactly the keys `condition`, `entries`, `goal`, `steps`,
/// `vars` and `version`, as the format's description says. A line feed ends each; the last may do
/// without, a carriage return before a line feed is dropped, and a file of no bytes has no line. An
/// empty line is no JSON.
///
/// Faults: `TooMany` exactly where there are more than [`ba_model::MAX_TEMPLATES`] lines; else what
/// is wrong with the first line that is no template, of which `Json` is tested first, then the
/// fields in [`crate::StoreField`]'s order, then the steps: `NotShown` tells the first that isn't
/// accepted, `StillOpen` that all are and how many branches are open. `NoMemory` may stand in place
/// of any of these. After an error nothing is left behind.
///
/// Nothing in the file is believed: the steps are taken anew from the start of the problem. So of
/// each template that is read, whatever the bytes, every instance is strongly compliant.
pub fn read_templates(
    alloc: Global,
    policy: &Shared<Policy>,
    bytes: &[u8],
) -> Result<List<Shared<Template>>, Failure<StoreFault>>
    requires views { PolicyFits policy.now }
    requires tables { AreTables policy.now.schema.tables }
    requires rules { AreRules policy.now.schema }
    ensures loads { Answers result (Loads policy.now bytes.now) }
    ensures of_policy { IfOk result (λ found. All (λ it. it.problem.policy ≡ policy.now) found) }
    ensures few { IfOk result (λ found. length found ≤ most_templates) }
    ensures strong { IfOk result (λ found. All (λ it. StrongAll it.problem) found) }
{
    checked_links_fit();
    closed_is_strong();
    loaded(alloc, policy, bytes)
}
