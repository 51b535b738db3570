//! The cases of rows that are known to be rows of a query.
ghost use Rattle.std.specs.Prelude.{◌≡◌, All, IfOk, length, map};
ghost use Rattle.ba_kernel.specs.Courses.{ProblemFits};
ghost use Rattle.ba_kernel.specs.Effects.{AreNext, rows_at};
ghost use Rattle.ba_kernel.specs.Steps.{EntryLeads, EntryPasses, RuleLeads, RulePasses, ViewLeads, ViewPasses};
ghost use Rattle.ba_kernel.specs.SearchStates.{IsTidy};
ghost use Rattle.ba_kernel.specs.Tidy.{FactsAreThere, HasTerm, IsPartFor};

use crate::cases::build::part_cases;
use crate::cases::rounds::{entry_round, next_round};
use crate::cases::terms::operand_row;
use crate::fact::fact_at;
use crate::problem::Problem;
use ba_facts::{Branch, Side};
use ba_model::{Owned, Part};
use std::alloc::{AllocError, Global};

/// For each part of the entry's query the case where it gives the entry's row on side One.
pub fn entry_cases(
    alloc: Global,
    problem: &Problem,
    branch: Owned<Branch>,
    entry: u64,
) -> Result<Vec<Owned<Branch>>, AllocError>
    requires fits { ProblemFits problem.now }
    requires tidy { IsTidy problem.now branch }
    requires passes { EntryPasses problem.now entry }
    ensures { IfOk result (λ cases. EntryLeads problem.now branch entry cases.items) }
{
    let it = problem.entries.get(entry as usize);
    let operands = it.row.as_slice();
    let parts = it.parts();
    let terms = operand_row(alloc, &branch, &[], operands)?;
    let row = terms.as_slice();
    let round = entry_round(problem, operands);
    part_cases(alloc, problem, branch, Side::One, round, row, parts)
}

/// For each part of the view the case where it gives on side Two the row that the facts give.
pub fn view_cases(
    alloc: Global,
    problem: &Problem,
    branch: Owned<Branch>,
    view: u32,
    part: u32,
    facts: &[u32],
) -> Result<Vec<Owned<Branch>>, AllocError>
    requires fits { ProblemFits problem.now }
    requires tidy { IsTidy problem.now branch }
    requires passes { ViewPasses problem.now branch view part facts.now }
    ensures { IfOk result (λ cases. ViewLeads problem.now branch view part facts.now cases.items) }
{
    let it = problem.view_at(view);
    let of = it.query.parts.get(part as usize);
    let parts = it.query.parts.as_slice();
    next_cases(alloc, problem, branch, Side::Two, of, facts, parts)
}

/// For each part of the rule's right query the case where it gives, on the same side, the row that
/// the facts give.
pub fn rule_cases(
    alloc: Global,
    problem: &Problem,
    branch: Owned<Branch>,
    rule: u32,
    part: u32,
    facts: &[u32],
) -> Result<Vec<Owned<Branch>>, AllocError>
    requires fits { ProblemFits problem.now }
    requires tidy { IsTidy problem.now branch }
    requires passes { RulePasses problem.now branch rule part facts.now }
    ensures { IfOk result (λ cases. RuleLeads problem.now branch rule part facts.now cases.items) }
{
    let it = problem.rule_at(rule);
    let left = it.left.parts.get(part as usize);
    let parts = it.right.parts.as_slice();
    let number = facts[0] as usize;
    let first = fact_at(&branch, number);
    let side = first.side;
    next_cases(alloc, problem, branch, side, left, facts, parts)
}

/// For each of the parts the case where it gives the row that the facts give, a round later.
fn next_cases(
    alloc: Global,
    problem: &Problem,
    branch: Owned<Branch>,
    side: Side,
    part: &Part,
    facts: &[u32],
    parts: &[Part],
) -> Result<Vec<Owned<Branch>>, AllocError>
    requires there { FactsAreThere branch }
    requires terms { All (HasTerm (rows_at branch facts.now)) part.now.head }
    requires fits { All (IsPartFor problem.now.policy.schema (length part.now.head)) parts.now }
    ensures { IfOk result (λ cases.
        AreNext problem.now.policy.schema branch side part.now facts.now parts.now cases.items) }
{
    let operands = part.head.as_slice();
    let terms = operand_row(alloc, &branch, facts, operands)?;
    let row = terms.as_slice();
    let round = next_round(&branch, facts)?;
    part_cases(alloc, problem, branch, side, round, row, parts)
}
