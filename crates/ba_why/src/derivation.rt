//! Derivations: their steps are taken once more by the kernel, and told.
ghost use Rattle.std.specs.Prelude.{IfOk, IfSome};
ghost use Rattle.ba_kernel.specs.Courses.{ProblemFits};

use crate::given::Given;
use crate::page::{MOST_ROWS, Page};
use crate::scene::Scene;
use crate::step::cause_text;
use crate::text::{facts_text, known_text, terms_text};
use ba_kernel::{Problem, ProblemDraft, Search, Step};
use ba_model::{Duplicate, Failure, MAX_STEPS, Query, Shared};
use std::alloc::{AllocError, Global};

// The problem of a question after what its request was told.
fn problem_of(
    alloc: Global,
    given: &Given,
    scene: &Scene,
    query: &Shared<Query>,
) -> Result<Option<Problem>, AllocError>
    ensures { IfOk result (λ it. IfSome it ProblemFits) }
{
    let it = Problem::of(alloc, given.policy(), &scene.context, &scene.trace, query)?;
    let draft = ProblemDraft {
        policy: it.policy,
        vars: it.vars,
        assumed: it.assumed,
        entries: it.entries,
        goal: it.goal,
    };
    match Problem::new(alloc, draft) {
        Ok(problem) => Ok(Some(problem)),
        Err(Failure::NoMemory) => Err(AllocError),
        Err(Failure::Fault(_)) => Ok(None),
    }
}

// The start of the derivation of a question. There is none where the question isn't one for the
// policy.
fn start(
    alloc: Global,
    given: &Given,
    scene: &Scene,
    query: &Shared<Query>,
) -> Result<Option<Search>, AllocError> {
    let problem = problem_of(alloc, given, scene, query)?;
    match problem {
        Some(problem) => Ok(Some(Search::start(alloc, problem)?)),
        None => Ok(None),
    }
}

/// Tells a question's derivation: with what it begins, and its steps, the last ones where there are
/// more than are shown.
pub fn tell_derivation(
    page: &mut Page,
    given: &Given,
    scene: &Scene,
    query: &Shared<Query>,
    steps: &[Step],
) -> Result<(), AllocError> {
    let started = start(page.alloc, given, scene, query)?;
    let Some(mut search) = started else {
        return Ok(());
    };
    tell_start(page, given, &search)?;
    let from = steps.len().saturating_sub(MOST_ROWS);
    tell_skipped(page, from)?;
    tell_steps(page, given, scene, &mut search, steps, from)
}

/// Tells so many of the last steps of a question's derivation.
pub fn tell_last_steps(
    page: &mut Page,
    given: &Given,
    scene: &Scene,
    query: &Shared<Query>,
    steps: &[Step],
    count: usize,
) -> Result<(), AllocError> {
    let started = start(page.alloc, given, scene, query)?;
    let Some(mut search) = started else {
        return Ok(());
    };
    let from = steps.len().saturating_sub(count);
    tell_steps(page, given, scene, &mut search, steps, from)
}

// Says how many steps aren't told before the others.
fn tell_skipped(page: &mut Page, count: usize) -> Result<(), AllocError> {
    if count == 0 {
        return Ok(());
    }
    let text = format!(in page.alloc; ".. {count} steps before the last {MOST_ROWS}")?;
    page.say(4, text.as_str())
}

// Takes a step, and gives whether it is accepted.
fn take(alloc: Global, search: &mut Search, step: &Step) -> Result<bool, AllocError> {
    if search.steps().len() as u64 >= MAX_STEPS {
        return Ok(false);
    }
    let step = step.copy(alloc)?;
    match search.apply(alloc, step) {
        Ok(()) => Ok(true),
        Err(Failure::NoMemory) => Err(AllocError),
        Err(Failure::Fault(_)) => Ok(false),
    }
}

// Says with what the cases of a derivation begin.
fn tell_start(page: &mut Page, given: &Given, search: &Search) -> Result<(), AllocError> {
    for number in 0..search.branches() {
        tell_begin(page, given, search, number)?;
    }
    Ok(())
}

// Says with what the case of a number begins.
fn tell_begin(
    page: &mut Page,
    given: &Given,
    search: &Search,
    number: u32,
) -> Result<(), AllocError> {
    let Some(branch) = search.branch(number) else {
        return Ok(());
    };
    let alloc = page.alloc;
    let facts = facts_text(alloc, given.policy(), branch, 0)?;
    let known = known_text(alloc, given.policy(), branch)?;
    let row = terms_text(alloc, given.policy(), branch, branch.goal.as_slice())?;
    let case = case_text(alloc, search, number)?;
    let text = format!(in alloc; "{case}{facts}{known}, and the row is {row}")?;
    page.say(4, text.as_str())
}

// Takes the steps, and tells those from a number on.
fn tell_steps(
    page: &mut Page,
    given: &Given,
    scene: &Scene,
    search: &mut Search,
    steps: &[Step],
    from: usize,
) -> Result<(), AllocError> {
    for (number, step) in steps.iter().enumerate() {
        let before = Before::of(search, step);
        let is_taken = take(page.alloc, search, step)?;
        if is_taken && number >= from {
            tell_step(page, given, scene, search, before, number, step)?;
        }
    }
    Ok(())
}

// How much there is before a step: the facts of its branch, and the numbers of branches.
#[derive(Clone, Copy)]
struct Before {
    facts: usize,
    branches: u32,
}

impl Before {
    fn of(search: &Search, step: &Step) -> Before {
        let facts = match search.branch(step.branch()) {
            Some(branch) => branch.facts.len(),
            None => 0,
        };
        Before {
            facts,
            branches: search.branches(),
        }
    }
}

// The case of a number, where there are several.
fn case_text(alloc: Global, search: &Search, number: u32) -> Result<String, AllocError> {
    if search.branches() <= 1 {
        return Ok(String::new(alloc));
    }
    let case = number.saturating_add(1);
    format!(in alloc; "case {case}: ")
}

// Tells a step that was taken.
fn tell_step(
    page: &mut Page,
    given: &Given,
    scene: &Scene,
    search: &Search,
    before: Before,
    number: usize,
    step: &Step,
) -> Result<(), AllocError> {
    let alloc = page.alloc;
    let case = case_text(alloc, search, step.branch())?;
    let cause = cause_text(alloc, given, scene, search, before.branches, step)?;
    let found = found_text(alloc, given, search, step.branch(), before.facts)?;
    let step = number.saturating_add(1);
    let text = format!(in alloc; "{step}. {case}{cause}{found}")?;
    page.say(4, text.as_str())?;
    tell_others(page, given, search, before)
}

// What is new in the branch of a number.
fn found_text(
    alloc: Global,
    given: &Given,
    search: &Search,
    number: u32,
    from: usize,
) -> Result<String, AllocError> {
    match search.branch(number) {
        Some(branch) => facts_text(alloc, given.policy(), branch, from),
        None => Ok(String::new(alloc)),
    }
}

// Tells what is new in the other cases that a step makes.
fn tell_others(
    page: &mut Page,
    given: &Given,
    search: &Search,
    before: Before,
) -> Result<(), AllocError> {
    let alloc = page.alloc;
    for number in before.branches..search.branches() {
        let found = found_text(alloc, given, search, number, before.facts)?;
        if !found.is_empty() {
            let case = number.saturating_add(1);
            let text = format!(in alloc; "or, as case {case}, {found}")?;
            page.say(7, text.as_str())?;
        }
    }
    Ok(())
}
