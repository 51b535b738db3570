//! Blocks that show nothing of the question: a search that was spent, and one that is stuck.

use crate::derivation::tell_last_steps;
use crate::given::Given;
use crate::page::Page;
use crate::scene::Scene;
use ba_kernel::Step;
use ba_model::{List, MAX_BUDGET, Query, Shared};
use ba_refute::Clause;
use ba_settle::Leaf;
use std::alloc::{AllocError, Global};

// How many of the last steps are told.
const LAST_STEPS: usize = 3;

/// Says what a search that was spent went on adding.
pub fn tell_spent(
    page: &mut Page,
    given: &Given,
    scene: &Scene,
    query: &Shared<Query>,
    steps: &List<Step>,
) -> Result<(), AllocError> {
    let alloc = page.alloc;
    let count = steps.len();
    let kinds = kinds_text(alloc, steps.as_slice())?;
    let text = if given.has_two_orders() {
        format!(in alloc;
            "Two searches, one that takes the first of its possible steps each time and one that takes the last, took all {count} steps of the budget, and could have gone on. The first one's are: {kinds}. Its last ones are (x1, x2, .. stand for values):"
        )?
    } else {
        format!(in alloc;
            "The search took all {count} steps of its budget, and could have gone on: {kinds}. The last ones are (x1, x2, .. stand for values):"
        )?
    };
    page.say(2, text.as_str())?;
    tell_last_steps(page, given, scene, query, steps.as_slice(), LAST_STEPS)?;
    tell_budget(page, count as u64)
}

// Says what gives a search more steps.
fn tell_budget(page: &mut Page, count: u64) -> Result<(), AllocError> {
    if count >= MAX_BUDGET {
        return page.say(
            2,
            "Nothing is shown of the question. There is no greater budget.",
        );
    }
    let text = format!(in page.alloc;
        "Nothing is shown of the question. --budget gives the search more steps, up to {MAX_BUDGET}; they may not suffice."
    )?;
    page.say(2, text.as_str())
}

// The kind of a step.
#[derive(Clone, Copy, PartialEq, Eq)]
enum StepKind {
    Entry,
    Key,
    Link,
    Rule,
    View,
    Split,
    Absurd,
    Goal,
}

impl StepKind {
    // All kinds, in the order in which they are told.
    const ALL: [StepKind; 8] = [
        StepKind::Entry,
        StepKind::Key,
        StepKind::Link,
        StepKind::Rule,
        StepKind::View,
        StepKind::Split,
        StepKind::Absurd,
        StepKind::Goal,
    ];

    fn of(step: &Step) -> StepKind {
        match step {
            Step::Entry { .. } => StepKind::Entry,
            Step::Key { .. } => StepKind::Key,
            Step::Link { .. } => StepKind::Link,
            Step::Rule { .. } => StepKind::Rule,
            Step::View { .. } => StepKind::View,
            Step::Split { .. } => StepKind::Split,
            Step::Absurd { .. } => StepKind::Absurd,
            Step::Goal { .. } => StepKind::Goal,
        }
    }

    // By what its steps were taken.
    fn text(self) -> &'static str {
        match self {
            StepKind::Entry => "by earlier answers",
            StepKind::Key => "by keys",
            StepKind::Link => "by links",
            StepKind::Rule => "by rules",
            StepKind::View => "by views",
            StepKind::Split => "by cases",
            StepKind::Absurd => "by what can't be true",
            StepKind::Goal => "by the question",
        }
    }
}

// How many steps there are of each kind.
fn kinds_text(alloc: Global, steps: &[Step]) -> Result<String, AllocError> {
    let mut texts = Vec::new(alloc);
    for kind in StepKind::ALL {
        let count = count_of(steps, kind);
        if count > 0 {
            let text = format!(in alloc; "{count} {}", kind.text())?;
            texts.push(text)?;
        }
    }
    texts.join(alloc, ", ")
}

fn count_of(steps: &[Step], kind: StepKind) -> usize {
    let mut count = 0usize;
    for step in steps {
        if StepKind::of(step) == kind {
            count = count.saturating_add(1);
        }
    }
    count
}

/// Says at what a search is stuck. With two of them it is the one whose branch is told, and neither
/// found a proof.
pub fn tell_stuck(
    page: &mut Page,
    given: &Given,
    leaf: &Leaf,
    clause: Clause,
) -> Result<(), AllocError> {
    let steps = leaf.steps.len();
    let facts = leaf.branch.facts.len();
    let why = clause_text(clause);
    let search = if given.has_two_orders() {
        "Two searches, in two orders of their steps, found no proof. One"
    } else {
        "The search"
    };
    let text = format!(in page.alloc;
        "{search} ended after {steps} steps, at a branch with {facts} facts where no step is new. The two databases that were made of it don't refute the question: {why}."
    )?;
    page.say(2, text.as_str())?;
    page.say(
        2,
        "Nothing is shown of the question; more steps would change nothing.",
    )
}

// What two databases don't meet.
fn clause_text(clause: Clause) -> &'static str {
    match clause {
        Clause::Value => "a number in them would be past 64 bits",
        Clause::ConformOne => "the first breaks a key or a link",
        Clause::ConformTwo => "the second breaks a key or a link",
        Clause::Within => "a view shows a row of the first that it doesn't show of the second",
        Clause::Shown => "the first doesn't give an earlier answer all its rows",
        Clause::Asked => "the question doesn't give the branch's row in the first",
        Clause::Absent => "the question gives the branch's row in the second too",
    }
}
