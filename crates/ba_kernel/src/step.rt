//! Steps of a derivation, and their faults.

ghost use Rattle.std.specs.Prelude.{◌≡◌};
ghost use Rattle.ba_kernel.specs.Courses.{branch_of};

use ba_facts::TermAtom;
use ba_model::{Duplicate, List};
use std::alloc::{AllocError, Global};

/// A step on an open branch.
#[derive(Debug, Drop)]
pub enum Step {
    /// A row that was shown before is a row of its query on side One.
    Entry {
        branch: u32,
        entry: u64,
    },
    /// Two rows that are equal on a key are equal.
    Key {
        branch: u32,
        key: u32,
        left: u32,
        right: u32,
    },
    /// A row has its link's target.
    Link {
        branch: u32,
        link: u32,
        fact: u32,
    },
    /// A row of a rule's left query is one of its right query, on the same side.
    Rule {
        branch: u32,
        rule: u32,
        part: u32,
        facts: List<u32>,
    },
    /// A view's row on side One is one on side Two.
    View {
        branch: u32,
        view: u32,
        part: u32,
        facts: List<u32>,
    },
    /// An atom is true, or its negation is.
    Split {
        branch: u32,
        atom: TermAtom,
    },
    /// What is known can't be true.
    Absurd {
        branch: u32,
    },
    /// The goal row is one of the question on side Two.
    Goal {
        branch: u32,
        part: u32,
        facts: List<u32>,
    },
}

/// The first test of a step that fails.
#[derive(Clone, Copy, Debug, PartialEq, Eq)]
pub enum StepFault {
    /// There is no open branch of the number.
    NoBranch,
    /// A fact isn't there, or is of another table or side, or there are too many or too few; or an
    /// unknown isn't there.
    BadFact,
    /// An entry, key, link, rule, view or part isn't there; or an atom is none that may be split.
    BadRule,
    /// The condition of this number isn't shown.
    CondNotShown(u64),
    /// The head differs from the goal row in the column of this number.
    HeadDiffers(u64),
    NotAbsurd,
}

impl Step {
    /// The number of the branch that it is on.
    #[inline(always)]
    pub fn branch(&self) -> u32
        ensures { result ≡ branch_of self.now }
    {
        match self {
            Step::Entry { branch, .. } => *branch,
            Step::Key { branch, .. } => *branch,
            Step::Link { branch, .. } => *branch,
            Step::Rule { branch, .. } => *branch,
            Step::View { branch, .. } => *branch,
            Step::Split { branch, .. } => *branch,
            Step::Absurd { branch } => *branch,
            Step::Goal { branch, .. } => *branch,
        }
    }
}

impl Duplicate for Step {
    fn copy(&self, alloc: Global) -> Result<Step, AllocError> {
        match self {
            Step::Entry { branch, entry } => Ok(Step::Entry {
                branch: *branch,
                entry: *entry,
            }),
            Step::Key {
                branch,
                key,
                left,
                right,
            } => Ok(Step::Key {
                branch: *branch,
                key: *key,
                left: *left,
                right: *right,
            }),
            Step::Link { branch, link, fact } => Ok(Step::Link {
                branch: *branch,
                link: *link,
                fact: *fact,
            }),
            Step::Rule {
                branch,
                rule,
                part,
                facts,
            } => Ok(Step::Rule {
                branch: *branch,
                rule: *rule,
                part: *part,
                facts: facts.copy(alloc)?,
            }),
            Step::View {
                branch,
                view,
                part,
                facts,
            } => Ok(Step::View {
                branch: *branch,
                view: *view,
                part: *part,
                facts: facts.copy(alloc)?,
            }),
            Step::Split { branch, atom } => Ok(Step::Split {
                branch: *branch,
                atom: atom.copy(alloc)?,
            }),
            Step::Absurd { branch } => Ok(Step::Absurd { branch: *branch }),
            Step::Goal {
                branch,
                part,
                facts,
            } => Ok(Step::Goal {
                branch: *branch,
                part: *part,
                facts: facts.copy(alloc)?,
            }),
        }
    }
}
