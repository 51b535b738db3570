//! The facts and unknowns that a step made, which are missing where it is left out.
ghost use Rattle.std.specs.Prelude.{IfOk};
ghost use Rattle.ba_facts.specs.declared.term.Term.TheVariants as terms;
ghost use Rattle.ba_kernel.specs.declared.step.Step.TheVariants as steps;
ghost use Rattle.ba_general.specs.Leaving.{IsClosedUp, IsMoved, IsMovedAtom, IsMovedTerm, MaybeAll, MaybeIs};

use ba_facts::{Term, TermAtom};
use ba_kernel::Step;
use ba_model::{Duplicate, List};
use std::alloc::{AllocError, Global};

/// So many numbers from the first one on.
#[derive(Clone, Copy, Debug)]
pub struct Span {
    pub first: usize,
    pub count: usize,
}

impl Span {
    /// What a number is once those of the span are gone; none of those.
    fn closed_up(self, number: u32) -> Option<u32>
        ensures { MaybeIs (IsClosedUp self number) result }
    {
        let place = number as usize;
        if place < self.first {
            return Some(number);
        }
        if place - self.first < self.count {
            return None;
        }
        Some((place - self.count) as u32)
    }
}

/// The facts and the unknowns that are missing.
#[derive(Clone, Copy, Debug)]
pub struct Gap {
    pub facts: Span,
    pub unknowns: Span,
}

impl Gap {
    /// The step with the numbers that its facts and unknowns have without those of the gap, if it
    /// names none of them.
    pub fn step(self, alloc: Global, step: &Step) -> Result<Option<Step>, AllocError>
        ensures { IfOk result (MaybeIs (IsMoved self step.now)) }
    {
        match step {
            Step::Entry { branch, entry } => Ok(Some(Step::Entry {
                branch: *branch,
                entry: *entry,
            })),
            Step::Absurd { branch } => Ok(Some(Step::Absurd { branch: *branch })),
            Step::Key {
                branch,
                key,
                left,
                right,
            } => Ok(self.key(*branch, *key, *left, *right)),
            Step::Link { branch, link, fact } => Ok(self.link(*branch, *link, *fact)),
            Step::Split { branch, atom } => self.split(alloc, *branch, atom),
            Step::Rule {
                branch,
                rule,
                part,
                facts,
            } => self.rule(alloc, *branch, *rule, *part, facts),
            Step::View {
                branch,
                view,
                part,
                facts,
            } => self.view(alloc, *branch, *view, *part, facts),
            Step::Goal {
                branch,
                part,
                facts,
            } => self.goal(alloc, *branch, *part, facts),
        }
    }

    fn rule(
        self,
        alloc: Global,
        branch: u32,
        rule: u32,
        part: u32,
        facts: &List<u32>,
    ) -> Result<Option<Step>, AllocError>
        ensures { IfOk result (MaybeIs (IsMoved self (steps.Rule branch rule part facts.now))) }
    {
        let moved = self.facts(alloc, facts)?;
        match moved {
            Some(facts) => Ok(Some(Step::Rule {
                branch,
                rule,
                part,
                facts,
            })),
            None => Ok(None),
        }
    }

    fn view(
        self,
        alloc: Global,
        branch: u32,
        view: u32,
        part: u32,
        facts: &List<u32>,
    ) -> Result<Option<Step>, AllocError>
        ensures { IfOk result (MaybeIs (IsMoved self (steps.View branch view part facts.now))) }
    {
        let moved = self.facts(alloc, facts)?;
        match moved {
            Some(facts) => Ok(Some(Step::View {
                branch,
                view,
                part,
                facts,
            })),
            None => Ok(None),
        }
    }

    fn goal(
        self,
        alloc: Global,
        branch: u32,
        part: u32,
        facts: &List<u32>,
    ) -> Result<Option<Step>, AllocError>
        ensures { IfOk result (MaybeIs (IsMoved self (steps.Goal branch part facts.now))) }
    {
        let moved = self.facts(alloc, facts)?;
        match moved {
            Some(facts) => Ok(Some(Step::Goal {
                branch,
                part,
                facts,
            })),
            None => Ok(None),
        }
    }

    fn key(self, branch: u32, key: u32, left: u32, right: u32) -> Option<Step>
        ensures { MaybeIs (IsMoved self (steps.Key branch key left right)) result }
    {
        let left = self.facts.closed_up(left)?;
        let right = self.facts.closed_up(right)?;
        Some(Step::Key {
            branch,
            key,
            left,
            right,
        })
    }

    fn link(self, branch: u32, link: u32, fact: u32) -> Option<Step>
        ensures { MaybeIs (IsMoved self (steps.Link branch link fact)) result }
    {
        let fact = self.facts.closed_up(fact)?;
        Some(Step::Link { branch, link, fact })
    }

    fn split(self, alloc: Global, branch: u32, atom: &TermAtom) -> Result<Option<Step>, AllocError>
        ensures { IfOk result (MaybeIs (IsMoved self (steps.Split branch atom.now))) }
    {
        let moved = self.atom(alloc, atom)?;
        match moved {
            Some(atom) => Ok(Some(Step::Split { branch, atom })),
            None => Ok(None),
        }
    }

    fn facts(self, alloc: Global, facts: &List<u32>) -> Result<Option<List<u32>>, AllocError>
        ensures { IfOk result (MaybeAll (IsClosedUp self.facts) facts.now) }
    {
        let mut all = List::new(alloc);
        for fact in facts.as_slice() {
            match self.facts.closed_up(*fact) {
                Some(moved) => all.push(moved)?,
                None => return Ok(None),
            }
        }
        Ok(Some(all))
    }

    fn atom(self, alloc: Global, atom: &TermAtom) -> Result<Option<TermAtom>, AllocError>
        ensures { IfOk result (MaybeIs (IsMovedAtom self atom.now)) }
    {
        let left = self.term(alloc, &atom.left)?;
        let Some(left) = left else {
            return Ok(None);
        };
        let right = self.term(alloc, &atom.right)?;
        let Some(right) = right else {
            return Ok(None);
        };
        Ok(Some(TermAtom {
            op: atom.op,
            left,
            right,
        }))
    }

    fn term(self, alloc: Global, term: &Term) -> Result<Option<Term>, AllocError>
        ensures { IfOk result (MaybeIs (IsMovedTerm self term.now)) }
    {
        match term {
            Term::Unknown(n) => Ok(self.unknown(*n)),
            _ => Ok(Some(term.copy(alloc)?)),
        }
    }

    fn unknown(self, number: u32) -> Option<Term>
        ensures { MaybeIs (IsMovedTerm self (terms.Unknown number)) result }
    {
        let number = self.unknowns.closed_up(number)?;
        Some(Term::Unknown(number))
    }
}
