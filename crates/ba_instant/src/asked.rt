//! Whether the question or a rule may ask for a moved unknown.
ghost use Rattle.std.specs.Prelude.{◌≡◌, [], All, Any, IsTrue, Some, slice_get};
ghost use Rattle.std.specs.List.{zip};
ghost use Rattle.std.specs.Option.{option_map};
ghost use Rattle.ba_facts.specs.Known.{seen};
ghost use Rattle.ba_instant.specs.QuietKeys.{AreApart, FailsOnRow, GivesAnother, GoalLeaves, IsUnasked, IsUnmovedIf, KeepsOut, LeavesFact, LeavesRow, ReadsUnmoved, UnmovedSides, term_at};

use crate::moves::{Move, cell, is_unmoved_if, stand_in};
use ba_facts::{Branch, Fact, Knowledge, Term, TermRef};
use ba_kernel::Problem;
use ba_model::{Atom, Operand, Part, Rule};

/// Whether neither the question nor a rule's left query asks for a moved unknown of the fact. A
/// part of the question with equations alone asks for none. Another part leaves the fact if,
/// wherever the fact's table stands in it, it reads no moved unknown of the fact or doesn't hold of
/// it.
pub fn is_left(problem: &Problem, branch: &Branch, moves: &[Move], fact: &Fact) -> bool
    ensures { IsTrue result → IsUnasked problem.now branch.now moves.now fact.now }
{
    parts_leave(branch, moves, fact, problem.goal.parts.as_slice())
        && rules_leave(problem, branch, moves, fact)
}

fn parts_leave(branch: &Branch, moves: &[Move], fact: &Fact, parts: &[Part]) -> bool
    ensures { IsTrue result → All (GoalLeaves branch.now moves.now fact.now) parts.now }
{
    parts
        .iter()
        .all(|part| part_leaves(branch, moves, fact, part))
}

#[tactic(auto, unfolding(crate::specs::QuietKeys::GoalLeaves))]
fn part_leaves(branch: &Branch, moves: &[Move], fact: &Fact, part: &Part) -> bool
    ensures { IsTrue result → GoalLeaves branch.now moves.now fact.now part.now }
{
    if part.equations() {
        return true;
    }
    let asking = Asking {
        known: &branch.known,
        moves,
        asked: branch.goal.as_slice(),
        part,
    };
    asking.leaves_fact(fact)
}

fn rules_leave(problem: &Problem, branch: &Branch, moves: &[Move], fact: &Fact) -> bool
    ensures { IsTrue result → All (λ rule. All (LeavesFact branch.now.known moves.now [] fact.now)
        rule.left.parts) problem.now.policy.schema.rules }
{
    let rules = problem.policy.schema.rules.as_slice();
    rules
        .iter()
        .all(|rule| rule_leaves(&branch.known, moves, fact, rule))
}

fn rule_leaves(known: &Knowledge, moves: &[Move], fact: &Fact, rule: &Rule) -> bool
    ensures { IsTrue result → All (LeavesFact known.now moves.now [] fact.now) rule.now.left.parts }
{
    let parts = rule.left.parts.as_slice();
    parts
        .iter()
        .all(|part| rule_part_leaves(known, moves, fact, part))
}

fn rule_part_leaves(known: &Knowledge, moves: &[Move], fact: &Fact, part: &Part) -> bool
    ensures { IsTrue result → LeavesFact known.now moves.now [] fact.now part.now }
{
    let asking = Asking {
        known,
        moves,
        asked: &[],
        part,
    };
    asking.leaves_fact(fact)
}

/// A part of which a row is asked, if it isn't empty, where unknowns are moved.
#[derive(Clone, Copy)]
struct Asking<'a> {
    known: &'a Knowledge,
    moves: &'a [Move],
    asked: &'a [Term],
    part: &'a Part,
}

impl<'a> Asking<'a> {
    /// Whether wherever the fact's table stands in the part no moved unknown of the fact is read,
    /// or the fact is kept out.
    fn leaves_fact(&self, fact: &Fact) -> bool
        ensures { IsTrue result → LeavesFact self.now.known.now self.now.moves.now
            self.now.asked.now fact.now self.now.part.now }
    {
        let from = self.part.from.as_slice();
        for place in 0..from.len() {
            if !self.leaves_place(fact, place, from[place]) {
                return false;
            }
        }
        true
    }

    fn leaves_place(&self, fact: &Fact, place: usize, table: u32) -> bool
        ensures { IsTrue result → table ≡ fact.now.table → LeavesRow self.now.known.now
            self.now.moves.now self.now.asked.now self.now.part.now place fact.now.terms }
    {
        table != fact.table || self.leaves_row(place, fact.terms.as_slice())
    }

    fn leaves_row(&self, place: usize, row: &[Term]) -> bool
        ensures { IsTrue result → LeavesRow self.now.known.now self.now.moves.now self.now.asked.now
            self.now.part.now place row.now }
    {
        self.reads_unmoved(place, row) || self.keeps_out(place, row)
    }

    fn reads_unmoved(&self, place: usize, row: &[Term]) -> bool
        ensures { IsTrue result → ReadsUnmoved self.now.moves.now self.now.part.now place row.now }
    {
        atoms_read_unmoved(self.moves, self.part.conds.as_slice(), place, row)
            && head_reads_unmoved(self.moves, self.part.head.as_slice(), place, row)
    }

    fn keeps_out(&self, place: usize, row: &[Term]) -> bool
        ensures { IsTrue result → KeepsOut self.now.known.now self.now.moves.now self.now.asked.now
            self.now.part.now place row.now }
    {
        self.fails_an_atom(place, row) || self.gives_another(self.part.head.as_slice(), place, row)
    }

    fn fails_an_atom(&self, place: usize, row: &[Term]) -> bool
        ensures { IsTrue result → Any (FailsOnRow self.now.known.now self.now.moves.now place
            row.now) self.now.part.now.conds }
    {
        let conds = self.part.conds.as_slice();
        conds.iter().any(|atom| self.fails(atom, place, row))
    }

    fn fails(&self, atom: &Atom, place: usize, row: &[Term]) -> bool
        ensures { IsTrue result
            → FailsOnRow self.now.known.now self.now.moves.now place row.now atom.now }
    {
        atom.op.is_equation()
            && self.are_apart(
                term_at(place, row, &atom.left),
                term_at(place, row, &atom.right),
            )
    }

    /// Whether a column of the head isn't the same as that of the row that is asked for.
    fn gives_another(&self, head: &[Operand], place: usize, row: &[Term]) -> bool
        ensures { IsTrue result → Any (GivesAnother self.now.known.now self.now.moves.now place
            row.now) (zip head.now self.now.asked.now) }
    {
        let asked = self.asked;
        if head.len() != asked.len() {
            return false;
        }
        for i in 0..head.len() {
            if self.is_another(&head[i], &asked[i], place, row) {
                return true;
            }
        }
        false
    }

    fn is_another(&self, operand: &Operand, term: &Term, place: usize, row: &[Term]) -> bool
        ensures { IsTrue result → AreApart self.now.known.now self.now.moves.now
            (term_at place row.now operand.now) (Some term.now) }
    {
        self.are_apart(term_at(place, row, operand), Some(term.by_ref()))
    }

    /// Whether both terms are there, and what stands for them isn't the same.
    fn are_apart(&self, left: Option<TermRef<'_>>, right: Option<TermRef<'_>>) -> bool
        ensures { IsTrue result → AreApart self.now.known.now self.now.moves.now
            (option_map seen left.entry) (option_map seen right.entry) }
    {
        match (left, right) {
            (Some(left), Some(right)) => !self
                .known
                .same(stand_in(self.moves, left), stand_in(self.moves, right)),
            _ => false,
        }
    }
}

// ---- what a part reads

fn atoms_read_unmoved(moves: &[Move], conds: &[Atom], place: usize, row: &[Term]) -> bool
    ensures { IsTrue result → All (UnmovedSides moves.now place row.now) conds.now }
{
    conds
        .iter()
        .all(|atom| sides_are_unmoved(moves, atom, place, row))
}

fn sides_are_unmoved(moves: &[Move], atom: &Atom, place: usize, row: &[Term]) -> bool
    ensures { IsTrue result → UnmovedSides moves.now place row.now atom.now }
{
    reads_no_move(moves, &atom.left, place, row) && reads_no_move(moves, &atom.right, place, row)
}

fn head_reads_unmoved(moves: &[Move], head: &[Operand], place: usize, row: &[Term]) -> bool
    ensures { IsTrue result → All (λ x. IsUnmovedIf moves.now (term_at place row.now x)) head.now }
{
    head.iter()
        .all(|operand| reads_no_move(moves, operand, place, row))
}

fn reads_no_move(moves: &[Move], operand: &Operand, place: usize, row: &[Term]) -> bool
    ensures { IsTrue result → IsUnmovedIf moves.now (term_at place row.now operand.now) }
{
    is_unmoved_if(moves, term_at(place, row, operand))
}

/// What the operand stands for, as far as the row at the place tells it.
fn term_at<'a>(place: usize, row: &'a [Term], operand: &'a Operand) -> Option<TermRef<'a>>
    ensures { option_map seen result ≡ term_at place row.now operand.now }
{
    match operand {
        Operand::Col(other, column) => {
            if *other as usize == place {
                cell(row, *column)
            } else {
                None
            }
        }
        Operand::Val(value) => Some(TermRef::Val(value)),
        Operand::Param(n) => Some(TermRef::Param(*n)),
        Operand::Var(n) => Some(TermRef::Var(*n)),
    }
}
