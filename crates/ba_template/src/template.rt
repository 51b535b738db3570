ghost use Rattle.std.specs.Prelude.{◌≡◌, ◌↔◌, IfOk, IsTrue};
ghost use Rattle.ba_kernel.specs.Courses.{ProblemFits};
ghost use Rattle.ba_kernel.specs.Problems.{StrongAll};
ghost use Rattle.ba_template.specs.Shapes.{shape_of};
ghost use Rattle.ba_template.specs.Templates.{EachVarStands, IsTemplate};

use crate::same::{same_problem, same_steps};
use crate::shapes::Shape;
use ba_kernel::{Problem, Proved, Step};
use ba_model::List;
use std::alloc::{AllocError, Global};
use std::marker::Model;

/// A proof that serves every question that it matches. Its problem has variables, which stand for
/// literals of the question and of the rows that were shown before it, and a condition on them, its
/// assumed atoms.
///
/// The type keeps that the problem fits: its queries, rows and condition, and what is kept of its
/// policy, are well formed; that the steps are at most [`ba_model::MAX_STEPS`], are accepted from
/// the problem's start and leave no branch open; that under every context and valuation that meet
/// the condition the question is strongly compliant after its rows; and that each variable stands in
/// the goal or an entry.
#[derive(Drop)]
pub struct Template {
    proved: Proved,
    shape: Shape,
}

impl Model for Template {
    ghost use Rattle.std.specs.Prelude.{◌≡◌};
    ghost use Rattle.ba_kernel.specs.SearchStates.{Proof};
    ghost use Rattle.ba_template.specs.Shapes.{shape_of};
    ghost use Rattle.ba_template.specs.Templates.{IsTemplate};

    ghost Value = { Proof };

    ghost view = { λ it. it.proved };

    ghost invariant = { λ it. IsTemplate it.proved.problem it.proved.steps × (it.shape ≡ shape_of it.proved.problem.vars it.proved.problem.goal) };
}

impl Template {
    /// The template of a proof of a problem that fits, each of whose variables stands in the goal or
    /// an entry ([`crate::each_var_stands`]).
    pub fn of(alloc: Global, proved: Proved) -> Result<Template, AllocError>
        requires fits { ProblemFits proved.problem }
        requires stands { EachVarStands proved.problem }
        ensures { IfOk result (λ it. it ≡ proved) }
    {
        let shape = goal_shape(alloc, &proved)?;
        Ok(Template { proved, shape })
    }

    /// The problem: of every instance that meets its assumed atoms the question is strongly compliant.
    pub fn problem(&self) -> &Problem
        ensures is { result.now ≡ self.now.problem }
        ensures strong { StrongAll result.now }
        ensures stands { EachVarStands result.now }
    {
        self.proved.problem()
    }

    /// The steps, the first one first. They prove the problem.
    pub fn steps(&self) -> &List<Step>
        ensures is { result.now ≡ self.now.steps }
        ensures template { IsTemplate self.now.problem result.now }
    {
        self.proved.steps()
    }

    /// The shape of the goal.
    pub fn shape(&self) -> &Shape
        ensures { result.now ≡ shape_of self.now.problem.vars self.now.problem.goal }
    {
        &self.shape
    }

    /// Whether the templates have equal content.
    pub fn same(&self, other: &Template) -> bool
        ensures { IsTrue result ↔ (self.now ≡ other.now) }
    {
        same_steps(self.steps(), other.steps()) && same_problem(self.problem(), other.problem())
    }
}

/// The shape of the problem's goal.
fn goal_shape(alloc: Global, proved: &Proved) -> Result<Shape, AllocError>
    ensures { IfOk result (λ it. it ≡ shape_of proved.now.problem.vars proved.now.problem.goal) }
{
    let problem = proved.problem();
    Shape::of(alloc, problem.vars.as_slice(), &problem.goal)
}
