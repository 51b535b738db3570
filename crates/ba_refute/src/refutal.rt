//! What a saturated leaf shows of a question.
ghost use Rattle.std.specs.Prelude.{◌≡◌, All, IfOk, length};
ghost use Rattle.ba_facts.specs.Shown.{Absurd};
ghost use Rattle.ba_settle.specs.Dues.{IsLeaf};
ghost use Rattle.ba_refute.specs.Counterexamples.{IsPairStored};
ghost use Rattle.ba_refute.specs.Images.{AreValued, IsValued};
ghost use Rattle.ba_refute.specs.Refutals.{AskedFits, IsTested, TellsRefutal, TellsTried, problem_asked};

use crate::clause::{Clause, Counterexample};
use crate::image::Image;
use crate::question::Question;
use crate::unmet::first_unmet;
use ba_facts::Branch;
use ba_kernel::Problem;
use ba_kernel::laws::{question_is_problem, runs_are_tidy};
use ba_settle::Leaf;
use std::alloc::{AllocError, Global};

/// What a saturated leaf shows of its question.
#[derive(Drop)]
pub enum Refutal {
    /// The image of its branch is a counterexample: the question isn't strongly compliant.
    Pair(Counterexample),
    /// The first clause that the image of its branch doesn't meet. Whether the question is strongly
    /// compliant isn't known. Of a leaf whose steps are a due list, or a late one, this comes only
    /// where some column may be NULL, or another atom than `=` stands in the views, the rules, the
    /// recorded queries or the question.
    Stuck(Leaf, Clause),
}

/// Values the unknowns of the leaf's branch, and tests whether the two databases and the row that
/// its facts and its goal row then are, its *image*, are a counterexample for the question.
///
/// The question is one of a checked policy, whose context, trace and query fit it, and the leaf is
/// one of its problem, as [`ba_settle::Settle`] gives it. `AllocError` comes also where a number
/// would pass 128 bits, and where there are 2^32 unknowns or more.
pub fn try_pair(alloc: Global, asked: &Question<'_>, leaf: Leaf) -> Result<Refutal, AllocError>
    requires fits { AskedFits asked.now }
    requires problem { leaf.problem ≡ problem_asked asked.now }
    requires leaf { IsLeaf leaf }
    ensures { IfOk result (TellsRefutal asked.now leaf) }
{
    runs_are_tidy();
    question_is_problem();
    let problem: &Problem = &leaf.problem;
    let branch: &Branch = &leaf.branch;
    let tried = try_branch(alloc, asked, problem, branch)?;
    match tried {
        Tried::Pair(pair) => Ok(Refutal::Pair(pair)),
        Tried::Stuck(clause) => Ok(Refutal::Stuck(leaf, clause)),
    }
}

/// What the image of a branch is: a counterexample, or a pair that doesn't meet a clause.
#[derive(Drop)]
pub enum Tried {
    Pair(Counterexample),
    /// The first clause that it doesn't meet.
    Stuck(Clause),
}

/// What the image of a branch of the problem is, which isn't absurd. Each parameter in its facts
/// and its goal row has a value, and no variable stands there.
fn try_branch(
    alloc: Global,
    asked: &Question<'_>,
    problem: &Problem,
    branch: &Branch,
) -> Result<Tried, AllocError>
    requires sound { ¬ (Absurd branch.now.known) }
    requires facts { AreValued (length branch.now.known.unknowns) asked.now.context.now branch.now.facts }
    requires goal { All (IsValued (length branch.now.known.unknowns) asked.now.context.now) branch.now.goal }
    ensures { IfOk result (TellsTried asked.now problem.now branch.now) }
{
    let image = Image::of(alloc, asked.context, problem, branch)?;
    let pair = image.narrow(alloc)?;
    match pair {
        Some(pair) => test(alloc, asked, pair),
        None => Ok(Tried::Stuck(Clause::Value)),
    }
}

/// The pair, if it is a counterexample, or else the first clause that it doesn't meet.
fn test(alloc: Global, asked: &Question<'_>, pair: Counterexample) -> Result<Tried, AllocError>
    requires { IsPairStored pair }
    ensures { IfOk result (IsTested asked.now pair) }
{
    let unmet = first_unmet(
        alloc,
        asked.policy,
        asked.context,
        asked.trace,
        asked.query,
        &pair,
    )?;
    match unmet {
        Some(clause) => Ok(Tried::Stuck(clause)),
        None => Ok(Tried::Pair(pair)),
    }
}
