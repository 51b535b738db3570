//! Problems that are put together by hand.
ghost use Rattle.std.specs.Prelude.{◌≡◌, ◌↔◌, IfErr, IfOk, IsTrue};
ghost use Rattle.ba_model.specs.Fit.{OpFits};
ghost use Rattle.ba_model.specs.Readings.{OfFault};
ghost use Rattle.ba_model.specs.declared.query.Operand.TheVariants.{Val};
ghost use Rattle.ba_model.specs.declared.value.Value.TheVariants.{Null};
ghost use Rattle.ba_kernel.specs.Courses.{EntryFits, ProblemFits};
ghost use Rattle.ba_kernel.specs.Drafts.{IsAssumedIn, IsChecked, IsFirstBad, IsQueryIn, IsWellFormed, MayStand, Stands, kind_in, problem_from};
ghost use Rattle.ba_kernel.specs.Steps.{FirstWithout};

use crate::problem::{Problem, ProblemEntry};
use ba_model::{
    Atom, Duplicate, Failure, Kind, List, Op, Operand, Policy, Query, QueryDraft, Same, Shared,
    operand_kind,
};
use std::alloc::{AllocError, Global};

/// A problem that isn't checked yet.
#[derive(Debug, Drop)]
pub struct ProblemDraft {
    pub policy: Shared<Policy>,
    pub vars: List<Kind>,
    pub assumed: List<Atom>,
    pub entries: List<ProblemEntry>,
    pub goal: Shared<Query>,
}

/// The first part of a draft that isn't well formed: of its entries, then of its assumed atoms,
/// each by its number from 0, then its goal.
#[derive(Clone, Copy, Debug, PartialEq, Eq)]
pub enum ProblemFault {
    /// The entry's query isn't one for the policy and the variables, or its row hasn't the query's
    /// width and kinds (NULL is of each kind), or a parameter or variable in it isn't there.
    BadEntry(u64),
    /// The assumed atom has a column, or isn't one of parameters, variables and literals of one
    /// kind.
    BadAssumed(u64),
    /// The goal isn't a query for the policy and the variables.
    BadGoal,
}

impl Problem {
    /// The draft as a problem, with the same content, where its entries, its assumed atoms and its
    /// goal are well formed; else its first part that isn't. It fits where its policy is one that
    /// the readers gave. A draft with a fault is dropped.
    pub fn new(alloc: Global, draft: ProblemDraft) -> Result<Problem, Failure<ProblemFault>>
        ensures content { IfOk result (λ it. it ≡ problem_from draft) }
        ensures formed { IfOk result IsWellFormed }
        ensures fits { IsChecked draft.policy → IfOk result ProblemFits }
        ensures fault { IfErr result (λ e. OfFault e (IsFirstBad (problem_from draft))) }
    {
        let problem = Problem {
            policy: draft.policy,
            vars: draft.vars,
            assumed: draft.assumed,
            entries: draft.entries,
            goal: draft.goal,
        };
        check(alloc, &problem)?;
        Ok(problem)
    }

    /// The goal.
    fn goal_query(&self) -> &Query
        ensures { result.now ≡ self.now.goal }
    {
        &self.goal
    }
}

impl ProblemEntry {
    /// The query.
    fn asked(&self) -> &Query
        ensures { result.now ≡ self.now.query }
    {
        &self.query
    }
}

/// Whether the parts of a problem are well formed.
fn check(alloc: Global, problem: &Problem) -> Result<(), Failure<ProblemFault>>
    ensures ok { IfOk result (λ _. IsWellFormed problem.now) }
    ensures fault { IfErr result (λ e. OfFault e (IsFirstBad problem.now)) }
{
    let entry = first_bad_entry(alloc, problem)?;
    if let Some(n) = entry {
        return Err(Failure::Fault(ProblemFault::BadEntry(n as u64)));
    }
    if let Some(n) = first_bad_assumed(problem) {
        return Err(Failure::Fault(ProblemFault::BadAssumed(n as u64)));
    }
    let goal = is_query(alloc, problem, problem.goal_query())?;
    if !goal {
        return Err(Failure::Fault(ProblemFault::BadGoal));
    }
    Ok(())
}

/// The first entry that isn't well formed, by its number.
fn first_bad_entry(alloc: Global, problem: &Problem) -> Result<Option<usize>, AllocError>
    ensures { IfOk result (FirstWithout (EntryFits problem.now) problem.now.entries) }
{
    for (n, entry) in problem.entries.as_slice().iter().enumerate() {
        let fits = entry_fits(alloc, problem, entry)?;
        if !fits {
            return Ok(Some(n));
        }
    }
    Ok(None)
}

/// The first assumed atom that isn't well formed, by its number.
fn first_bad_assumed(problem: &Problem) -> Option<usize>
    ensures { FirstWithout (IsAssumedIn problem.now) problem.now.assumed result }
{
    for (n, atom) in problem.assumed.as_slice().iter().enumerate() {
        if !is_assumed(problem, atom) {
            return Some(n);
        }
    }
    None
}

/// Whether an entry's query is one for the problem's policy and variables, and its row may stand
/// for the query's head.
fn entry_fits(alloc: Global, problem: &Problem, entry: &ProblemEntry) -> Result<bool, AllocError>
    ensures { IfOk result (λ told. IsTrue told ↔ EntryFits problem.now entry.now) }
{
    let query = is_query(alloc, problem, entry.asked())?;
    if !query {
        return Ok(false);
    }
    Ok(row_fits(problem, entry))
}

/// Whether a query is one for the problem's policy and variables.
fn is_query(alloc: Global, problem: &Problem, query: &Query) -> Result<bool, AllocError>
    ensures { IfOk result (λ told. IsTrue told ↔ IsQueryIn problem.now query.now) }
{
    let draft = QueryDraft {
        parts: query.parts.copy(alloc)?,
    };
    let policy = &problem.policy;
    match Query::check(&policy.schema, &policy.params, &problem.vars, draft) {
        Ok(_) => Ok(true),
        Err(_) => Ok(false),
    }
}

/// Whether the row of an entry, whose query is checked, has the query's width and kinds.
fn row_fits(problem: &Problem, entry: &ProblemEntry) -> bool
    requires { IsQueryIn problem.now entry.now.query }
    ensures { IsTrue result ↔ EntryFits problem.now entry.now }
{
    match entry.query.parts.find(0) {
        Some(part) => stands(
            problem,
            part.from.as_slice(),
            part.head.as_slice(),
            entry.row.as_slice(),
        ),
        None => false,
    }
}

/// Whether the row has an operand for each of the head's, over these tables, that may stand for its
/// kind.
fn stands(problem: &Problem, from: &[u32], head: &[Operand], row: &[Operand]) -> bool
    ensures { IsTrue result ↔ Stands problem.now from.now head.now row.now }
{
    match (head.split_first(), row.split_first()) {
        (None, None) => true,
        (Some((x, xs)), Some((operand, rest))) => {
            let kind = kind_in(problem, from, x);
            may_stand(problem, kind, operand) && stands(problem, from, xs, rest)
        }
        _ => false,
    }
}

/// The kind of an operand over these tables, if it is there.
fn kind_in(problem: &Problem, from: &[u32], operand: &Operand) -> Option<Kind>
    ensures { result ≡ kind_in problem.now from.now operand.now }
{
    operand_kind(
        &problem.policy.schema,
        problem.params(),
        problem.vars.as_slice(),
        from,
        operand,
    )
}

/// Whether the operand may stand in a row for the kind, if there is one.
fn may_stand(problem: &Problem, kind: Option<Kind>, operand: &Operand) -> bool
    ensures { IsTrue result ↔ MayStand problem.now kind operand.now }
{
    match (kind, kind_in(problem, &[], operand)) {
        (Some(kind), Some(other)) => kind == other || is_null(operand),
        (Some(_), None) => is_null(operand),
        (None, _) => false,
    }
}

/// Whether the operand is the literal NULL.
fn is_null(operand: &Operand) -> bool
    ensures { IsTrue result ↔ (operand.now ≡ Val Null) }
{
    match operand {
        Operand::Val(value) => value.is_null(),
        Operand::Col(_, _) | Operand::Param(_) | Operand::Var(_) => false,
    }
}

/// Whether an atom has no column and fits the problem's parameters and variables.
fn is_assumed(problem: &Problem, atom: &Atom) -> bool
    ensures { IsTrue result ↔ IsAssumedIn problem.now atom.now }
{
    let left = kind_in(problem, &[], &atom.left);
    let right = kind_in(problem, &[], &atom.right);
    match (left, right) {
        (Some(kind), Some(other)) => kind == other && op_fits(kind, atom),
        _ => false,
    }
}

/// Whether the atom's operator fits its sides, which are of the kind.
fn op_fits(kind: Kind, atom: &Atom) -> bool
    ensures { IsTrue result ↔ OpFits atom.now.op kind atom.now.left atom.now.right }
{
    match atom.op {
        Op::Eq | Op::Ne => true,
        Op::Lt | Op::Le => kind == Kind::Int,
        Op::IsNull | Op::NotNull => atom.right.same(&atom.left),
    }
}
