//! Problems.
ghost use Rattle.std.specs.Prelude.{◌≡◌, ◌<◌, ◌++◌, IfOk, OnOk, Some, length, map, slice_get};
ghost use Rattle.std.specs.List.{flat_map, range_with_len, zip};
ghost use Rattle.std.specs.Option.{option_copied};
ghost use Rattle.ba_model.specs.SchemaFaults.{columns_of};
ghost use Rattle.ba_model.specs.declared.query.Operand.TheVariants.{Val};
ghost use Rattle.ba_kernel.specs.Asked.{QuestionFits};
ghost use Rattle.ba_kernel.specs.Courses.{ProblemFits};
ghost use Rattle.ba_kernel.specs.Effects.{IsEntryRound};
ghost use Rattle.ba_kernel.specs.Problems.{entries_of, param_is, problem_of};

use crate::cases::rounds::entry_round;
use ba_comply::{Trace, TraceEntry};
use ba_facts::number_of;
use ba_model::{
    Atom, Column, Context, Duplicate, Kind, List, Op, Operand, Parameter, Part, Policy, Query,
    Rule, Shared, Table, Value, View,
};
use std::alloc::{AllocError, Global};

/// A row that was shown before, and the query whose answer it was in.
#[derive(Debug, Drop)]
pub struct ProblemEntry {
    pub query: Shared<Query>,
    pub row: List<Operand>,
}

/// A question under a policy, after rows that were shown before. Variables stand for values that
/// aren't fixed; `assumed` is known of them and of the parameters.
#[derive(Debug, Drop)]
pub struct Problem {
    pub policy: Shared<Policy>,
    pub vars: List<Kind>,
    pub assumed: List<Atom>,
    pub entries: List<ProblemEntry>,
    pub goal: Shared<Query>,
}

impl Problem {
    /// The problem of a question under a policy after a trace: no variables, each parameter has its
    /// value in the context, and there is one entry for each recorded row, in order. It fits where
    /// the schema's links and rules, the views, the context, the recorded rows and the query fit.
    /// The policy and the queries are held in common: no copy of them is made, whatever their size.
    /// A context of 2^32 values or more is told as want of memory ([`ba_facts::number_of`]).
    pub fn of(
        alloc: Global,
        policy: &Shared<Policy>,
        ctx: &Context,
        trace: &Trace,
        query: &Shared<Query>,
    ) -> Result<Problem, AllocError>
        ensures is { IfOk result (λ it. it ≡ problem_of policy.now ctx.now trace.now query.now) }
        ensures fits { QuestionFits policy.now ctx.now trace.now query.now →
            IfOk result ProblemFits }
    {
        of_question(alloc, policy, ctx, trace, query)
    }

    /// The round of a step by an entry of the problem: 1 where its row has a literal of the goal,
    /// else 2.
    pub fn entry_round(&self, entry: &ProblemEntry) -> u32
        ensures { IsEntryRound self.now entry.now.row result }
    {
        entry_round(self, entry.row.as_slice())
    }

    /// The parameters of the policy.
    pub(crate) fn params(&self) -> &[Parameter]
        ensures { result.now ≡ self.now.policy.params }
    {
        self.policy.params.as_slice()
    }

    /// The views of the policy.
    pub(crate) fn views(&self) -> &[View]
        ensures { result.now ≡ self.now.policy.views }
    {
        self.policy.views.as_slice()
    }

    /// The view of the number, if it is there.
    pub(crate) fn view(&self, number: u32) -> Option<&View>
        ensures { option_copied result ≡ slice_get self.now.policy.views number }
    {
        self.policy.views.find(number as usize)
    }

    /// The view of the number, which is there.
    pub(crate) fn view_at(&self, number: u32) -> &View
        requires { number < length self.now.policy.views }
        ensures { slice_get self.now.policy.views number ≡ Some result.now }
    {
        self.policy.views.get(number as usize)
    }

    /// The rules of the schema.
    pub(crate) fn rules(&self) -> &[Rule]
        ensures { result.now ≡ self.now.policy.schema.rules }
    {
        self.policy.schema.rules.as_slice()
    }

    /// The rule of the number, if it is there.
    pub(crate) fn rule(&self, number: u32) -> Option<&Rule>
        ensures { option_copied result ≡ slice_get self.now.policy.schema.rules number }
    {
        self.policy.schema.rules.find(number as usize)
    }

    /// The rule of the number, which is there.
    pub(crate) fn rule_at(&self, number: u32) -> &Rule
        requires { number < length self.now.policy.schema.rules }
        ensures { slice_get self.now.policy.schema.rules number ≡ Some result.now }
    {
        self.policy.schema.rules.get(number as usize)
    }

    /// The table of the number, if it is there.
    pub(crate) fn table(&self, number: u32) -> Option<&Table>
        ensures { option_copied result ≡ slice_get self.now.policy.schema.tables number }
    {
        self.policy.schema.tables.find(number as usize)
    }

    /// The table of the number, which is there.
    pub(crate) fn table_at(&self, number: u32) -> &Table
        requires { number < length self.now.policy.schema.tables }
        ensures { slice_get self.now.policy.schema.tables number ≡ Some result.now }
    {
        self.policy.schema.tables.get(number as usize)
    }

    /// The columns of the table of the number, of which there are none where it isn't there.
    pub(crate) fn columns(&self, number: u32) -> &[Column]
        ensures { result.now ≡ columns_of self.now.policy.schema.tables number }
    {
        match self.table(number) {
            Some(it) => it.columns.as_slice(),
            None => &[],
        }
    }

    /// The parts of the goal.
    pub(crate) fn goal_parts(&self) -> &[Part]
        ensures { result.now ≡ self.now.goal.parts }
    {
        self.goal.parts.as_slice()
    }

    /// The part of the number of the goal, if it is there.
    pub(crate) fn goal_part(&self, number: u32) -> Option<&Part>
        ensures { option_copied result ≡ slice_get self.now.goal.parts number }
    {
        self.goal.parts.find(number as usize)
    }
}

impl ProblemEntry {
    /// The parts of the entry's query.
    pub(crate) fn parts(&self) -> &[Part]
        ensures { result.now ≡ self.now.query.parts }
    {
        self.query.parts.as_slice()
    }
}

fn of_question(
    alloc: Global,
    policy: &Shared<Policy>,
    ctx: &Context,
    trace: &Trace,
    query: &Shared<Query>,
) -> Result<Problem, AllocError>
    ensures { IfOk result (λ it. it ≡ problem_of policy.now ctx.now trace.now query.now) }
{
    let assumed = fixed_params(alloc, ctx.values.as_slice())?;
    let entries = trace_entries(alloc, trace)?;
    Ok(Problem {
        policy: policy.copy(alloc)?,
        vars: List::new(alloc),
        assumed,
        entries,
        goal: query.copy(alloc)?,
    })
}

/// Each parameter has its value.
fn fixed_params(alloc: Global, values: &[Value]) -> Result<List<Atom>, AllocError>
    ensures { IfOk result (λ atoms.
        atoms ≡ map param_is (zip (range_with_len 0 (length values.now)) values.now)) }
{
    number_of(values.len())?;
    let mut atoms = Vec::new(alloc);
    for (n, value) in values.iter().enumerate() {
        let right = Operand::Val(value.copy(alloc)?);
        atoms.push(Atom {
            op: Op::Eq,
            left: Operand::Param(n as u32),
            right,
        })?;
    }
    Ok(List::from_vec(atoms))
}

/// An entry for each recorded row.
fn trace_entries(alloc: Global, trace: &Trace) -> Result<List<ProblemEntry>, AllocError>
    ensures { IfOk result (λ entries. entries ≡ flat_map entries_of trace.now) }
{
    let mut entries = Vec::new(alloc);
    for i in 0..trace.len() {
        add_entries(alloc, &mut entries, trace.entry(i))?;
    }
    Ok(List::from_vec(entries))
}

/// Adds an entry for each row of one recorded query.
fn add_entries(
    alloc: Global,
    entries: &mut Vec<ProblemEntry>,
    it: &TraceEntry,
) -> Result<(), AllocError>
    ensures { OnOk result (entries.new.items ≡ entries.old.items ++ entries_of it.now) }
{
    for row in it.rows.as_slice() {
        entries.push(row_entry(alloc, &it.query, row.as_slice())?)?;
    }
    Ok(())
}

fn row_entry(
    alloc: Global,
    query: &Shared<Query>,
    row: &[Value],
) -> Result<ProblemEntry, AllocError>
    ensures { IfOk result (λ entry. entry ≡ record { query = query.now; row = map Val row.now }) }
{
    Ok(ProblemEntry {
        query: query.copy(alloc)?,
        row: literals(alloc, row)?,
    })
}

fn literals(alloc: Global, row: &[Value]) -> Result<List<Operand>, AllocError>
    ensures { IfOk result (λ operands. operands ≡ map Val row.now) }
{
    let mut operands = Vec::new(alloc);
    for value in row {
        operands.push(Operand::Val(value.copy(alloc)?))?;
    }
    Ok(List::from_vec(operands))
}
