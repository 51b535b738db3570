//! Templates of questions that no row answers, each proved by one step: `SELECT .. FROM .. WHERE 0 = 1`.
ghost use Rattle.std.specs.Prelude.{◌≤◌, ◌↔◌, [], All, IfOk, IsTrue, length};
ghost use Rattle.ba_model.specs.Fit.{KeyFits, IsQuery, kinds_of};
ghost use Rattle.ba_model.specs.RuleFaults.{RuleFits};
ghost use Rattle.ba_kernel.specs.Courses.{LinkFits, LinksFit, ProblemFits};
ghost use Rattle.ba_kernel.specs.Drafts.{IsChecked};

use ba_kernel::{Problem, ProblemDraft, Proved, Step, replay};
use ba_model::{
    Atom, Column, Duplicate, Kind, List, MAX_STEPS, Op, Operand, Part, Policy, Query, Schema,
    Shared, Str, Table, Value,
};
use ba_template::{Template, each_var_stands};
use std::alloc::{AllocError, Global};

// ---- a policy that shows nothing of two tables

fn no_name(alloc: Global) -> Str {
    Str::from_string(String::new(alloc))
}

/// One column of whole numbers.
fn add_table(alloc: Global, schema: &mut Schema) -> Result<(), AllocError> {
    let mut columns = List::new(alloc);
    columns.push(Column {
        name: no_name(alloc),
        kind: Kind::Int,
        nullable: false,
    })?;
    schema.tables.push(Table {
        name: no_name(alloc),
        columns,
        keys: List::new(alloc),
        links: List::new(alloc),
    })
}

fn schema(alloc: Global) -> Result<Shared<Schema>, AllocError> {
    let mut schema = Schema {
        tables: List::new(alloc),
        rules: List::new(alloc),
    };
    add_table(alloc, &mut schema)?;
    add_table(alloc, &mut schema)?;
    Shared::new(alloc, schema)
}

/// The policy.
pub(super) fn policy(alloc: Global) -> Result<Shared<Policy>, AllocError> {
    let policy = Policy {
        schema: schema(alloc)?,
        params: List::new(alloc),
        views: List::new(alloc),
        keys: List::new(alloc),
    };
    Shared::new(alloc, policy)
}

// ---- it is as its readers ensure

fn table_fits(schema: &Schema, table: &Table) -> bool
    ensures { IsTrue result → All (LinkFits schema.now) table.now.links }
{
    table.links.len() == 0
}

/// It has two tables, and these have no links.
fn links_fit(schema: &Schema) -> bool
    ensures { IsTrue result → LinksFit schema.now }
{
    schema.tables.len() == 2
        && table_fits(schema, schema.tables.get(0))
        && table_fits(schema, schema.tables.get(1))
}

fn views_fit(policy: &Policy) -> bool
    ensures { IsTrue result → All (λ view. IsQuery policy.now.schema (kinds_of policy.now.params) [] view.query) policy.now.views }
{
    policy.views.len() == 0
}

fn keys_fit(policy: &Policy) -> bool
    ensures { IsTrue result → All (KeyFits policy.now) policy.now.keys }
{
    policy.keys.len() == 0
}

fn own_links_fit(policy: &Policy) -> bool
    ensures { IsTrue result → LinksFit policy.now.schema }
{
    links_fit(&policy.schema)
}

fn own_rules_fit(policy: &Policy) -> bool
    ensures { IsTrue result → All (RuleFits policy.now.schema) policy.now.schema.rules }
{
    policy.schema.rules.len() == 0
}

fn is_checked(policy: &Policy) -> bool
    ensures { IsTrue result → IsChecked policy.now }
{
    if !own_links_fit(policy) || !own_rules_fit(policy) || !views_fit(policy) {
        return false;
    }
    keys_fit(policy)
}

// ---- a question

/// `SELECT` the column `width` times `FROM` table 1 `WHERE 0 = number`.
fn fill(part: &mut Part, width: u32, number: i64) -> Result<(), AllocError> {
    part.from.push(1)?;
    part.conds.push(Atom {
        op: Op::Eq,
        left: Operand::Val(Value::Int(0)),
        right: Operand::Val(Value::Int(number)),
    })?;
    for _ in 0..width {
        part.head.push(Operand::Col(0, 0))?;
    }
    Ok(())
}

fn question(alloc: Global, width: u32, number: i64) -> Result<Shared<Query>, AllocError> {
    let mut part = Part {
        from: List::new(alloc),
        conds: List::new(alloc),
        head: List::new(alloc),
    };
    fill(&mut part, width, number)?;
    let mut parts = List::new(alloc);
    parts.push(part)?;
    Shared::new(alloc, Query { parts })
}

// ---- its template

/// Any fault is told as want of memory, here and below.
fn problem(
    alloc: Global,
    policy: &Shared<Policy>,
    width: u32,
    number: i64,
) -> Result<Problem, AllocError>
    ensures { IfOk result ProblemFits }
{
    let policy = policy.copy(alloc)?;
    if !is_checked(&policy) {
        return Err(AllocError);
    }
    let draft = ProblemDraft {
        policy,
        vars: List::new(alloc),
        assumed: List::new(alloc),
        entries: List::new(alloc),
        goal: question(alloc, width, number)?,
    };
    match Problem::new(alloc, draft) {
        Ok(problem) => Ok(problem),
        Err(_) => Err(AllocError),
    }
}

fn step(alloc: Global) -> Result<List<Step>, AllocError> {
    let mut steps = List::new(alloc);
    steps.push(Step::Absurd { branch: 0 })?;
    Ok(steps)
}

fn proof_of(alloc: Global, problem: Problem, steps: List<Step>) -> Result<Proved, AllocError>
    requires { ProblemFits problem }
    ensures { IfOk result (λ it. ProblemFits it.problem) }
{
    if steps.len() as u64 > MAX_STEPS {
        return Err(AllocError);
    }
    match replay(alloc, problem, steps) {
        Ok(proved) => Ok(proved),
        Err(_) => Err(AllocError),
    }
}

fn template_of(alloc: Global, proved: Proved) -> Result<Template, AllocError>
    requires { ProblemFits proved.problem }
{
    if each_var_stands(proved.problem()) {
        Template::of(alloc, proved)
    } else {
        Err(AllocError)
    }
}

/// The template of `SELECT ..` a column so many times `FROM` table 1 `WHERE 0 =` the number, over the policy. Its shape goes by the width.
pub(super) fn template_over(
    alloc: Global,
    policy: &Shared<Policy>,
    width: u32,
    number: i64,
) -> Result<Shared<Template>, AllocError> {
    let proved = proof_of(alloc, problem(alloc, policy, width, number)?, step(alloc)?)?;
    Shared::new(alloc, template_of(alloc, proved)?)
}

/// The same over a policy of its own.
pub(super) fn template(
    alloc: Global,
    width: u32,
    number: i64,
) -> Result<Shared<Template>, AllocError> {
    template_over(alloc, &policy(alloc)?, width, number)
}
