//! Questions that are answered by proof.
ghost use Rattle.std.specs.Prelude.{◌≡◌, [], All, IfOk, OnOk};
ghost use Rattle.ba_kernel.specs.Asked.{QuestionFits, RecordFits};
ghost use Rattle.ba_kernel.specs.Courses.{ProblemFits};
ghost use Rattle.ba_model.specs.Fit.{ContextFits, IsQuery, PolicyFits, kinds_of};
ghost use Rattle.ba_model.specs.RuleFaults.{AreRules};
ghost use Rattle.ba_model.specs.SchemaFaults.{AreTables};

use super::Handle;
use super::given::{USERS, machine, policy, query, tables, user, values};
use ba_comply::{Trace, TraceEntry};
use ba_core::{Asked, Core, Ground};
use ba_direct::cover;
use ba_eval::answer;
use ba_instant::settle;
use ba_kernel::laws::{answers_are_records, question_is_problem};
use ba_kernel::{Problem, Proved};
use ba_model::{Context, Duplicate, Failure, Policy, Query, Shared};
use ba_settle::Settled;
use ba_tables::Tables;
use std::alloc::{AllocError, Global};

pub const OWN: &str = "SELECT * FROM Attendances WHERE UId = 2 AND EId = 5";

pub const TITLE: &str = "SELECT Title FROM Events WHERE EId = 5";

/// The query and its rows in the tables.
fn entry(
    alloc: Global,
    policy: &Policy,
    tables: &Tables,
    context: &Context,
    query: &Shared<Query>,
) -> Result<TraceEntry, AllocError>
    requires schema { tables.now.schema ≡ policy.now.schema }
    requires context { ContextFits (kinds_of policy.now.params) context.now }
    requires query { IsQuery policy.now.schema (kinds_of policy.now.params) [] query.now }
    ensures { IfOk result (RecordFits policy.now) }
{
    answers_are_records();
    let found = answer(alloc, tables.rows(), context, query)?;
    let rows = Shared::new(alloc, found)?;
    let query = query.copy(alloc)?;
    Ok(TraceEntry { query, rows })
}

/// Adds the query and its rows in the tables.
fn add(
    alloc: Global,
    policy: &Policy,
    tables: &Tables,
    context: &Context,
    trace: &mut Trace,
    query: &Shared<Query>,
) -> Result<(), AllocError>
    requires schema { tables.now.schema ≡ policy.now.schema }
    requires context { ContextFits (kinds_of policy.now.params) context.now }
    requires query { IsQuery policy.now.schema (kinds_of policy.now.params) [] query.now }
    requires trace { All (RecordFits policy.now) trace.old }
    ensures { OnOk result (All (RecordFits policy.now) trace.new) }
{
    let entry = entry(alloc, policy, tables, context, query)?;
    trace.push(entry)
}

/// What is asked after a trace fits.
fn question_fits(policy: &Shared<Policy>, context: &Context, trace: &Trace, query: &Shared<Query>)
    requires policy { PolicyFits policy.now }
    requires tables { AreTables policy.now.schema.tables }
    requires rules { AreRules policy.now.schema }
    requires context { ContextFits (kinds_of policy.now.params) context.now }
    requires trace { All (RecordFits policy.now) trace.now }
    requires query { IsQuery policy.now.schema (kinds_of policy.now.params) [] query.now }
    ensures { QuestionFits policy.now context.now trace.now query.now }
{}

/// The proof of the question after the trace.
fn proof(
    rt: &impl Handle,
    policy: &Shared<Policy>,
    context: &Context,
    trace: &Trace,
    query: &Shared<Query>,
) -> Proved
    requires policy { PolicyFits policy.now }
    requires tables { AreTables policy.now.schema.tables }
    requires rules { AreRules policy.now.schema }
    requires context { ContextFits (kinds_of policy.now.params) context.now }
    requires trace { All (RecordFits policy.now) trace.now }
    requires query { IsQuery policy.now.schema (kinds_of policy.now.params) [] query.now }
    ensures { ProblemFits result.problem }
{
    question_fits(policy, context, trace, query);
    question_is_problem();
    let problem = Problem::of(rt.alloc(), policy, context, trace, query).expect(rt, "memory");
    let settled = settle(rt.alloc(), problem, 100).expect(rt, "memory");
    match settled {
        Settled::Proved(proved) => proved,
        Settled::Saturated(_) | Settled::Spent(_) => panic!(rt; "no proof"),
    }
}

/// Opens request 0 of user 2, and asks the own attendance.
pub fn open(rt: &impl Handle, core: &mut Core, own: &Shared<Query>) {
    let context = user(rt, core.policy(), 2);
    let found = cover(rt.alloc(), core.policy(), &context, own).expect(rt, "memory");
    let why = match found {
        Some(cover) => Ground::Cover(cover),
        None => Ground::Refuse,
    };
    assert!(rt; core.begin(0, context, 0).is_ok(), "begun");
    assert!(rt;
        asked(rt, core, own, why).as_str() == " 2 5 100",
        "the attendance"
    );
}

/// What becomes of a question of request 0.
pub fn asked(rt: &impl Handle, core: &mut Core, query: &Shared<Query>, why: Ground) -> String {
    let query = query.copy(rt.alloc()).expect(rt, "memory");
    match core.ask(0, query, why) {
        Ok(Asked::Answer(rows)) => values(rt, &rows),
        Ok(Asked::Blocked) => format!(in rt.alloc(); "blocked").expect(rt, "memory"),
        Err(Failure::Fault(fault)) => format!(in rt.alloc(); "{fault:?}").expect(rt, "memory"),
        Err(Failure::NoMemory) => panic!(rt; "memory"),
    }
}

/// How many answers request 0 was told, if it is open.
pub fn told(core: &Core) -> u64 {
    match core.request(0) {
        Some(asker) => asker.trace.len(),
        None => 0,
    }
}

/// The trace of the own attendance.
fn one(
    alloc: Global,
    policy: &Policy,
    tables: &Tables,
    context: &Context,
    own: &Shared<Query>,
) -> Result<Trace, AllocError>
    requires schema { tables.now.schema ≡ policy.now.schema }
    requires context { ContextFits (kinds_of policy.now.params) context.now }
    requires own { IsQuery policy.now.schema (kinds_of policy.now.params) [] own.now }
    ensures { IfOk result (All (RecordFits policy.now)) }
{
    let mut trace = Trace::new(alloc);
    add(alloc, policy, tables, context, &mut trace, own)?;
    Ok(trace)
}

/// The trace of the own attendance and the title.
fn two(
    alloc: Global,
    policy: &Policy,
    tables: &Tables,
    context: &Context,
    own: &Shared<Query>,
    title: &Shared<Query>,
) -> Result<Trace, AllocError>
    requires schema { tables.now.schema ≡ policy.now.schema }
    requires context { ContextFits (kinds_of policy.now.params) context.now }
    requires own { IsQuery policy.now.schema (kinds_of policy.now.params) [] own.now }
    requires title { IsQuery policy.now.schema (kinds_of policy.now.params) [] title.now }
    ensures { IfOk result (All (RecordFits policy.now)) }
{
    let mut trace = one(alloc, policy, tables, context, own)?;
    add(alloc, policy, tables, context, &mut trace, title)?;
    Ok(trace)
}

/// A proof of the event's title after the own attendance.
pub fn first_title(
    rt: &impl Handle,
    policy: &Shared<Policy>,
    own: &Shared<Query>,
    title: &Shared<Query>,
) -> Proved
    requires policy { PolicyFits policy.now }
    requires tables { AreTables policy.now.schema.tables }
    requires rules { AreRules policy.now.schema }
    requires own { IsQuery policy.now.schema (kinds_of policy.now.params) [] own.now }
    requires title { IsQuery policy.now.schema (kinds_of policy.now.params) [] title.now }
    ensures { ProblemFits result.problem }
{
    let tables = tables(rt, policy, USERS);
    let context = user(rt, policy, 2);
    let trace = one(rt.alloc(), policy, &tables, &context, own).expect(rt, "memory");
    proof(rt, policy, &context, &trace, title)
}

/// A proof of the event's title after the own attendance and the title.
fn second_title(
    rt: &impl Handle,
    policy: &Shared<Policy>,
    own: &Shared<Query>,
    title: &Shared<Query>,
) -> Proved
    requires policy { PolicyFits policy.now }
    requires tables { AreTables policy.now.schema.tables }
    requires rules { AreRules policy.now.schema }
    requires own { IsQuery policy.now.schema (kinds_of policy.now.params) [] own.now }
    requires title { IsQuery policy.now.schema (kinds_of policy.now.params) [] title.now }
{
    let tables = tables(rt, policy, USERS);
    let context = user(rt, policy, 2);
    let trace = two(rt.alloc(), policy, &tables, &context, own, title).expect(rt, "memory");
    proof(rt, policy, &context, &trace, title)
}

/// The title is told once it is proved, and once more by a proof after what was told meanwhile.
#[test]
fn asked_once_more(rt: HostRuntime) {
    let policy = policy(&rt);
    let own = query(&rt, &policy, OWN);
    let title = query(&rt, &policy, TITLE);
    let first = Ground::Proof(first_title(&rt, &policy, &own, &title));
    let second = Ground::Proof(second_title(&rt, &policy, &own, &title));
    let mut core = machine(&rt, &policy);
    open(&rt, &mut core, &own);
    assert!(rt;
        asked(&rt, &mut core, &title, first).as_str() == " plan",
        "the title"
    );
    assert!(rt;
        asked(&rt, &mut core, &title, second).as_str() == " plan",
        "once more"
    );
    assert!(rt; told(&core) == 3, "three entries");
    assert!(rt; core.log().len() == 3, "three answers");
}
