//! Whether a match that is given is one.
ghost use Rattle.std.specs.Prelude.{◌≡◌, ◌↔◌, IsTrue, Some, map, slice_get};
ghost use Rattle.std.specs.List.{AllZip};
ghost use Rattle.ba_kernel.specs.Problems.{atom_at, fixed_value, operand_at, part_at, query_at, variable_at};
ghost use Rattle.ba_comply.specs.Comply.{Strong};
ghost use Rattle.ba_match.specs.Tested.{Gives, GivesSome, StandsIn};
ghost use Rattle.ba_model.specs.Fit.{ContextFits, kinds_of};
ghost use Rattle.ba_template.specs.Found.{IsMatch, StandsAt, with_values};

use crate::condition::{all_hold, are_of_kinds, value};
use ba_comply::{Trace, TraceEntry};
use ba_kernel::{Problem, ProblemEntry};
use ba_model::{Atom, Context, Operand, Part, Policy, Query, Same, Shared, Value};
use ba_template::laws::matched_is_strong;
use ba_template::{Match, Template};

/// Whether the match is one of the template with the question after the trace: the policies are the same, each value is of its
/// variable's kind, with the values the goal is the question and each entry's query and row stand together at its place of the
/// trace, and the condition is true. What matches so, in a context that fits the policy, is strongly compliant after the trace. It
/// takes no memory.
pub fn is_match(
    template: &Template,
    policy: &Shared<Policy>,
    ctx: &Context,
    trace: &Trace,
    query: &Query,
    found: &Match,
) -> bool
    ensures exact { IsTrue result ↔ IsMatch template.now.problem policy.now ctx.now trace.now query.now found.now }
    ensures strong { ContextFits (kinds_of policy.now.params) ctx.now → IsTrue result → Strong policy.now ctx.now trace.now query.now }
{
    matched_is_strong();
    is_match_of(template.problem(), policy, ctx, trace, query, found)
}

/// The same of a template's problem.
fn is_match_of(
    problem: &Problem,
    policy: &Shared<Policy>,
    ctx: &Context,
    trace: &Trace,
    query: &Query,
    found: &Match,
) -> bool
    ensures { IsTrue result ↔ IsMatch problem.now policy.now ctx.now trace.now query.now found.now }
{
    let values = found.values.as_slice();
    let entries = problem.entries.as_slice();
    are_of_kinds(problem.vars.as_slice(), values)
        && query_becomes(values, &problem.goal, query)
        && all_hold(ctx, values, problem.assumed.as_slice())
        && stand_at(ctx, values, trace, entries, found.places.as_slice())
        && problem.policy.same(policy)
}

/// Whether each entry stands at its place of the trace.
fn stand_at(
    ctx: &Context,
    values: &[Value],
    trace: &Trace,
    entries: &[ProblemEntry],
    places: &[(u64, u64)],
) -> bool
    ensures { IsTrue result ↔ AllZip (StandsAt (with_values ctx.now values.now) trace.now) entries.now places.now }
{
    match (entries.split_first(), places.split_first()) {
        (None, None) => true,
        (Some((entry, entries)), Some((place, places))) => {
            stands_at(ctx, values, trace, entry, *place)
                && stand_at(ctx, values, trace, entries, places)
        }
        _ => false,
    }
}

fn stands_at(
    ctx: &Context,
    values: &[Value],
    trace: &Trace,
    entry: &ProblemEntry,
    place: (u64, u64),
) -> bool
    ensures { IsTrue result ↔ StandsAt (with_values ctx.now values.now) trace.now entry.now place }
{
    place.0 < trace.len() && stands_in(ctx, values, entry, trace.entry(place.0), place.1)
}

/// Whether the entry's query is the one that was told, and its row that of the number.
fn stands_in(
    ctx: &Context,
    values: &[Value],
    entry: &ProblemEntry,
    told: &TraceEntry,
    n: u64,
) -> bool
    ensures { IsTrue result ↔ StandsIn (with_values ctx.now values.now) entry.now told.now n }
{
    let Some(row) = told.rows.find(n as usize) else {
        return false;
    };
    if !row_becomes(ctx, values, entry.row.as_slice(), row.as_slice()) {
        return false;
    }
    query_becomes(values, &entry.query, &told.query)
}

/// Whether the operands are these values in the context.
fn row_becomes(ctx: &Context, values: &[Value], patterns: &[Operand], row: &[Value]) -> bool
    ensures { IsTrue result ↔ AllZip (GivesSome (fixed_value (with_values ctx.now values.now))) patterns.now row.now }
{
    match (patterns.split_first(), row.split_first()) {
        (None, None) => true,
        (Some((pattern, patterns)), Some((other, row))) => {
            is_value(ctx, values, pattern, other) && row_becomes(ctx, values, patterns, row)
        }
        _ => false,
    }
}

fn is_value(ctx: &Context, values: &[Value], pattern: &Operand, other: &Value) -> bool
    ensures { IsTrue result ↔ GivesSome (fixed_value (with_values ctx.now values.now)) pattern.now other.now }
{
    match value(ctx, values, pattern) {
        Some(it) => it.same(other),
        None => false,
    }
}

/// Whether with these values the one query is the other.
fn query_becomes(values: &[Value], pattern: &Query, query: &Query) -> bool
    ensures { IsTrue result ↔ (query_at values.now pattern.now ≡ query.now) }
{
    parts_become(values, pattern.parts.as_slice(), query.parts.as_slice())
}

fn parts_become(values: &[Value], patterns: &[Part], parts: &[Part]) -> bool
    ensures { IsTrue result ↔ AllZip (Gives (part_at values.now)) patterns.now parts.now }
{
    match (patterns.split_first(), parts.split_first()) {
        (None, None) => true,
        (Some((pattern, patterns)), Some((part, parts))) => {
            part_becomes(values, pattern, part) && parts_become(values, patterns, parts)
        }
        _ => false,
    }
}

fn part_becomes(values: &[Value], pattern: &Part, part: &Part) -> bool
    ensures { IsTrue result ↔ Gives (part_at values.now) pattern.now part.now }
{
    if !pattern.from.same(&part.from) {
        return false;
    }
    if !atoms_become(values, pattern.conds.as_slice(), part.conds.as_slice()) {
        return false;
    }
    operands_become(values, pattern.head.as_slice(), part.head.as_slice())
}

fn atoms_become(values: &[Value], patterns: &[Atom], atoms: &[Atom]) -> bool
    ensures { IsTrue result ↔ AllZip (Gives (atom_at values.now)) patterns.now atoms.now }
{
    match (patterns.split_first(), atoms.split_first()) {
        (None, None) => true,
        (Some((pattern, patterns)), Some((atom, atoms))) => {
            atom_becomes(values, pattern, atom) && atoms_become(values, patterns, atoms)
        }
        _ => false,
    }
}

fn atom_becomes(values: &[Value], pattern: &Atom, atom: &Atom) -> bool
    ensures { IsTrue result ↔ Gives (atom_at values.now) pattern.now atom.now }
{
    pattern.op.same(&atom.op)
        && becomes(values, &pattern.left, &atom.left)
        && becomes(values, &pattern.right, &atom.right)
}

fn operands_become(values: &[Value], patterns: &[Operand], operands: &[Operand]) -> bool
    ensures { IsTrue result ↔ AllZip (Gives (operand_at values.now)) patterns.now operands.now }
{
    match (patterns.split_first(), operands.split_first()) {
        (None, None) => true,
        (Some((pattern, patterns)), Some((operand, operands))) => {
            becomes(values, pattern, operand) && operands_become(values, patterns, operands)
        }
        _ => false,
    }
}

fn becomes(values: &[Value], pattern: &Operand, operand: &Operand) -> bool
    ensures { IsTrue result ↔ Gives (operand_at values.now) pattern.now operand.now }
{
    match pattern {
        Operand::Var(n) => variable_becomes(values, *n, operand),
        _ => pattern.same(operand),
    }
}

fn variable_becomes(values: &[Value], n: u32, operand: &Operand) -> bool
    ensures { IsTrue result ↔ (variable_at n (slice_get values.now n) ≡ operand.now) }
{
    match (values.get(n as usize), operand) {
        (Some(it), Operand::Val(other)) => it.same(other),
        (None, Operand::Var(m)) => n == *m,
        _ => false,
    }
}
