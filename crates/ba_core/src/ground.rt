//! Whether a ground is one for a question.
ghost use Rattle.std.specs.Prelude.{◌≡◌, ◌↔◌, All, IfOk, IsTrue};
ghost use Rattle.std.specs.List.{AllZip};
ghost use Rattle.ba_comply.specs.Comply.{Strong};
ghost use Rattle.ba_core.specs.Grounds.{Supports};
ghost use Rattle.ba_core.specs.Steps.{Fits, HasTemplate, IsServed};
ghost use Rattle.ba_direct.specs.Cover.{Covered};
ghost use Rattle.ba_kernel.specs.Problems.{problem_of};
ghost use Rattle.ba_model.specs.Fit.{ContextFits, PolicyFits, kinds_of};

use crate::event::Ground;
use crate::opened::Opened;
use ba_direct::laws::{cover_covers, covered_is_strong};
use ba_direct::{cover, is_cover};
use ba_kernel::laws::problem_is_question;
use ba_kernel::{Problem, ProblemEntry, Proved};
use ba_match::is_match;
use ba_model::{Policy, Query, Same, Shared};
use ba_template::{Match, Template};
use std::alloc::{AllocError, Global};

/// Whether the ground is one for the request's query. If it is, and isn't a refusal, the query is strongly compliant.
pub(crate) fn fits(
    alloc: Global,
    policy: &Shared<Policy>,
    templates: &[Shared<Template>],
    asker: &Opened,
    query: &Shared<Query>,
    why: &Ground,
) -> Result<bool, AllocError>
    requires policy { PolicyFits policy.now }
    requires context { ContextFits (kinds_of policy.now.params) asker.now.context }
    ensures exact { IfOk result (λ fit.
        IsTrue fit ↔ Fits policy.now templates.now asker.now query.now why.now) }
    ensures strong { IfOk result (λ fit.
        IsTrue fit → Supports policy.now asker.now query.now why.now) }
{
    match why {
        Ground::Cover(found) => {
            cover_covers();
            covered_is_strong();
            Ok(is_cover(policy, &asker.context, query, found))
        }
        Ground::Template(n, found) => Ok(serves(policy, templates, asker, query, *n, found)),
        Ground::Proof(proved) => {
            let fit = proves(alloc, policy, asker, query, proved)?;
            Ok(fit)
        }
        Ground::Refuse => {
            let fit = is_uncovered(alloc, policy, asker, query)?;
            Ok(fit)
        }
    }
}

/// Whether the ground names a template that is there, if it names one.
pub(crate) fn has_template(templates: &[Shared<Template>], why: &Ground) -> bool
    ensures { IsTrue result ↔ HasTemplate templates.now why.now }
{
    match why {
        Ground::Template(n, _) => (*n as usize) < templates.len(),
        Ground::Cover(_) | Ground::Proof(_) | Ground::Refuse => true,
    }
}

/// Whether the templates that the grounds name are there.
pub(crate) fn have_templates(templates: &[Shared<Template>], grounds: &[Ground]) -> bool
    ensures { IsTrue result ↔ All (HasTemplate templates.now) grounds.now }
{
    for why in grounds {
        if !has_template(templates, why) {
            return false;
        }
    }
    true
}

/// Whether there is a ground for each of the request's queries, in order. If there is, each query
/// whose ground isn't a refusal is strongly compliant.
pub(crate) fn all_fit(
    alloc: Global,
    policy: &Shared<Policy>,
    templates: &[Shared<Template>],
    asker: &Opened,
    queries: &[Shared<Query>],
    grounds: &[Ground],
) -> Result<bool, AllocError>
    requires policy { PolicyFits policy.now }
    requires context { ContextFits (kinds_of policy.now.params) asker.now.context }
    ensures exact { IfOk result (λ fit. IsTrue fit
        ↔ AllZip (Fits policy.now templates.now asker.now) queries.now grounds.now) }
    ensures strong { IfOk result (λ fit. IsTrue fit
        → AllZip (Supports policy.now asker.now) queries.now grounds.now) }
{
    if queries.len() != grounds.len() {
        return Ok(false);
    }
    for i in 0..queries.len() {
        let fit = fits(alloc, policy, templates, asker, &queries[i], &grounds[i])?;
        if !fit {
            return Ok(false);
        }
    }
    Ok(true)
}

/// Whether the template of the number is there and has this match with the question. If so, the query is strongly compliant.
fn serves(
    policy: &Shared<Policy>,
    templates: &[Shared<Template>],
    asker: &Opened,
    query: &Query,
    n: u32,
    found: &Match,
) -> bool
    requires { ContextFits (kinds_of policy.now.params) asker.now.context }
    ensures exact { IsTrue result ↔ IsServed policy.now templates.now asker.now query.now n found.now }
    ensures strong { IsTrue result → Strong policy.now asker.now.context asker.now.trace query.now }
{
    match templates.get(n as usize) {
        Some(template) => is_match(template, policy, &asker.context, &asker.trace, query, found),
        None => false,
    }
}

/// Whether no views cover the query.
fn is_uncovered(
    alloc: Global,
    policy: &Policy,
    asker: &Opened,
    query: &Query,
) -> Result<bool, AllocError>
    ensures { IfOk result (λ it.
        IsTrue it ↔ (Covered policy.now asker.now.context query.now → ⊥)) }
{
    cover_covers();
    let found = cover(alloc, policy, &asker.context, query)?;
    match found {
        Some(_) => Ok(false),
        None => Ok(true),
    }
}

/// Whether the proof is of the problem of just this question. If it is, the query is strongly compliant.
fn proves(
    alloc: Global,
    policy: &Shared<Policy>,
    asker: &Opened,
    query: &Shared<Query>,
    proved: &Proved,
) -> Result<bool, AllocError>
    requires { ContextFits (kinds_of policy.now.params) asker.now.context }
    ensures exact { IfOk result (λ it. IsTrue it ↔ (proved.now.problem
        ≡ problem_of policy.now asker.now.context asker.now.trace query.now)) }
    ensures strong { IfOk result (λ it.
        IsTrue it → Strong policy.now asker.now.context asker.now.trace query.now) }
{
    problem_is_question();
    let question = Problem::of(alloc, policy, &asker.context, &asker.trace, query)?;
    Ok(same_problem(proved.problem(), &question))
}

fn same_problem(one: &Problem, other: &Problem) -> bool
    ensures { IsTrue result ↔ (one.now ≡ other.now) }
{
    one.policy.same(&other.policy)
        && one.vars.same(&other.vars)
        && one.assumed.same(&other.assumed)
        && same_entries(one.entries.as_slice(), other.entries.as_slice())
        && one.goal.same(&other.goal)
}

fn same_entries(one: &[ProblemEntry], other: &[ProblemEntry]) -> bool
    ensures { IsTrue result ↔ (one.now ≡ other.now) }
{
    if one.len() != other.len() {
        return false;
    }
    for i in 0..one.len() {
        if !same_entry(&one[i], &other[i]) {
            return false;
        }
    }
    true
}

fn same_entry(one: &ProblemEntry, other: &ProblemEntry) -> bool
    ensures { IsTrue result ↔ (one.now ≡ other.now) }
{
    one.query.same(&other.query) && one.row.same(&other.row)
}
