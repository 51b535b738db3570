//! The search for the places of a template's entries in a trace.
ghost use Rattle.std.specs.Prelude.{◌≡◌, ◌<◌, [], ◌∷◌, IfOk, Some, length, map};
ghost use Rattle.ba_kernel.specs.Problems.{fixed_value, query_at};
ghost use Rattle.ba_match.specs.Bindings.{IsNarrowed};
ghost use Rattle.ba_match.specs.Matching.{IsFound};
ghost use Rattle.ba_match.specs.Searches.{Finds, FindsBy, IsLeft, IsNoneBefore};
ghost use Rattle.ba_template.specs.Found.{with_values};

use crate::alike::are_alike;
use crate::bindings::Bindings;
use crate::condition::{all_hold, are_of_kinds, may_hold};
use ba_comply::{Trace, TraceEntry};
use ba_kernel::{Problem, ProblemEntry};
use ba_model::{Context, List, Policy, Query, Same, Shared, Value};
use ba_template::{Match, Template};
use std::alloc::{AllocError, Global};

/// The first match of a template with a question, in the order of its places in the trace: of two
/// matches that whose place is before where they first differ. None exactly where the policies
/// differ, or no values of its variables' kinds make its goal the question, each of its entries a
/// query and a row that stand together in an entry of the trace, and its condition true. There is
/// one first match at most ([`crate::laws::first_match_is_one`]). An error is want of memory.
pub fn match_template(
    alloc: Global,
    template: &Template,
    policy: &Shared<Policy>,
    ctx: &Context,
    trace: &Trace,
    query: &Query,
) -> Result<Option<Match>, AllocError>
    ensures { IfOk result (IsFound template.now.problem policy.now ctx.now trace.now query.now) }
{
    let problem = template.problem();
    let mut bound = Bindings::free(alloc, problem.vars.len())?;
    let told = bound.bind_query(alloc, &problem.goal, query)?;
    if !told {
        return Ok(None);
    }
    if !problem.policy.same(policy) {
        return Ok(None);
    }
    let search = Search {
        problem,
        ctx,
        trace,
    };
    search.find(alloc, problem.entries.as_slice(), &bound)
}

/// A problem whose entries are to be found in a trace, in a context.
#[derive(Drop)]
struct Search<'a> {
    problem: &'a Problem,
    ctx: &'a Context,
    trace: &'a Trace,
}

impl<'a> Search<'a> {
    /// The first places of these entries, with values that extend what is fixed and meet the
    /// condition.
    #[cycle(places)]
    fn find(
        &self,
        alloc: Global,
        entries: &[ProblemEntry],
        bound: &Bindings,
    ) -> Result<Option<Match>, AllocError>
        requires { IsLeft entries.now bound.now }
        ensures { IfOk result (Finds self.now.problem.now self.now.ctx.now self.now.trace.now entries.now bound.now) }
    {
        if !may_hold(self.ctx, bound, self.problem.assumed.as_slice()) {
            return Ok(None);
        }
        let Some((entry, rest)) = entries.split_first() else {
            return self.finish(alloc, bound);
        };
        for t in 0..self.trace.len() {
            let found = self.find_by(alloc, t, entry, rest, bound)?;
            if found.is_some() {
                return Ok(found);
            }
        }
        Ok(None)
    }

    /// The first places where the first entry's is in the entry `t` of the trace.
    #[cycle(places)]
    fn find_by(
        &self,
        alloc: Global,
        t: u64,
        entry: &ProblemEntry,
        rest: &[ProblemEntry],
        bound: &Bindings,
    ) -> Result<Option<Match>, AllocError>
        requires there { t < length self.now.trace.now }
        requires left { IsLeft (entry.now ∷ rest.now) bound.now }
        requires none { IsNoneBefore self.now.problem.now self.now.ctx.now self.now.trace.now (entry.now ∷ rest.now) bound.now (t, 0) }
        ensures { IfOk result (FindsBy self.now.problem.now self.now.ctx.now self.now.trace.now (entry.now ∷ rest.now) bound.now t) }
    {
        let told = self.trace.entry(t);
        let asked = with_query(alloc, entry, told, bound)?;
        let Some(asked) = asked else {
            return Ok(None);
        };
        if !may_hold(self.ctx, &asked, self.problem.assumed.as_slice()) {
            return Ok(None);
        }
        for r in 0..told.rows.len() {
            let given = with_row(alloc, self.ctx, entry, told.rows.get(r).as_slice(), &asked)?;
            let Some(given) = given else { continue };
            let found = self.find(alloc, rest, &given)?;
            if let Some(found) = found {
                return Ok(Some(at_place(alloc, (t, r as u64), found)?));
            }
        }
        Ok(None)
    }

    /// The values that are fixed, which are all, if they are of their kinds and meet the condition.
    fn finish(&self, alloc: Global, bound: &Bindings) -> Result<Option<Match>, AllocError>
        requires { IsLeft [] bound.now }
        ensures { IfOk result (Finds self.now.problem.now self.now.ctx.now self.now.trace.now [] bound.now) }
    {
        let values = bound.values(alloc)?;
        let Some(values) = values else {
            return Ok(None);
        };
        if !are_of_kinds(self.problem.vars.as_slice(), values.as_slice()) {
            return Ok(None);
        }
        if !all_hold(self.ctx, values.as_slice(), self.problem.assumed.as_slice()) {
            return Ok(None);
        }
        Ok(Some(Match {
            values,
            places: List::new(alloc),
        }))
    }
}

/// What is fixed once the entry's query is that of the entry of the trace, if it can be. What is
/// fixed is copied only where the queries are alike.
fn with_query(
    alloc: Global,
    entry: &ProblemEntry,
    told: &TraceEntry,
    bound: &Bindings,
) -> Result<Option<Bindings>, AllocError>
    ensures { IfOk result (IsNarrowed (λ values. query_at values entry.now.query ≡ told.now.query) bound.now) }
{
    if !are_alike(bound, &entry.query, &told.query) {
        return Ok(None);
    }
    let mut new = bound.copy(alloc)?;
    let made = new.bind_query(alloc, &entry.query, &told.query)?;
    if made { Ok(Some(new)) } else { Ok(None) }
}

/// What is fixed once the entry's row is this row in the context, if it can be.
fn with_row(
    alloc: Global,
    ctx: &Context,
    entry: &ProblemEntry,
    row: &[Value],
    bound: &Bindings,
) -> Result<Option<Bindings>, AllocError>
    ensures { IfOk result (IsNarrowed (λ values. map (fixed_value (with_values ctx.now values)) entry.now.row ≡ map Some row.now) bound.now) }
{
    let mut new = bound.copy(alloc)?;
    let made = new.bind_row(alloc, ctx, entry.row.as_slice(), row)?;
    if made { Ok(Some(new)) } else { Ok(None) }
}

/// The match with one place more before the others.
fn at_place(alloc: Global, place: (u64, u64), rest: Match) -> Result<Match, AllocError>
    ensures { IfOk result (λ it. (it.values ≡ rest.values) × (it.places ≡ place ∷ rest.places)) }
{
    let mut places = List::new(alloc);
    places.push(place)?;
    for other in rest.places.into_vec() {
        places.push(other)?;
    }
    Ok(Match {
        values: rest.values,
        places,
    })
}
