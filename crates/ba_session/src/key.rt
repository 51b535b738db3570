//! Reads of cache keys.
ghost use Rattle.std.specs.Prelude.{◌≡◌, ◌*◌, ◌≤◌, All, List as Sequence, length};
ghost use Rattle.ba_kernel.specs.Asked.{QuestionFits};
ghost use Rattle.ba_keys.specs.Literals.{key_queries};
ghost use Rattle.ba_model.specs.Fit.{ContextFits, KeyFits, kinds_of};
ghost use Rattle.ba_model.specs.Limits.{most_budget};
ghost use Rattle.ba_session.specs.Asking.{IsRequestOf, IsServable, effort_in};
ghost use Rattle.ba_session.specs.Deciding.{IsReadRightly};
ghost use Rattle.ba_session.specs.KeyReads.{KeyReads, LetsThrough, MakesAll};
ghost use Rattle.ba_session.specs.Passing.{AreOf, HasRoom, ShelfCalls};

use crate::reply::{Judgement, KeyReply};
use crate::request::Request;
use crate::service::{Passes, Service};
use ba_comply::laws::answer_everywhere;
use ba_kernel::laws::answers_are_records;
use ba_keys::key_queries;
use ba_model::{CacheKey, Context, List, Query, Shared};
use ba_settle::Settle;
use std::alloc::Global;
use std::sync::Wait;

impl Request {
    /// Whether the request may read what the application's cache holds under the key, for these
    /// values of its arguments.
    ///
    /// The key's queries, with the arguments as literals, are judged in order, each as the request
    /// stands and as by [`Request::judge`]; the first that isn't allowed ends it. The read is let
    /// through where each is allowed, and blocked with the evidence of the first that isn't. No rows
    /// are told, and the request stays as it is. Each of the queries has in every database that the
    /// user can't tell from the request's tables the answer that it has there, so the read tells
    /// nothing more where the cached value is computed from those answers alone.
    ///
    /// Want of memory is a reply of its own, and comes before any call, between two judgements, or
    /// in one as `judge` says. It waits for its turns on the shelf of each query's shard, for at
    /// most a look and an admit of each query.
    ///
    /// The key is one of the service's policy, with a value of its kind for each argument, and the
    /// budget is at most [`ba_model::MAX_BUDGET`] steps. The request stands as `begin`, `ask` and
    /// `read` leave it, for a service of the same policy.
    pub fn read<R: Wait, S: Settle>(
        &mut self,
        rt: &R,
        alloc: Global,
        service: &Service,
        passes: &mut Passes,
        settle: &S,
        budget: u32,
        key: &CacheKey,
        arguments: &Context,
    ) -> KeyReply
        requires policy { IsServable service.now.policy }
        requires asker { IsRequestOf service.now.policy self.old }
        requires limit { budget ≤ most_budget }
        requires key { KeyFits service.now.policy key.now }
        requires arguments { ContextFits (kinds_of key.now.arguments) arguments.now }
        requires of { AreOf service.now passes.old }
        requires room { HasRoom (2 * length key.now.queries) passes.old }
        ensures of { AreOf service.now passes.new }
        ensures reads { (made : Sequence ShelfCalls) × KeyReads service.now.policy self.old
            (effort_in (S.orders settle.now) budget)
            (key_queries service.now.policy key.now arguments.now) made result
            × MakesAll made passes.old passes.new }
        ensures through { LetsThrough service.now.policy self.old result }
        // Where equations alone are used, a read is let through exactly where each of its queries is
        // strongly compliant after the trace, unless the budget is spent or memory runs out.
        ensures right { IsReadRightly service.now.policy self.old
            (key_queries service.now.policy key.now arguments.now) result }
        ensures request { self.new ≡ self.old }
    {
        answers_are_records();
        answer_everywhere();
        match key_queries(alloc, &service.policy, key, arguments) {
            Ok(queries) => self.read_all(rt, alloc, service, passes, settle, budget, queries),
            Err(_) => KeyReply::NoMemory,
        }
    }

    /// The reply for these queries, each judged as the request stands.
    fn read_all<R: Wait, S: Settle>(
        &self,
        rt: &R,
        alloc: Global,
        service: &Service,
        passes: &mut Passes,
        settle: &S,
        budget: u32,
        queries: List<Shared<Query>>,
    ) -> KeyReply
        requires fit { All
            (QuestionFits service.now.policy self.now.context self.now.trace) queries }
        requires limit { budget ≤ most_budget }
        requires of { AreOf service.now passes.old }
        requires room { HasRoom (2 * length queries) passes.old }
        ensures of { AreOf service.now passes.new }
        ensures reads { (made : Sequence ShelfCalls) × KeyReads service.now.policy self.now
            (effort_in (S.orders settle.now) budget) queries made result
            × MakesAll made passes.old passes.new }
    {
        let mut before = List::new(alloc);
        for i in 0..queries.len() {
            let query = queries.get(i);
            let judgement = self.judge(rt, alloc, service, passes, settle, budget, query);
            match judgement {
                Judgement::Allowed(by) => {
                    if before.push(by).is_err() {
                        return KeyReply::NoMemory;
                    }
                }
                Judgement::Blocked(why) => {
                    return KeyReply::Blocked {
                        queries,
                        before,
                        why,
                    };
                }
                Judgement::NoMemory => return KeyReply::NoMemory,
            }
        }
        KeyReply::Allowed {
            queries,
            by: before,
        }
    }
}
