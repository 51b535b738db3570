//! Requests.
ghost use Rattle.std.specs.Prelude.{◌≡◌, ◌++◌, ◌∷◌, ◌<◌, ◌≤◌, [], IfOk, List, OnErr};
ghost use Rattle.ba_cache.specs.declared.call.ShelfCall.{ShelfCall};
ghost use Rattle.ba_general.specs.Generals.{IsOfQuestion};
ghost use Rattle.ba_kernel.specs.Asked.{QuestionFits};
ghost use Rattle.ba_model.specs.Fit.{ContextFits, IsQuery, kinds_of};
ghost use Rattle.ba_model.specs.Meaning.{IsAnswer};
ghost use Rattle.ba_model.specs.Readings.{Gives};
ghost use Rattle.ba_model.specs.Limits.{most_budget};
ghost use Rattle.ba_session.specs.Asking.{IsRequestOf, IsBegun, IsServable, Reads, Replies, answer_in, begun, effort_in};
ghost use Rattle.ba_session.specs.Deciding.{IsDecidedRightly};
ghost use Rattle.ba_session.specs.Judging.{Answers, AnswersByProof, Says, refusal_of};
ghost use Rattle.ba_session.specs.Passing.{AreOf, HasRoom, LeavesShelves, Makes, ShelfCalls, on_shelf};
ghost use Rattle.ba_sql_query.specs.Texts.{query_of};
ghost use Rattle.ba_turn.specs.Passes.{MakesCall, known_by};

use crate::judge::Verdict;
use crate::keep::prove;
use crate::reply::{By, Reply};
use crate::service::{Passes, Service};
use ba_comply::laws::answer_everywhere;
use ba_comply::{Trace, TraceEntry};
use ba_eval::answer_indexed;
use ba_kernel::Proved;
use ba_kernel::laws::answers_are_records;
use ba_model::{Context, Duplicate, Failure, List, Policy, Query, Row, Shared};
use ba_settle::Settle;
use ba_sql_query::{ReadQueryFault, read_query};
use ba_tables::Tables;
use ba_versions::pin;
use std::alloc::{AllocError, Global};
use std::sync::Wait;

/// A request of a user: who asks, over which tables, and what was answered so far.
#[derive(Drop)]
pub struct Request {
    /// The values of the policy's parameters. No question changes them.
    pub context: Context,
    /// The number of the tables' version that it sees, whatever is published later.
    pub version: u32,
    /// The tables of this version.
    pub tables: Shared<Tables>,
    /// The answered questions with their rows, in the order in which they were asked.
    pub trace: Trace,
}

impl Request {
    /// A request that has asked nothing, over the last version of the tables, which it pins. It
    /// waits for its turn, and costs one call of the allowance on the versions; a pin that is
    /// refused for want of memory is told there as such, and there is no request.
    ///
    /// The context is one of the policy.
    pub fn begin<R: Wait>(
        rt: &R,
        alloc: Global,
        service: &Service,
        passes: &mut Passes,
        context: Context,
    ) -> Result<Request, AllocError>
        requires context { ContextFits (kinds_of service.now.policy.params) context }
        requires of { AreOf service.now passes.old }
        requires left { 0 < (known_by passes.old.versions).left }
        ensures of { AreOf service.now passes.new }
        ensures made { MakesCall (known_by passes.old.versions) (known_by passes.new.versions)
            (begun result) }
        ensures others { LeavesShelves passes.old passes.new }
        ensures begun { IfOk result (IsBegun context) }
        ensures asker { IfOk result (IsRequestOf service.now.policy) }
    {
        let (version, tables) = pin(rt, &service.versions, &mut passes.versions)?;
        Ok(Request {
            context,
            version,
            tables,
            trace: Trace::new(alloc),
        })
    }

    /// What becomes of a question of the request.
    ///
    /// The text's query is judged, on the same grounds as by [`Request::judge`]. Where they allow it,
    /// it is answered, and its answer joins the trace; the template of a proof is admitted for others
    /// once the answer is made. Else it is blocked, with a reason that can be checked
    /// ([`crate::Why`]). A text that is no query is told by its first fault. Want of memory is a
    /// reply of its own, and of a proof's template it is told beside the answer. Only an answer
    /// changes the trace, and nothing changes the rest of the request. It waits for its turns on the
    /// shelf of the question's shard, for at most a look and an admit.
    ///
    /// The policy and its schema are checked ones, and the budget is at most
    /// [`ba_model::MAX_BUDGET`] steps. The request stands as `begin` and `ask` leave it, for a
    /// service of the same policy.
    pub fn ask<R: Wait, S: Settle>(
        &mut self,
        rt: &R,
        alloc: Global,
        service: &Service,
        passes: &mut Passes,
        settle: &S,
        budget: u32,
        text: &str,
    ) -> Reply
        requires policy { IsServable service.now.policy }
        requires asker { IsRequestOf service.now.policy self.old }
        requires limit { budget ≤ most_budget }
        requires of { AreOf service.now passes.old }
        requires room { HasRoom 2 passes.old }
        ensures of { AreOf service.now passes.new }
        ensures replies { (made : ShelfCalls) × Replies service.now.policy self.old
            (effort_in (S.orders settle.now) budget) text.now made result
            × Makes made passes.old passes.new }
        // Where equations alone are used, a question that is answered or blocked, and not since the
        // budget is spent, is answered exactly where it is strongly compliant after the trace.
        ensures right { IsDecidedRightly service.now.policy self.old result }
        ensures request { self.new
            ≡ record self.old { trace = self.old.trace ++ answer_in result } }
        ensures asker { IsRequestOf service.now.policy self.new }
    {
        answers_are_records();
        match read(alloc, &service.policy, text) {
            Ok(query) => self.reply_to(rt, alloc, service, passes, settle, budget, query),
            Err(failure) => refusal(failure),
        }
    }

    /// What it was told.
    pub fn end(self) -> Trace
        ensures { result ≡ self.trace }
    {
        self.trace
    }

    /// The reply to the query: its answer, or a block. The template of a proof is kept only once the
    /// answer is made.
    fn reply_to<R: Wait, S: Settle>(
        &mut self,
        rt: &R,
        alloc: Global,
        service: &Service,
        passes: &mut Passes,
        settle: &S,
        budget: u32,
        query: Shared<Query>,
    ) -> Reply
        requires fits { QuestionFits service.now.policy self.old.context self.old.trace query }
        requires asker { IsRequestOf service.now.policy self.old }
        requires limit { budget ≤ most_budget }
        requires of { AreOf service.now passes.old }
        requires room { HasRoom 2 passes.old }
        ensures of { AreOf service.now passes.new }
        ensures says { (made : ShelfCalls) × Says service.now.policy self.old
            (effort_in (S.orders settle.now) budget) query made result
            × Makes made passes.old passes.new }
        ensures request { self.new
            ≡ record self.old { trace = self.old.trace ++ answer_in result } }
    {
        answer_everywhere();
        match self.weigh(rt, alloc, service, passes, settle, budget, &query) {
            Ok(Verdict::Ground(by)) => self.answer(alloc, query, by),
            Ok(Verdict::Prove(proved)) => {
                self.answer_by_proof(rt, alloc, service, passes, query, proved)
            }
            Ok(Verdict::Deny(why)) => Reply::Blocked { query, why },
            Err(_) => Reply::NoMemory,
        }
    }

    /// The query's answer by this proof, whose template is then made and admitted.
    fn answer_by_proof<R: Wait>(
        &mut self,
        rt: &R,
        alloc: Global,
        service: &Service,
        passes: &mut Passes,
        query: Shared<Query>,
        proved: Proved,
    ) -> Reply
        requires question { IsOfQuestion proved.problem }
        requires goal { proved.problem.goal ≡ query }
        requires of { AreOf service.now passes.old }
        requires room { HasRoom 1 passes.old }
        ensures of { AreOf service.now passes.new }
        ensures answers { (calls : List ShelfCall) × AnswersByProof self.old query proved calls
            result × Makes (on_shelf query calls) passes.old passes.new }
        ensures request { self.new
            ≡ record self.old { trace = self.old.trace ++ answer_in result } }
    {
        match self.record(alloc, &query) {
            Ok(rows) => {
                let by = prove(rt, alloc, service, passes, proved);
                Reply::Answer { query, rows, by }
            }
            Err(_) => Reply::NoMemory,
        }
    }

    /// The query's answer for this reason.
    fn answer(&mut self, alloc: Global, query: Shared<Query>, by: By) -> Reply
        ensures answers { Answers self.old query by result }
        ensures request { self.new
            ≡ record self.old { trace = self.old.trace ++ answer_in result } }
    {
        match self.record(alloc, &query) {
            Ok(rows) => Reply::Answer { query, rows, by },
            Err(_) => Reply::NoMemory,
        }
    }

    /// The query's rows, which join the trace, in common with it. After an error, which is want of
    /// memory, the request is as before.
    fn record(
        &mut self,
        alloc: Global,
        query: &Shared<Query>,
    ) -> Result<Shared<List<Row>>, AllocError>
        ensures answer { IfOk result (IsAnswer query.now self.old.context self.old.tables.rows) }
        ensures ok { IfOk result (λ rows. self.new ≡ record self.old
            { trace = self.old.trace ++ record { query = query.now; rows = rows } ∷ [] }) }
        ensures err { OnErr result (self.new ≡ self.old) }
    {
        let found = answer_indexed(alloc, self.tables.indexed(), &self.context, query)?;
        let rows = Shared::new(alloc, found)?;
        let entry = entry_of(alloc, query, &rows)?;
        self.trace.push(entry)?;
        Ok(rows)
    }
}

fn entry_of(
    alloc: Global,
    query: &Shared<Query>,
    rows: &Shared<List<Row>>,
) -> Result<TraceEntry, AllocError>
    ensures { IfOk result (λ it. it ≡ record { query = query.now; rows = rows.now }) }
{
    let query = query.copy(alloc)?;
    let rows = rows.copy(alloc)?;
    Ok(TraceEntry { query, rows })
}

/// The reply to a text that wasn't read.
fn refusal(failure: Failure<ReadQueryFault>) -> Reply
    ensures { result ≡ refusal_of failure }
{
    match failure {
        Failure::Fault(fault) => Reply::Unread(fault),
        Failure::NoMemory => Reply::NoMemory,
    }
}

/// The text's query.
fn read(
    alloc: Global,
    policy: &Policy,
    text: &str,
) -> Result<Shared<Query>, Failure<ReadQueryFault>>
    ensures exact { Gives result (query_of policy.now.schema policy.now.params text.now) }
    ensures reads { IfOk result (Reads policy.now text.now) }
    ensures query { IfOk result (IsQuery policy.now.schema (kinds_of policy.now.params) []) }
{
    let query = read_query(alloc, &policy.schema, &policy.params, text)?;
    Ok(Shared::new(alloc, query)?)
}
