//! What becomes of a question.

use ba_cache::Admit;
use ba_direct::Cover;
use ba_kernel::Step;
use ba_model::{List, Query, Row, Shared};
use ba_refute::{Clause, Counterexample};
use ba_settle::Leaf;
use ba_sql_query::ReadQueryFault;
use ba_template::{Match, Template};

/// What became of the template of a proof.
#[derive(Clone, Copy, Debug, Drop, PartialEq, Eq)]
pub enum Keeping {
    /// The shelf of the question's shard answered so.
    Stored(Admit),
    /// The proof is too wide for a template.
    Wide,
    /// There was no memory to make it or to keep it.
    NoMemory,
}

/// Why a question is answered: the evidence.
#[derive(Drop)]
pub enum By {
    /// Views cover the question: one for each part, with a pairing of the tables.
    Cover(Cover),
    /// No views cover it, and of the templates that the shelf of its shard gave for its shape this
    /// one, with its number there, is the first that matches: this is its first match. The template
    /// is held in common with the shelf, which may drop it later.
    Template {
        shard: u32,
        id: u32,
        template: Shared<Template>,
        found: Match,
    },
    /// No views cover it, none of the templates that were given matches, and these are the due
    /// steps, at most as many as the budget, that leave no branch of its problem open.
    Proof(List<Step>, Keeping),
}

/// Why a question is blocked, which no views cover and no template that was given matches: the
/// evidence.
#[derive(Drop)]
pub enum Why {
    /// The due steps end at a saturated branch, and its image is this: two databases and a row that
    /// show that the question isn't strongly compliant after the request's trace.
    Refuted(Counterexample),
    /// As many due steps as the budget has. They leave an open branch, and each open branch has a
    /// new step.
    Spent(List<Step>),
    /// The due steps that end at a saturated branch, and the first clause that its image doesn't
    /// meet. Whether the question is strongly compliant isn't known.
    Stuck(Leaf, Clause),
}

/// Whether a query may be answered, with the evidence.
#[derive(Drop)]
pub enum Judgement {
    /// It is strongly compliant after the request's trace.
    Allowed(By),
    Blocked(Why),
    /// Want of memory, before the look at the query's shape or after it.
    NoMemory,
}

/// What becomes of a question.
#[derive(Drop)]
pub enum Reply {
    /// The question's query and its rows, strictly rising. They join the request's trace, in common
    /// with the reply.
    Answer {
        query: Shared<Query>,
        rows: Shared<List<Row>>,
        by: By,
    },
    /// The question's query, which isn't answered. The request is as before.
    Blocked {
        query: Shared<Query>,
        why: Why,
    },
    /// The text reads as no query: its first fault. The request is as before.
    Unread(ReadQueryFault),
    /// Want of memory. It may stand in place of any other reply, and the request is as before.
    NoMemory,
}

/// What becomes of a read of a cache key. In each case the request is as before, since no rows are
/// told.
#[derive(Drop)]
pub enum KeyReply {
    /// The key's queries, with the arguments as literals, and for each why it would be answered.
    Allowed {
        queries: List<Shared<Query>>,
        by: List<By>,
    },
    /// The key's queries, with the arguments as literals; for the first of them why they would be
    /// answered; and why the next one, whose number is that of these grounds, is blocked.
    Blocked {
        queries: List<Shared<Query>>,
        before: List<By>,
        why: Why,
    },
    /// Want of memory. It may stand in place of both.
    NoMemory,
}
