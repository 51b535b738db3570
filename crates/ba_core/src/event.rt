//! Events and their replies.

use ba_direct::Cover;
use ba_kernel::Proved;
use ba_model::{Context, List, Query, Row, Shared};
use ba_tables::Tables;
use ba_template::{Match, Template};

/// Why a question is to be answered, or that it isn't.
#[derive(Drop)]
pub enum Ground {
    /// Views that cover the query, part by part.
    Cover(Cover),
    /// A match of the template of this number, which was admitted.
    Template(u32, Match),
    /// A proof of the problem of the question after the request's trace.
    Proof(Proved),
    /// The question is blocked. No covered query may be.
    Refuse,
}

/// What happens to the machine.
#[derive(Drop)]
pub enum Event {
    /// Tables are published as the next version.
    Publish(Tables),
    /// A request of this number begins, under a context, on a version of the tables.
    Begin(u32, Context, u32),
    /// The request of this number asks a query, with the ground of the decision.
    Ask(u32, Shared<Query>, Ground),
    /// The request of this number reads what lies behind these queries, with the ground of the
    /// decision on each.
    Read(u32, List<Shared<Query>>, List<Ground>),
    /// A template is admitted under the next number.
    Admit(Shared<Template>),
    /// The request of this number ends. Its number may be begun again.
    End(u32),
}

/// What becomes of a question that isn't refused.
#[derive(Debug, Drop)]
pub enum Asked {
    /// The query's rows, strictly rising.
    Answer(Shared<List<Row>>),
    Blocked,
}

/// Why an event is refused. It then changes nothing.
#[derive(Clone, Copy, Debug, Drop, PartialEq, Eq)]
pub enum CoreFault {
    /// A request of this number is open.
    Taken,
    /// No request of this number is open.
    NoRequest,
    /// There is no such version.
    NoVersion,
    /// The ground names a template that wasn't admitted.
    NoTemplate,
    /// The ground isn't one for this question after this request's trace; or a read has more or
    /// fewer grounds than queries, or one that isn't one for its query.
    Unfit,
}

/// The reply to an event.
#[derive(Debug, Drop)]
pub enum CoreReply {
    /// The number of the version that was published, or of the template that was admitted.
    Number(u32),
    Begun,
    Asked(Asked),
    /// Whether the request may read: where no ground is a refusal.
    Read(bool),
    Ended,
    Refused(CoreFault),
}
