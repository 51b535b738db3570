//! What a printed line says.

use ba_direct::Cover;
use ba_kernel::Step;
use ba_model::{List, Row, Str};
use ba_refute::{Clause, Counterexample};
use ba_sql_query::ReadQueryFault;
use ba_wire::Summary;

/// Why bytes are no printed line.
#[derive(Clone, Copy, Debug, PartialEq, Eq)]
pub enum LineReason {
    /// They aren't UTF-8, or no JSON value.
    Json,
    /// The JSON value isn't an object with exactly the keys of one form, each of its type.
    Shape,
}

/// What an answer is said to rest on.
#[derive(Debug, Drop)]
pub enum Evidence {
    /// `"by":"cover"`: for each part of the question a view, and for each of the view's tables its
    /// place in the part.
    Cover(Cover),
    /// `"by":"template"`: steps that close the question's problem, any number of them.
    Template(List<Step>),
    /// `"by":"proof"`: likewise.
    Proof(List<Step>),
}

/// Why a question is said to be blocked.
#[derive(Debug, Drop)]
pub enum PrintedBlock {
    /// Two databases, with the rows of each table in the schema's order, and a row.
    Refuted(Counterexample),
    /// The search took so many steps.
    Spent(u64),
    /// The clause that the image of a branch doesn't meet.
    Stuck(Clause),
}

/// One line of an output. `line` is the script's line, and `version` that of the tables; both are
/// whole numbers below 2^64. Names are any texts.
#[derive(Debug, Drop)]
pub enum PrintedLine {
    /// A request of this name begins.
    Begin {
        begin: Str,
        line: u64,
        version: u64,
    },
    /// The request of this name ends.
    End {
        end: Str,
        line: u64,
    },
    /// The table set of this name is published, as the tables' version of this number.
    Publish {
        line: u64,
        publish: Str,
        version: u64,
    },
    /// A question's answer, whose rows have any widths and kinds.
    Answer {
        evidence: Evidence,
        line: u64,
        request: Str,
        rows: List<Row>,
        version: u64,
    },
    Block {
        blocked: PrintedBlock,
        line: u64,
        request: Str,
        version: u64,
    },
    /// The request may read the cache key: what each of the key's queries is said to rest on, in
    /// order.
    Read {
        evidence: List<Evidence>,
        key: Str,
        line: u64,
        read: Str,
        version: u64,
    },
    /// The request may not read the cache key, for its query of this number, from 0.
    ReadBlock {
        blocked: PrintedBlock,
        key: Str,
        line: u64,
        query: u64,
        read: Str,
        version: u64,
    },
    /// A read that is allowed, with more or fewer names under `"by"` than proofs under `"proof"`. No
    /// key has so many queries as both, so nothing else of it is kept.
    UnevenRead,
    /// A question that has no reading.
    Unread {
        line: u64,
        request: Str,
        unread: ReadQueryFault,
        version: u64,
    },
    /// The line found no memory.
    Memory {
        line: u64,
    },
    /// The numbers of the last line.
    Summary(Summary),
}
