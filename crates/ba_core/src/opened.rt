//! What is kept of requests and answers.

use ba_comply::Trace;
use ba_model::{Context, List, Query, Row, Shared};

/// An open request.
#[derive(Debug, Drop)]
pub struct Opened {
    /// Who asks.
    pub context: Context,
    /// The number of the tables that it sees, whatever is published later.
    pub version: u32,
    /// What it was told so far.
    pub trace: Trace,
}

/// An answer that was given.
#[derive(Debug, Drop)]
pub struct Answered {
    /// The number of the request that asked.
    pub request: u32,
    pub query: Shared<Query>,
    pub rows: Shared<List<Row>>,
}
