//! Requests, as their printed lines tell of them.

use ba_comply::Trace;
use ba_model::{Context, Shared};
use ba_tables::Tables;

/// Who asks, and what was told so far.
#[derive(Drop)]
pub struct Asker {
    /// The values of the policy's parameters.
    pub context: Context,
    /// The version over which the request began.
    pub version: u64,
    /// The tables of this version.
    pub tables: Shared<Tables>,
    /// The answered questions, with the rows that were printed.
    pub trace: Trace,
}

/// What is known of a request behind its begin line.
#[derive(Drop)]
pub enum Begun {
    /// It found no memory.
    Silent,
    Asking(Asker),
}
