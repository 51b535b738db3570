//! A question as it is asked.

use ba_comply::Trace;
use ba_model::{Context, Policy, Query, Shared};

/// A question of a policy, under a request's context and after what the request was told.
#[derive(Clone, Copy)]
pub struct Asking<'a> {
    pub policy: &'a Shared<Policy>,
    /// The values of the policy's parameters.
    pub context: &'a Context,
    /// The questions that rows were told of before, with their rows.
    pub trace: &'a Trace,
    pub query: &'a Shared<Query>,
}
