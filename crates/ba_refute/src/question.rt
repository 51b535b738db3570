//! Questions.

use ba_comply::Trace;
use ba_model::{Context, Policy, Query};

/// A query that is asked under a policy by a user, after what the user was told.
#[derive(Clone, Copy)]
pub struct Question<'a> {
    pub policy: &'a Policy,
    /// The values of the policy's parameters.
    pub context: &'a Context,
    /// The queries that were answered before, with their rows.
    pub trace: &'a Trace,
    pub query: &'a Query,
}
