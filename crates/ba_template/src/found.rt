//! What a match tells.

use ba_model::{List, Value};

/// How a template matches a question: a value for each variable, and for each entry the number of an
/// entry of the trace and of one of its rows.
#[derive(Debug, Drop)]
pub struct Match {
    pub values: List<Value>,
    pub places: List<(u64, u64)>,
}
