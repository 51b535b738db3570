//! Policies and request contexts.

use crate::list::List;
use crate::query::Query;
use crate::schema::{Kind, Schema};
use crate::shared::Shared;
use crate::text::Str;
use crate::value::Value;

/// A parameter of a policy, written `?name` in its views.
#[derive(Debug, Drop)]
pub struct Parameter {
    pub name: Str,
    pub kind: Kind,
}

#[derive(Debug, Drop)]
pub struct View {
    pub name: Str,
    pub query: Query,
}

/// A key of the application's own cache, with its arguments and the queries whose answers lie behind it. The queries may name the
/// policy's parameters, and behind them the arguments.
#[derive(Debug, Drop)]
pub struct CacheKey {
    pub name: Str,
    pub arguments: List<Parameter>,
    pub queries: List<Query>,
}

/// What a user may see: the rows of the views, under the values of the parameters. The schema is held in common with table sets.
#[derive(Debug, Drop)]
pub struct Policy {
    pub schema: Shared<Schema>,
    pub params: List<Parameter>,
    pub views: List<View>,
    pub keys: List<CacheKey>,
}

/// A request's value for each parameter of the policy.
#[derive(Debug, Drop)]
pub struct Context {
    pub values: List<Value>,
}
