//! Values, schemas, queries and policies, and what they mean over a database.
#![tactic(auto)]

mod check_query;
mod check_schema;
mod equations;
mod failure;
mod holds;
pub mod laws;
mod limits;
mod list;
mod order;
mod owned;
mod policy;
mod query;
mod same;
mod schema;
mod shared;
mod text;
mod value;

pub use check_query::{
    QueryDraft, QueryFault, atom_kinds, atom_order, column_kind, heads_match, none_is_null,
    operand_kind, sides_agree,
};
pub use check_schema::{SchemaDraft, SchemaFault};
pub use failure::Failure;
pub use limits::{
    BUDGET, Counted, MAX_ALIKE, MAX_ASKS, MAX_ATOMS, MAX_BUDGET, MAX_CACHE_KEYS, MAX_COLUMNS,
    MAX_FILE_BYTES, MAX_HEAD, MAX_KEPT_ENTRIES, MAX_KEY_QUERIES, MAX_KEYS, MAX_LINES, MAX_LINKS,
    MAX_NAME_BYTES, MAX_OPERANDS, MAX_PARAMS, MAX_PART_TABLES, MAX_PARTS, MAX_QUERY_BYTES,
    MAX_REQUESTS, MAX_ROWS, MAX_RULES, MAX_SEED, MAX_SHAPES, MAX_STEPS, MAX_TABLES, MAX_TEMPLATES,
    MAX_TEXT_BYTES, MAX_VIEWS, MAX_WORKERS, MIN_BUDGET, MIN_WORKERS, SHARDS, WORKERS,
};
pub use list::List;
pub use owned::Owned;
pub use policy::{CacheKey, Context, Parameter, Policy, View};
pub use query::{Atom, Op, Operand, Part, Query};
pub use same::{Duplicate, Same};
pub use schema::{Column, Kind, Link, Rule, Schema, Table};
pub use shared::Shared;
pub use text::Str;
pub use value::{Row, RowSet, Value};
