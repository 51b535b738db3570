//! What is asked: a schema, a policy, a context and queries. The parameter N is 5.

use super::Handle;
use ba_model::{Context, List, Policy, Query, Row, Schema, Shared, Str, Value};
use ba_policy::read_policy;
use ba_sql_ddl::read_schema;
use ba_sql_query::read_query;
use std::alloc::{AllocError, Global};

const SCHEMA: &str = "CREATE TABLE Users (UId INT PRIMARY KEY, Name TEXT NOT NULL);
CREATE TABLE Attendances (UId INT NOT NULL, EId INT NOT NULL, PRIMARY KEY (UId, EId));
CREATE TABLE T (Hidden INT NOT NULL, Shown INT NOT NULL);
CREATE TABLE U (Hidden INT NOT NULL, Shown INT NOT NULL);";

fn schema(rt: &impl Handle) -> Shared<Schema> {
    let schema = read_schema(rt.alloc(), SCHEMA.as_bytes()).expect(rt, "a schema");
    Shared::new(rt.alloc(), schema).expect(rt, "memory")
}

/// A policy of the parameter N and a view.
pub fn policy(rt: &impl Handle) -> Policy {
    let text = b"PARAM N INT; CREATE VIEW V AS SELECT UId FROM Users;";
    read_policy(rt.alloc(), &schema(rt), text).expect(rt, "a policy")
}

pub fn query(rt: &impl Handle, policy: &Policy, text: &str) -> Query {
    let query = read_query(rt.alloc(), &policy.schema, &policy.params, text);
    query.expect(rt, "a query")
}

/// What stands between bars, from 0 on.
pub fn field(line: &str, n: usize) -> &str {
    line.split('|').nth(n).unwrap_or("").trim()
}

pub fn context(rt: &impl Handle) -> Context {
    Context {
        values: one(rt, Value::Int(5)),
    }
}

pub fn one<T: Drop>(rt: &impl Handle, item: T) -> List<T> {
    let mut list = List::new(rt.alloc());
    list.push(item).expect(rt, "memory");
    list
}

fn text(alloc: Global, text: &str) -> Result<Value, AllocError> {
    let text = Str::new(alloc, text)?;
    Value::text(alloc, text)
}

/// `NULL`, a whole number, or a text.
fn value(rt: &impl Handle, word: &str) -> Value {
    if word == "NULL" {
        return Value::Null;
    }
    match word.parse::<i64>() {
        Ok(n) => Value::Int(n),
        Err(_) => text(rt.alloc(), word).expect(rt, "memory"),
    }
}

fn row(rt: &impl Handle, words: &str) -> Row {
    let mut row = List::new(rt.alloc());
    for word in words.split_whitespace() {
        row.push(value(rt, word)).expect(rt, "memory");
    }
    row
}

/// Rows, each of which ends with a semicolon.
pub fn rows(rt: &impl Handle, text: &str) -> List<Row> {
    let mut rows = List::new(rt.alloc());
    for words in text.split_terminator(';') {
        rows.push(row(rt, words)).expect(rt, "memory");
    }
    rows
}
