//! The schema and the policy of most cases.

use ba_model::{Kind, Policy, Schema, Shared};
use ba_policy::read_policy;
use ba_sql_ddl::read_schema;
use std::alloc::{AllocError, Global};

/// Users, events and who attends which event when, and a table whose names stand in quotes.
const SCHEMA: &str = r#"CREATE TABLE Users (UId INT PRIMARY KEY, Name TEXT NOT NULL);
CREATE TABLE Events (EId INT PRIMARY KEY, Title TEXT NOT NULL, Duration INT NOT NULL);
CREATE TABLE Attendances (UId INT NOT NULL REFERENCES Users (UId),
  EId INT NOT NULL REFERENCES Events (EId), At INT NOT NULL, PRIMARY KEY (UId, EId));
CREATE TABLE "order" ("group" INT NOT NULL, "at -- all" INT NOT NULL);"#;

const POLICY: &str = "PARAM MyUId INT;
PARAM MyName TEXT;
CREATE VIEW V1 AS SELECT UId, Name FROM Users;
CREATE VIEW V2 AS SELECT UId, EId, At FROM Attendances WHERE UId = ?MyUId;
CREATE VIEW V3 AS SELECT e.EId, e.Title, e.Duration FROM Events e
  JOIN Attendances a ON a.EId = e.EId WHERE a.UId = ?MyUId OR At IN (1, 2);";

pub(super) fn schema_of(alloc: Global, text: &str) -> Result<Shared<Schema>, AllocError> {
    match read_schema(alloc, text.as_bytes()) {
        Ok(schema) => Shared::new(alloc, schema),
        Err(_) => Err(AllocError),
    }
}

pub(super) fn policy_of(alloc: Global, schema: &str, text: &str) -> Result<Policy, AllocError> {
    let schema = schema_of(alloc, schema)?;
    match read_policy(alloc, &schema, text.as_bytes()) {
        Ok(policy) => Ok(policy),
        Err(_) => Err(AllocError),
    }
}

pub(super) fn schema(alloc: Global) -> Result<Shared<Schema>, AllocError> {
    schema_of(alloc, SCHEMA)
}

pub(super) fn policy(alloc: Global) -> Result<Policy, AllocError> {
    policy_of(alloc, SCHEMA, POLICY)
}

pub(super) fn kind_word(kind: Kind) -> &'static str {
    match kind {
        Kind::Int => " Int",
        Kind::Text => " Text",
    }
}
