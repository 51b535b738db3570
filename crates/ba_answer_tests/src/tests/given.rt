//! Users, events and who attends which. A user may see all names, the own attendances, and the events that the user attends.
ghost use Rattle.std.specs.Prelude.{◌≡◌, []};
ghost use Rattle.ba_model.specs.Fit.{ContextFits, IsQuery, PolicyFits, kinds_of};
ghost use Rattle.ba_model.specs.RuleFaults.{AreRules};
ghost use Rattle.ba_model.specs.SchemaFaults.{AreTables};

use super::Handle;
use ba_core::Core;
use ba_model::{
    Context, Duplicate, Failure, Kind, List, Policy, Query, Row, RowSet, Same, Schema, Shared,
    Value,
};
use ba_policy::read_policy;
use ba_sql_ddl::read_schema;
use ba_sql_query::read_query;
use ba_tables::{Tables, TablesFault, read_table};
use std::alloc::Global;

const SCHEMA: &str = "CREATE TABLE Users (UId INT PRIMARY KEY, Name TEXT NOT NULL);
CREATE TABLE Events (EId INT PRIMARY KEY, Title TEXT NOT NULL, Duration INT NOT NULL);
CREATE TABLE Attendances (UId INT NOT NULL REFERENCES Users (UId),
  EId INT NOT NULL REFERENCES Events (EId), At INT NOT NULL, PRIMARY KEY (UId, EId));";

const POLICY: &str = "PARAM MyUId INT;
CREATE VIEW V1 AS SELECT UId, Name FROM Users;
CREATE VIEW V2 AS SELECT UId, EId, At FROM Attendances WHERE UId = ?MyUId;
CREATE VIEW V3 AS SELECT e.EId, e.Title, e.Duration FROM Events e
  JOIN Attendances a ON a.EId = e.EId WHERE a.UId = ?MyUId;";

/// Two users.
pub const USERS: &str = "1,ann 2,bob";

pub fn policy(rt: &impl Handle) -> Shared<Policy>
    ensures fits { PolicyFits result }
    ensures tables { AreTables result.schema.tables }
    ensures rules { AreRules result.schema }
{
    let schema = read_schema(rt.alloc(), SCHEMA.as_bytes()).expect(rt, "a schema");
    let schema = Shared::new(rt.alloc(), schema).expect(rt, "memory");
    let policy = read_policy(rt.alloc(), &schema, POLICY.as_bytes()).expect(rt, "a policy");
    Shared::new(rt.alloc(), policy).expect(rt, "memory")
}

/// The file of a table: its header and its records, which have spaces between them.
fn file(rt: &impl Handle, header: &str, records: &str) -> String {
    let mut text = String::new(rt.alloc());
    text.push_str(header).expect(rt, "memory");
    for record in records.split_whitespace() {
        text.push_str("\n").expect(rt, "memory");
        text.push_str(record).expect(rt, "memory");
    }
    text
}

fn checked(
    alloc: Global,
    schema: &Shared<Schema>,
    users: &[u8],
    events: &[u8],
    attendances: &[u8],
) -> Result<Tables, Failure<TablesFault>> {
    if schema.tables.len() != 3 {
        return Err(Failure::NoMemory);
    }
    let Ok(first) = read_table(alloc, schema, 0, users) else {
        return Err(Failure::NoMemory);
    };
    let Ok(second) = read_table(alloc, schema, 1, events) else {
        return Err(Failure::NoMemory);
    };
    let Ok(third) = read_table(alloc, schema, 2, attendances) else {
        return Err(Failure::NoMemory);
    };
    let tables = List::from_vec(vec![in alloc; first, second, third]?);
    Tables::check(alloc, schema, RowSet { tables })
}

/// Tables with these users.
pub fn tables(rt: &impl Handle, policy: &Policy, users: &str) -> Tables
    ensures { result.schema ≡ policy.now.schema }
{
    let users = file(rt, "UId,Name", users);
    let events = file(rt, "EId,Title,Duration", "5,plan,30 6,party,60");
    let attendances = file(rt, "UId,EId,At", "2,5,100 1,6,200");
    let tables = checked(
        rt.alloc(),
        &policy.schema,
        users.as_bytes(),
        events.as_bytes(),
        attendances.as_bytes(),
    );
    let tables = tables.expect(rt, "tables");
    assert!(rt; tables.schema().same(&policy.schema), "the schema");
    tables
}

/// The context of the user of this number.
pub fn user(rt: &impl Handle, policy: &Policy, id: i64) -> Context
    ensures { ContextFits (kinds_of policy.now.params) result }
{
    let [param] = policy.params.as_slice() else {
        panic!(rt; "one parameter");
    };
    assert!(rt; param.kind == Kind::Int, "a whole number");
    let values = vec![in rt.alloc(); Value::Int(id)].expect(rt, "memory");
    Context {
        values: List::from_vec(values),
    }
}

pub fn query(rt: &impl Handle, policy: &Policy, text: &str) -> Shared<Query>
    ensures { IsQuery policy.now.schema (kinds_of policy.now.params) [] result }
{
    let query = read_query(rt.alloc(), &policy.schema, &policy.params, text);
    Shared::new(rt.alloc(), query.expect(rt, "a query")).expect(rt, "memory")
}

/// The machine with the two users, before any event.
pub fn machine(rt: &impl Handle, policy: &Shared<Policy>) -> Core
    requires { PolicyFits policy.now }
{
    let tables = tables(rt, policy, USERS);
    let policy = policy.copy(rt.alloc()).expect(rt, "memory");
    Core::new(rt.alloc(), policy, tables).expect(rt, "memory")
}

/// The rows' values.
pub fn values(rt: &impl Handle, rows: &List<Row>) -> String {
    let mut text = String::new(rt.alloc());
    for row in rows.as_slice() {
        for value in row.as_slice() {
            let word = match value {
                Value::Null => format!(in rt.alloc(); " NULL"),
                Value::Int(n) => format!(in rt.alloc(); " {n}"),
                Value::Text(word) => format!(in rt.alloc(); " {}", word.as_str()),
            };
            let word = word.expect(rt, "memory");
            text.push_str(word.as_str()).expect(rt, "memory");
        }
    }
    text
}
