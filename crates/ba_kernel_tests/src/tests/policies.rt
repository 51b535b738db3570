//! Policies and queries that are written as short texts, and shown to be as their readers ensure.
//!
//! A part is its tables, its atoms and its head, as in `1 2 | a.0 = b.1, b.0 = p.0 | a.1`. A query is
//! parts with `union` between them. A policy is pieces with semicolons between them: `view` with a
//! query, and `rule` with two queries and `within` between them.
ghost use Rattle.std.specs.Prelude.{◌≡◌, [], All};
ghost use Rattle.ba_model.specs.Fit.{IsQuery, kinds_of};
ghost use Rattle.ba_model.specs.RuleFaults.{RuleFits};
ghost use Rattle.ba_kernel.specs.Courses.{LinksFit};
ghost use Rattle.ba_kernel.specs.Drafts.{IsChecked};

use super::words::{Handle, atoms, bar, named, numbers, operands, shared};
use ba_kernel::laws::checked_links_fit;
use ba_model::{
    Column, Kind, List, Parameter, Part, Policy, Query, QueryDraft, Rule, Schema, SchemaDraft,
    Shared, Str, Table, View,
};
use ba_sql_ddl::read_schema;

/// Users (0), events (1), who attends which event and when (2), notes (3), whose owner and words are
/// made columns that may be NULL, and who is whose boss (4).
pub const TABLES: &str = "CREATE TABLE Users (UId INT PRIMARY KEY, Name TEXT NOT NULL);
CREATE TABLE Events (EId INT PRIMARY KEY, Title TEXT NOT NULL, Duration INT NOT NULL);
CREATE TABLE Attendances (UId INT NOT NULL REFERENCES Users (UId),
  EId INT NOT NULL REFERENCES Events (EId), At INT NOT NULL, PRIMARY KEY (UId, EId));
CREATE TABLE Notes (NId INT PRIMARY KEY, Owner INT NOT NULL REFERENCES Users (UId),
  Words TEXT NOT NULL);
CREATE TABLE Staff (Id INT PRIMARY KEY, Boss INT NOT NULL REFERENCES Staff (Id));";

/// Shown are all users, when the user attends which event, and these events.
const VIEWS: &str = "view 0 | | a.0 a.1;
view 2 | a.0 = p.0 | a.0 a.1 a.2;
view 1 2 | a.0 = b.1, b.0 = p.0 | a.0 a.1 a.2 b.2";

// ---- queries

pub fn part(rt: &impl Handle, text: &str) -> Part {
    Part {
        from: numbers(rt, bar(text, 0)),
        conds: atoms(rt, bar(text, 1)),
        head: operands(rt, bar(text, 2)),
    }
}

pub fn query(rt: &impl Handle, text: &str) -> Query {
    let mut parts = List::new(rt.alloc());
    for piece in text.split("union") {
        parts.push(part(rt, piece)).expect(rt, "memory");
    }
    Query { parts }
}

/// The query, which has no variables and fits.
fn checked(rt: &impl Handle, schema: &Schema, params: &List<Parameter>, query: Query) -> Query
    ensures same { result.parts ≡ query.parts }
    ensures fits { IsQuery schema.now (kinds_of params.now) [] result }
{
    let draft = QueryDraft { parts: query.parts };
    Query::check(schema, params, &List::new(rt.alloc()), draft).expect(rt, "a query")
}

// ---- the schema

/// Columns, a letter for each, which is its name: `i` is a whole number and `t` a text, and a capital
/// letter may be NULL.
fn columns(rt: &impl Handle, letters: &str) -> List<Column> {
    let mut all = List::new(rt.alloc());
    for letter in letters.chars() {
        let name = format!(in rt.alloc(); "{letter}").expect(rt, "memory");
        let column = Column {
            name: Str::from_string(name),
            kind: if letter.eq_ignore_ascii_case(&'i') {
                Kind::Int
            } else {
                Kind::Text
            },
            nullable: letter.is_ascii_uppercase(),
        };
        all.push(column).expect(rt, "memory");
    }
    all
}

fn tables(rt: &impl Handle) -> List<Table> {
    let schema = read_schema(rt.alloc(), TABLES.as_bytes()).expect(rt, "tables");
    let mut tables = schema.tables.into_vec();
    if let Some(notes) = tables.get_mut(3) {
        notes.columns = columns(rt, "iIT");
    }
    List::from_vec(tables)
}

fn rules(rt: &impl Handle, text: &str) -> List<Rule> {
    let mut all = List::new(rt.alloc());
    for piece in text.split(';') {
        if let ("rule", text) = named(piece) {
            let (left, right) = text.split_once("within").unwrap_or((text, ""));
            let left = query(rt, left);
            let right = query(rt, right);
            all.push(Rule { left, right }).expect(rt, "memory");
        }
    }
    all
}

/// The standard tables, and the rules among a text's pieces.
fn schema(rt: &impl Handle, text: &str) -> Schema
    ensures links { LinksFit result }
    ensures rules { All (RuleFits result) result.rules }
{
    checked_links_fit();
    let draft = SchemaDraft {
        tables: tables(rt),
        rules: rules(rt, text),
    };
    Schema::check(rt.alloc(), draft).expect(rt, "a schema")
}

// ---- the policy

fn views(rt: &impl Handle, schema: &Schema, params: &List<Parameter>, text: &str) -> List<View>
    ensures { All (λ view. IsQuery schema.now (kinds_of params.now) [] view.query) result }
{
    let mut all = List::new(rt.alloc());
    for piece in text.split(';') {
        if let ("view", text) = named(piece) {
            let name = Str::from_string(String::new(rt.alloc()));
            let query = checked(rt, schema, params, query(rt, text));
            all.push(View { name, query }).expect(rt, "memory");
        }
    }
    all
}

/// The policy of the rules and views among a text's pieces, with a parameter that is a whole number. A
/// text without views has the standard ones.
pub fn policy(rt: &impl Handle, text: &str) -> Shared<Policy>
    ensures { IsChecked result }
{
    let schema = shared(rt, schema(rt, text));
    let mut params = List::new(rt.alloc());
    let name = Str::from_string(String::new(rt.alloc()));
    let kind = Kind::Int;
    params.push(Parameter { name, kind }).expect(rt, "memory");
    let text = if text.contains("view ") { text } else { VIEWS };
    let views = views(rt, &schema, &params, text);
    let keys = List::new(rt.alloc());
    let policy = Policy {
        schema,
        params,
        views,
        keys,
    };
    shared(rt, policy)
}
