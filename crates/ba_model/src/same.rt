//! Copies that equal their originals, and the test of equal content.
ghost use Rattle.std.specs.Prelude.{◌≡◌, ℕ, ◌↔◌, IsTrue, IfOk};

use crate::list::List;
use crate::policy::{CacheKey, Context, Parameter, Policy, View};
use crate::query::{Atom, Op, Operand, Part, Query};
use crate::schema::{Column, Kind, Link, Rule, Schema, Table};
use crate::text::Str;
use crate::value::{RowSet, Value};
use std::alloc::{AllocError, Global};

/// A type whose copies equal their originals.
pub trait Duplicate: Drop {
    fn copy(&self, alloc: Global) -> Result<Self, AllocError>
        ensures { IfOk result (λ other. other ≡ self.now) };
}

/// A type with a test of equal content.
pub trait Same {
    fn same(&self, other: &Self) -> bool
        ensures { IsTrue result ↔ (self.now ≡ other.now) };
}

impl Duplicate for u32 {
    fn copy(&self, _alloc: Global) -> Result<u32, AllocError> {
        Ok(*self)
    }
}

impl Same for u32 {
    fn same(&self, other: &u32) -> bool {
        *self == *other
    }
}

impl Duplicate for Str {
    fn copy(&self, alloc: Global) -> Result<Str, AllocError> {
        Str::new(alloc, self.as_str())
    }
}

impl Same for Str {
    fn same(&self, other: &Str) -> bool {
        self.as_bytes() == other.as_bytes()
    }
}

impl<T: Duplicate> Duplicate for List<T> {
    fn copy(&self, alloc: Global) -> Result<List<T>, AllocError> {
        let mut all = Vec::new(alloc);
        for x in self.as_slice() {
            all.push(x.copy(alloc)?)?;
        }
        Ok(List::from_vec(all))
    }
}

impl<T: Same> Same for List<T> {
    fn same(&self, other: &List<T>) -> bool {
        if self.len() != other.len() {
            return false;
        }
        for i in 0..self.len() {
            if !self.get(i).same(other.get(i)) {
                return false;
            }
        }
        true
    }
}

impl Duplicate for Value {
    fn copy(&self, alloc: Global) -> Result<Value, AllocError> {
        match self {
            Value::Null => Ok(Value::Null),
            Value::Int(n) => Ok(Value::Int(*n)),
            Value::Text(text) => Ok(Value::Text(text.copy(alloc)?)),
        }
    }
}

impl Same for Value {
    fn same(&self, other: &Value) -> bool {
        match (self, other) {
            (Value::Null, Value::Null) => true,
            (Value::Int(n), Value::Int(m)) => *n == *m,
            (Value::Text(s), Value::Text(t)) => s.same(t),
            _ => false,
        }
    }
}

impl Duplicate for RowSet {
    fn copy(&self, alloc: Global) -> Result<RowSet, AllocError> {
        Ok(RowSet {
            tables: self.tables.copy(alloc)?,
        })
    }
}

impl Same for Kind {
    fn same(&self, other: &Kind) -> bool {
        *self == *other
    }
}

impl Same for Op {
    fn same(&self, other: &Op) -> bool {
        *self == *other
    }
}

impl Duplicate for Operand {
    fn copy(&self, alloc: Global) -> Result<Operand, AllocError> {
        match self {
            Operand::Col(place, column) => Ok(Operand::Col(*place, *column)),
            Operand::Val(value) => Ok(Operand::Val(value.copy(alloc)?)),
            Operand::Param(n) => Ok(Operand::Param(*n)),
            Operand::Var(n) => Ok(Operand::Var(*n)),
        }
    }
}

impl Same for Operand {
    fn same(&self, other: &Operand) -> bool {
        match (self, other) {
            (Operand::Col(p, c), Operand::Col(q, d)) => *p == *q && *c == *d,
            (Operand::Val(v), Operand::Val(w)) => v.same(w),
            (Operand::Param(n), Operand::Param(m)) => *n == *m,
            (Operand::Var(n), Operand::Var(m)) => *n == *m,
            _ => false,
        }
    }
}

impl Duplicate for Atom {
    fn copy(&self, alloc: Global) -> Result<Atom, AllocError> {
        Ok(Atom {
            op: self.op,
            left: self.left.copy(alloc)?,
            right: self.right.copy(alloc)?,
        })
    }
}

impl Same for Atom {
    fn same(&self, other: &Atom) -> bool {
        self.op.same(&other.op) && self.left.same(&other.left) && self.right.same(&other.right)
    }
}

impl Duplicate for Part {
    fn copy(&self, alloc: Global) -> Result<Part, AllocError> {
        Ok(Part {
            from: self.from.copy(alloc)?,
            conds: self.conds.copy(alloc)?,
            head: self.head.copy(alloc)?,
        })
    }
}

impl Same for Part {
    fn same(&self, other: &Part) -> bool {
        self.from.same(&other.from) && self.conds.same(&other.conds) && self.head.same(&other.head)
    }
}

impl Duplicate for Query {
    fn copy(&self, alloc: Global) -> Result<Query, AllocError> {
        Ok(Query {
            parts: self.parts.copy(alloc)?,
        })
    }
}

impl Same for Query {
    fn same(&self, other: &Query) -> bool {
        self.parts.same(&other.parts)
    }
}

impl Duplicate for Column {
    fn copy(&self, alloc: Global) -> Result<Column, AllocError> {
        Ok(Column {
            name: self.name.copy(alloc)?,
            kind: self.kind,
            nullable: self.nullable,
        })
    }
}

impl Same for Column {
    fn same(&self, other: &Column) -> bool {
        self.name.same(&other.name)
            && self.kind.same(&other.kind)
            && self.nullable == other.nullable
    }
}

impl Duplicate for Link {
    fn copy(&self, alloc: Global) -> Result<Link, AllocError> {
        Ok(Link {
            columns: self.columns.copy(alloc)?,
            target: self.target,
            target_columns: self.target_columns.copy(alloc)?,
        })
    }
}

impl Same for Link {
    fn same(&self, other: &Link) -> bool {
        self.columns.same(&other.columns)
            && self.target == other.target
            && self.target_columns.same(&other.target_columns)
    }
}

impl Duplicate for Table {
    fn copy(&self, alloc: Global) -> Result<Table, AllocError> {
        Ok(Table {
            name: self.name.copy(alloc)?,
            columns: self.columns.copy(alloc)?,
            keys: self.keys.copy(alloc)?,
            links: self.links.copy(alloc)?,
        })
    }
}

impl Same for Table {
    fn same(&self, other: &Table) -> bool {
        self.name.same(&other.name)
            && self.columns.same(&other.columns)
            && self.keys.same(&other.keys)
            && self.links.same(&other.links)
    }
}

impl Duplicate for Rule {
    fn copy(&self, alloc: Global) -> Result<Rule, AllocError> {
        Ok(Rule {
            left: self.left.copy(alloc)?,
            right: self.right.copy(alloc)?,
        })
    }
}

impl Same for Rule {
    fn same(&self, other: &Rule) -> bool {
        self.left.same(&other.left) && self.right.same(&other.right)
    }
}

impl Duplicate for Schema {
    fn copy(&self, alloc: Global) -> Result<Schema, AllocError> {
        Ok(Schema {
            tables: self.tables.copy(alloc)?,
            rules: self.rules.copy(alloc)?,
        })
    }
}

impl Same for Schema {
    fn same(&self, other: &Schema) -> bool {
        self.tables.same(&other.tables) && self.rules.same(&other.rules)
    }
}

impl Duplicate for Parameter {
    fn copy(&self, alloc: Global) -> Result<Parameter, AllocError> {
        Ok(Parameter {
            name: self.name.copy(alloc)?,
            kind: self.kind,
        })
    }
}

impl Same for Parameter {
    fn same(&self, other: &Parameter) -> bool {
        self.name.same(&other.name) && self.kind.same(&other.kind)
    }
}

impl Duplicate for View {
    fn copy(&self, alloc: Global) -> Result<View, AllocError> {
        Ok(View {
            name: self.name.copy(alloc)?,
            query: self.query.copy(alloc)?,
        })
    }
}

impl Same for View {
    fn same(&self, other: &View) -> bool {
        self.name.same(&other.name) && self.query.same(&other.query)
    }
}

impl Duplicate for CacheKey {
    fn copy(&self, alloc: Global) -> Result<CacheKey, AllocError> {
        Ok(CacheKey {
            name: self.name.copy(alloc)?,
            arguments: self.arguments.copy(alloc)?,
            queries: self.queries.copy(alloc)?,
        })
    }
}

impl Same for CacheKey {
    fn same(&self, other: &CacheKey) -> bool {
        self.name.same(&other.name)
            && self.arguments.same(&other.arguments)
            && self.queries.same(&other.queries)
    }
}

impl Duplicate for Policy {
    fn copy(&self, alloc: Global) -> Result<Policy, AllocError> {
        Ok(Policy {
            schema: self.schema.copy(alloc)?,
            params: self.params.copy(alloc)?,
            views: self.views.copy(alloc)?,
            keys: self.keys.copy(alloc)?,
        })
    }
}

impl Same for Policy {
    fn same(&self, other: &Policy) -> bool {
        self.schema.same(&other.schema)
            && self.params.same(&other.params)
            && self.views.same(&other.views)
            && self.keys.same(&other.keys)
    }
}

impl Duplicate for Context {
    fn copy(&self, alloc: Global) -> Result<Context, AllocError> {
        Ok(Context {
            values: self.values.copy(alloc)?,
        })
    }
}
