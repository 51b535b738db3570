//! Copies of whole values. Those of their parts are made on the way.

use super::Handle;
use ba_model::{
    Atom, CacheKey, Column, Context, Duplicate, Kind, Link, List, Op, Operand, Parameter, Part,
    Policy, Query, Row, RowSet, Rule, Same, Schema, Shared, Str, Table, Value, View,
};

fn text(rt: &impl Handle, text: &str) -> Str {
    Str::new(rt.alloc(), text).expect(rt, "memory")
}

fn value(rt: &impl Handle, letters: &str) -> Value {
    Value::text(rt.alloc(), text(rt, letters)).expect(rt, "memory")
}

fn one<T: Drop>(rt: &impl Handle, item: T) -> List<T> {
    let mut list = List::new(rt.alloc());
    list.push(item).expect(rt, "memory");
    list
}

/// An operand and a value of each form.
fn operands(rt: &impl Handle) -> List<Operand> {
    let operands = vec![in rt.alloc();
        Operand::Col(1, 1),
        Operand::Val(Value::Null),
        Operand::Val(Value::Int(7)),
        Operand::Val(value(rt, "a")),
        Operand::Param(0),
        Operand::Var(0),
    ];
    List::from_vec(operands.expect(rt, "memory"))
}

fn query(rt: &impl Handle) -> Query {
    let atom = Atom {
        op: Op::Le,
        left: Operand::Col(0, 0),
        right: Operand::Val(Value::Int(5)),
    };
    let mut from = one(rt, 0);
    from.push(0).expect(rt, "memory");
    let part = Part {
        from,
        conds: one(rt, atom),
        head: operands(rt),
    };
    Query {
        parts: one(rt, part),
    }
}

/// A table with a column, a key and a link.
fn table(rt: &impl Handle) -> Table {
    let column = Column {
        name: text(rt, "Id"),
        kind: Kind::Int,
        nullable: true,
    };
    let link = Link {
        columns: one(rt, 0),
        target: 0,
        target_columns: one(rt, 0),
    };
    Table {
        name: text(rt, "T"),
        columns: one(rt, column),
        keys: one(rt, one(rt, 0)),
        links: one(rt, link),
    }
}

fn schema(rt: &impl Handle) -> Schema {
    let rule = Rule {
        left: query(rt),
        right: query(rt),
    };
    Schema {
        tables: one(rt, table(rt)),
        rules: one(rt, rule),
    }
}

/// A policy that has one of each of its parts.
fn policy(rt: &impl Handle) -> Policy {
    let parameter = Parameter {
        name: text(rt, "Me"),
        kind: Kind::Text,
    };
    let view = View {
        name: text(rt, "V"),
        query: query(rt),
    };
    let key = CacheKey {
        name: text(rt, "K"),
        arguments: List::new(rt.alloc()),
        queries: one(rt, query(rt)),
    };
    Policy {
        schema: Shared::new(rt.alloc(), schema(rt)).expect(rt, "memory"),
        params: one(rt, parameter),
        views: one(rt, view),
        keys: one(rt, key),
    }
}

#[test]
fn copy_of_a_policy(rt: HostRuntime) {
    let policy = policy(&rt);
    let copy = policy.copy(rt.alloc()).expect(&rt, "memory");
    assert!(rt; copy.same(&policy));
}

fn row(rt: &impl Handle) -> Row {
    let mut row = one(rt, Value::Int(2));
    row.push(value(rt, "ann")).expect(rt, "memory");
    row
}

#[test]
fn copies_of_rows(rt: HostRuntime) {
    let context = Context { values: row(&rt) };
    let copy = context.copy(rt.alloc()).expect(&rt, "memory");
    assert!(rt; copy.values.same(&context.values));
    let rows = RowSet {
        tables: one(&rt, one(&rt, row(&rt))),
    };
    let copy = rows.copy(rt.alloc()).expect(&rt, "memory");
    assert!(rt; copy.tables.same(&rows.tables));
}
