//! The tables and the question of the law of seven steps, as values.
ghost use Rattle.std.specs.Prelude.{◌≡◌, ◌∷◌, [], codes, pos, IfOk};
ghost use Rattle.ba_model.specs.declared.query.Op.TheVariants.{Eq};
ghost use Rattle.ba_model.specs.declared.query.Operand.TheVariants.{Col, Val};
ghost use Rattle.ba_model.specs.declared.value.Value.TheVariants.{Int, Text};
ghost use Rattle.ba_answer_tests.specs.JoinSteps.{attendances, attended_titles, events, three_tables, users};

use ba_model::{Atom, List, Op, Operand, Part, Query, Row, RowSet, Str, Value};
use std::alloc::{AllocError, Global};

fn text(alloc: Global, text: &str) -> Result<Value, AllocError>
    ensures { IfOk result (λ value. value ≡ Text text.now) }
{
    let text = Str::new(alloc, text)?;
    Ok(Value::text(alloc, text)?)
}

fn user(alloc: Global, number: i64, name: &str) -> Result<Row, AllocError>
    ensures { IfOk result (λ row. row ≡ Int number ∷ Text name.now ∷ []) }
{
    let name = text(alloc, name)?;
    let mut row = List::new(alloc);
    row.push(Value::Int(number))?;
    row.push(name)?;
    Ok(row)
}

fn event(alloc: Global, number: i64, title: &str, duration: i64) -> Result<Row, AllocError>
    ensures { IfOk result (λ row. row ≡ Int number ∷ Text title.now ∷ Int duration ∷ []) }
{
    let title = text(alloc, title)?;
    let mut row = List::new(alloc);
    row.push(Value::Int(number))?;
    row.push(title)?;
    row.push(Value::Int(duration))?;
    Ok(row)
}

fn attendance(alloc: Global, user: i64, event: i64, at: i64) -> Result<Row, AllocError>
    ensures { IfOk result (λ row. row ≡ Int user ∷ Int event ∷ Int at ∷ []) }
{
    let mut row = List::new(alloc);
    row.push(Value::Int(user))?;
    row.push(Value::Int(event))?;
    row.push(Value::Int(at))?;
    Ok(row)
}

fn pair(alloc: Global, first: Row, second: Row) -> Result<List<Row>, AllocError>
    ensures { IfOk result (λ rows. rows ≡ first ∷ second ∷ []) }
{
    let mut rows = List::new(alloc);
    rows.push(first)?;
    rows.push(second)?;
    Ok(rows)
}

fn users(alloc: Global) -> Result<List<Row>, AllocError>
    ensures { IfOk result (λ rows. rows ≡ users) }
{
    let ann = user(alloc, 1, "ann")?;
    let bob = user(alloc, 2, "bob")?;
    pair(alloc, ann, bob)
}

fn events(alloc: Global) -> Result<List<Row>, AllocError>
    ensures { IfOk result (λ rows. rows ≡ events) }
{
    let plan = event(alloc, 5, "plan", 30)?;
    let party = event(alloc, 6, "party", 60)?;
    pair(alloc, plan, party)
}

fn attendances(alloc: Global) -> Result<List<Row>, AllocError>
    ensures { IfOk result (λ rows. rows ≡ attendances) }
{
    let bobs = attendance(alloc, 2, 5, 100)?;
    let anns = attendance(alloc, 1, 6, 200)?;
    pair(alloc, bobs, anns)
}

/// The tables of the law.
pub fn three_tables(alloc: Global) -> Result<RowSet, AllocError>
    ensures { IfOk result (λ rows. rows ≡ three_tables) }
{
    let users = users(alloc)?;
    let events = events(alloc)?;
    let attendances = attendances(alloc)?;
    let mut tables = List::new(alloc);
    tables.push(users)?;
    tables.push(events)?;
    tables.push(attendances)?;
    Ok(RowSet { tables })
}

fn places(alloc: Global) -> Result<List<u32>, AllocError>
    ensures { IfOk result (λ from. from ≡ attended_titles.from) }
{
    let mut from = List::new(alloc);
    from.push(1)?;
    from.push(2)?;
    Ok(from)
}

fn conditions(alloc: Global) -> Result<List<Atom>, AllocError>
    ensures { IfOk result (λ conds. conds ≡ attended_titles.conds) }
{
    let mut conds = List::new(alloc);
    conds.push(Atom {
        op: Op::Eq,
        left: Operand::Col(1, 1),
        right: Operand::Col(0, 0),
    })?;
    conds.push(Atom {
        op: Op::Eq,
        left: Operand::Col(1, 0),
        right: Operand::Val(Value::Int(2)),
    })?;
    Ok(conds)
}

/// The question of the law.
pub fn attended_titles(alloc: Global) -> Result<Query, AllocError>
    ensures { IfOk result (λ query. query.parts ≡ attended_titles ∷ []) }
{
    let from = places(alloc)?;
    let conds = conditions(alloc)?;
    let mut head = List::new(alloc);
    head.push(Operand::Col(0, 1))?;
    let mut parts = List::new(alloc);
    parts.push(Part { from, conds, head })?;
    Ok(Query { parts })
}
