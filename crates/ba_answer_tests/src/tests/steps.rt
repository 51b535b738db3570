//! The steps of an answer.
ghost use Rattle.std.specs.Prelude.{◌≡◌, ◌+◌, ◌<◌, ◌≤◌, ◌∷◌, [], IfOk, IfSome, IsTrue};
ghost use Rattle.ba_model.specs.Meaning.{IsAnswer};
ghost use Rattle.ba_answer_tests.specs.JoinSteps.{attended_titles, three_tables};

use super::given::{policy, query};
use super::tables::{attended_titles, three_tables};
use super::written::{context, rows};
use crate::laws::join_in_seven_steps;
use ba_eval::{Steps, answer_counted};
use ba_model::{Context, List, Query, Row, RowSet, Same};
use std::alloc::{AllocError, Global};
use std::marker::Brand;
use std::sync::ledger::{Blank, Ledger};

/// The answer of the law's question over the law's tables, in the seven steps of the law.
fn answer_in_seven<L: Ledger>(
    alloc: Global,
    tables: &RowSet,
    ctx: &Context,
    question: &Query,
    steps: &mut Steps<L>,
) -> Result<List<Row>, AllocError>
    requires tables { tables.now ≡ three_tables }
    requires question { question.now.parts ≡ attended_titles ∷ [] }
    ensures answer { IfOk result (λ list. IsAnswer question.now ctx.now tables.now list) }
    ensures steps { steps.new ≤ steps.old + 7 }
{
    join_in_seven_steps();
    answer_counted(alloc, tables, ctx, question, steps)
}

fn answer_by<L: Ledger>(
    alloc: Global,
    tables: &RowSet,
    ctx: &Context,
    question: &Query,
    blank: Blank,
) -> Result<List<Row>, AllocError>
    requires tables { tables.now ≡ three_tables }
    requires question { question.now.parts ≡ attended_titles ∷ [] }
    requires name { blank.name ≡ L.name }
    requires parts { blank.parts ≡ L.parts }
    requires some { 0 < blank.parts }
    ensures { IfOk result (λ list. IsAnswer question.now ctx.now tables.now list) }
{
    let mut steps = Steps::<L>::new(blank);
    answer_in_seven(alloc, tables, ctx, question, &mut steps)
}

fn answer_of_law(
    alloc: Global,
    tables: &RowSet,
    ctx: &Context,
    question: &Query,
) -> Result<List<Row>, AllocError>
    requires tables { tables.now ≡ three_tables }
    requires question { question.now.parts ≡ attended_titles ∷ [] }
    ensures { IfOk result (λ list. IsAnswer question.now ctx.now tables.now list) }
{
    answer_by::<Brand>(alloc, tables, ctx, question, Blank::new(1))
}

/// Whether these are the law's tables.
fn are_tables(alloc: Global, tables: &RowSet) -> Result<bool, AllocError>
    ensures { IfOk result (λ same. IsTrue same → tables.now ≡ three_tables) }
{
    let own = three_tables(alloc)?;
    Ok(tables.tables.same(&own.tables))
}

/// Whether this is the law's question.
fn is_question(alloc: Global, question: &Query) -> Result<bool, AllocError>
    ensures { IfOk result (λ same. IsTrue same → question.now.parts ≡ attended_titles ∷ []) }
{
    let own = attended_titles(alloc)?;
    Ok(question.parts.same(&own.parts))
}

/// The answer in seven steps, or none where the tables or the question are others than the law's.
fn answer_if_of_law(
    alloc: Global,
    tables: &RowSet,
    ctx: &Context,
    question: &Query,
) -> Result<Option<List<Row>>, AllocError>
    ensures { IfOk result (λ found. IfSome found (λ list. IsAnswer question.now ctx.now tables.now list)) }
{
    let same_tables = are_tables(alloc, tables)?;
    if !same_tables {
        return Ok(None);
    }
    let same_question = is_question(alloc, question)?;
    if !same_question {
        return Ok(None);
    }
    let list = answer_of_law(alloc, tables, ctx, question)?;
    Ok(Some(list))
}

const TABLES: &str = "1 ann; 2 bob;
5 plan 30; 6 party 60;
2 5 100; 1 6 200;";

const QUESTION: &str =
    "SELECT e.Title FROM Events e, Attendances a WHERE a.EId = e.EId AND a.UId = 2";

/// What is read from the texts is what the law speaks of, and the answer in seven steps is the one title.
#[test]
fn a_join_in_seven_steps(rt: HostRuntime) {
    let question = query(&rt, &policy(&rt), QUESTION);
    let mut tables = List::new(rt.alloc());
    for text in TABLES.lines() {
        tables.push(rows(&rt, text)).expect(&rt, "memory");
    }
    let tables = RowSet { tables };
    let found = answer_if_of_law(rt.alloc(), &tables, &context(&rt), &question);
    let found = found
        .expect(&rt, "memory")
        .expect(&rt, "the law's tables and question");
    assert!(rt; found == rows(&rt, "plan;"));
}
