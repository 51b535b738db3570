//! Answers that were worked out by hand.

use super::written::{context, field, one, policy, query, rows};
use super::{Handle, plain};
use ba_eval::{answer, answer_indexed, contains};
use ba_index::Indexed;
use ba_model::{Duplicate, List, Policy, Query, Row, RowSet, Value};

/// The rows of Users, Attendances, T and U.
const TABLES: &str = "1 ann; 2 bob; 3 cy;
2 5; 1 5; 3 6; 1 7;
10 1; 9 2; NULL 3; -3 4; 9 2; NULL 5;
9 1; NULL 7;";

fn database(rt: &impl Handle) -> RowSet {
    let mut tables = List::new(rt.alloc());
    for text in TABLES.lines() {
        tables.push(rows(rt, text)).expect(rt, "memory");
    }
    RowSet { tables }
}

/// Whether this is the answer, and has each of its rows and no row that isn't there.
fn is_answered(rt: &impl Handle, database: &RowSet, query: &Query, wanted: &List<Row>) -> bool {
    let ctx = context(rt);
    let answer = answer(rt.alloc(), database, &ctx, query).expect(rt, "memory");
    let has = |row: &Row| contains(rt.alloc(), database, &ctx, query, row).expect(rt, "memory");
    let stranger = one(rt, Value::Int(77));
    answer == *wanted && !has(&stranger) && wanted.as_slice().iter().all(has)
}

/// Whether nested loops and orders that last give this answer.
fn is_found_too(
    rt: &impl Handle,
    policy: &Policy,
    database: &RowSet,
    query: &Query,
    wanted: &List<Row>,
) -> bool {
    let ctx = context(rt);
    let plain = plain::answer(rt.alloc(), database, &ctx, query).expect(rt, "memory");
    let rows = database.copy(rt.alloc()).expect(rt, "memory");
    let indexed = Indexed::new(rt.alloc(), &policy.schema.tables, rows).expect(rt, "memory");
    let kept = answer_indexed(rt.alloc(), &indexed, &ctx, query).expect(rt, "memory");
    plain == *wanted && kept == *wanted
}

/// Questions and their rows.
const ANSWERS: &str =
    "SELECT Name FROM Users u, Attendances a WHERE u.UId = a.UId AND EId = ?N | ann; bob;
SELECT UId FROM Users UNION SELECT EId FROM Attendances | 1; 2; 3; 5; 6; 7;
SELECT Hidden FROM T | NULL; -3; 9; 10;
SELECT Hidden FROM T WHERE Hidden = 9 | 9;
SELECT Hidden FROM T WHERE Hidden <> 9 | -3; 10;
SELECT Hidden FROM T WHERE Hidden < 9 | -3;
SELECT Hidden FROM T WHERE Hidden <= 9 | -3; 9;
SELECT T.Shown FROM T, U WHERE T.Hidden = U.Hidden | 2;
SELECT Name FROM Users WHERE Name <> 'bob' | ann; cy;
SELECT UId, ?N, 'x' FROM Users WHERE UId = 3 OR UId = 1 | 1 5 x; 3 5 x;
SELECT a.Name, b.Name FROM Users a, Users b WHERE a.UId < b.UId | ann bob; ann cy; bob cy;
SELECT 1 FROM Users | 1;
SELECT 1 FROM Users WHERE UId = 4 |";

#[test]
fn answers(rt: HostRuntime) {
    let policy = policy(&rt);
    let database = database(&rt);
    for line in ANSWERS.lines() {
        let query = query(&rt, &policy, field(line, 0));
        let wanted = rows(&rt, field(line, 1));
        assert!(rt; is_answered(&rt, &database, &query, &wanted), "{line}");
        assert!(rt;
            is_found_too(&rt, &policy, &database, &query, &wanted),
            "{line}"
        );
    }
}

/// The rows 0, 1 and so on, below this number.
fn rows_below(rt: &impl Handle, number: i64) -> List<Row> {
    let mut rows = List::new(rt.alloc());
    for n in 0..number {
        rows.push(one(rt, Value::Int(n))).expect(rt, "memory");
    }
    rows
}

/// The second table of 100,000 rows is scanned once: the bound fails on each other row of the first.
#[test]
fn large_tables(rt: HostRuntime) {
    let policy = policy(&rt);
    let question = "SELECT b.UId FROM Users a, Attendances b WHERE a.UId < 1 AND a.UId = b.UId";
    let mut tables = one(&rt, rows_below(&rt, 100_000));
    tables.push(rows_below(&rt, 100_000)).expect(&rt, "memory");
    let query = query(&rt, &policy, question);
    assert!(rt; is_answered(&rt, &RowSet { tables }, &query, &rows(&rt, "0;")));
}
