//! Questions, each printed as the query that it reads as.
ghost use Rattle.std.specs.Prelude.{[]};
ghost use Rattle.ba_model.specs.Fit.{IsQuery, kinds_of};

use super::cases::{Reading, Told, all_are_so};
use super::faults::write_text_fault;
use super::fronts::words_of;
use super::standard::policy;
use ba_model::{Atom, Failure, List, Op, Operand, Part, Policy, Query, QueryDraft};
use ba_sql_print::print_query;
use ba_sql_query::{read_query, read_words};
use ba_sql_syntax::read_written;
use std::alloc::{AllocError, Global};
use std::fmt::Write;
use std::test::Fail;

/// The query's text, or the number of its parts where that is long.
fn write_query(alloc: Global, policy: &Policy, query: &Query, told: &mut String) -> Told
    requires { IsQuery policy.now.schema (kinds_of policy.now.params) [] query.now }
{
    let text = print_query(alloc, &policy.schema, &policy.params, query)?;
    let parts = query.parts.len();
    if text.len() > 1_000 {
        return write!(told, "{parts} parts");
    }
    told.push_str(text.as_str())
}

struct Questions;

impl Reading for Questions {
    fn tell(&self, alloc: Global, text: &str, told: &mut String) -> Told {
        let policy = policy(alloc)?;
        match read_query(alloc, &policy.schema, &policy.params, text) {
            Ok(query) => write_query(alloc, &policy, &query, told),
            Err(Failure::NoMemory) => Err(AllocError),
            Err(Failure::Fault(fault)) => write_text_fault(alloc, fault, told),
        }
    }
}

/// The words of a view's query.
struct Words;

impl Reading for Words {
    fn tell(&self, alloc: Global, text: &str, told: &mut String) -> Told {
        let policy = policy(alloc)?;
        let words = words_of(alloc, text)?;
        match read_words(alloc, &policy.schema, &policy.params, words.as_slice()) {
            Ok(query) => write_query(alloc, &policy, &query, told),
            Err(_) => Err(AllocError),
        }
    }
}

/// A query as it is written.
struct Written;

impl Reading for Written {
    fn tell(&self, alloc: Global, text: &str, told: &mut String) -> Told {
        let words = words_of(alloc, text)?;
        match read_written(alloc, words.as_slice()) {
            Ok(written) => write!(told, "{written:?}"),
            Err(_) => Err(AllocError),
        }
    }
}

/// The users whose Name is NULL and isn't, which no text asks for.
struct NullTests;

impl Reading for NullTests {
    fn tell(&self, alloc: Global, _text: &str, told: &mut String) -> Told {
        let policy = policy(alloc)?;
        let mut parts = List::new(alloc);
        add_null_part(alloc, &mut parts)?;
        let vars = List::new(alloc);
        match Query::check(&policy.schema, &policy.params, &vars, QueryDraft { parts }) {
            Ok(query) => write_query(alloc, &policy, &query, told),
            Err(_) => Err(AllocError),
        }
    }
}

/// Of column 1 of the first table.
fn null_test(op: Op) -> Atom {
    let left = Operand::Col(0, 1);
    let right = Operand::Col(0, 1);
    Atom { op, left, right }
}

fn fill_null_part(part: &mut Part) -> Told {
    part.from.push(0)?;
    part.conds.push(null_test(Op::IsNull))?;
    part.conds.push(null_test(Op::NotNull))?;
    part.head.push(Operand::Col(0, 0))
}

fn add_null_part(alloc: Global, parts: &mut List<Part>) -> Told {
    let mut part = Part {
        from: List::new(alloc),
        conds: List::new(alloc),
        head: List::new(alloc),
    };
    fill_null_part(&mut part)?;
    parts.push(part)
}

/// An ON condition sees the sources behind it, and an alias hides its table's name.
const READ: &str = r#"SELECT Name FROM Users => SELECT t0."Name" FROM "Users" t0
SELECT Title AS t, EId FROM Events WHERE EId = 5 => SELECT t0."Title", t0."EId" FROM "Events" t0 WHERE t0."EId" = 5
select Events.EId, 1, TRUE, 'it''s', ?MyUId from Events -- all => SELECT t0."EId", 1, 1, 'it''s', ?MyUId FROM "Events" t0
SELECT "Name" FROM `Users` WHERE ?MyName = Name; => SELECT t0."Name" FROM "Users" t0 WHERE ?MyName = t0."Name"
SELECT At FROM Attendances WHERE At > 5 AND At >= UId => SELECT t0."At" FROM "Attendances" t0 WHERE 5 < t0."At" AND t0."UId" <= t0."At"
SELECT At FROM Attendances WHERE At != -5 AND At <> FALSE => SELECT t0."At" FROM "Attendances" t0 WHERE t0."At" <> -5 AND t0."At" <> 0
SELECT At FROM Attendances WHERE At < UId AND At <= 7 => SELECT t0."At" FROM "Attendances" t0 WHERE t0."At" < t0."UId" AND t0."At" <= 7
SELECT "at -- all" FROM `order` WHERE "group" >= 1 => SELECT t0."at -- all" FROM "order" t0 WHERE 1 <= t0."group"
SELECT -9223372036854775808, 9223372036854775807, 'it''s', ?MyName FROM Users => SELECT -9223372036854775808, 9223372036854775807, 'it''s', ?MyName FROM "Users" t0
SELECT UId FROM Users WHERE Name = '''' AND '''a'' -- ?b"' <> Name AND Name = '' AND Name = 'žluť' => SELECT t0."UId" FROM "Users" t0 WHERE t0."Name" = '''' AND '''a'' -- ?b"' <> t0."Name" AND t0."Name" = '' AND t0."Name" = 'žluť'
SELECT * FROM Users => SELECT t0."UId", t0."Name" FROM "Users" t0
SELECT * FROM Events, Users => SELECT t0."EId", t0."Title", t0."Duration", t1."UId", t1."Name" FROM "Events" t0, "Users" t1
SELECT u.*, At, Users.* FROM Users, Attendances, Users u => SELECT t2."UId", t2."Name", t1."At", t0."UId", t0."Name" FROM "Users" t0, "Attendances" t1, "Users" t2
SELECT Name, e.Title FROM Users u JOIN Attendances a ON u.UId = a.UId INNER JOIN Events AS e ON a.EId = e.EId WHERE At > 3 => SELECT t0."Name", t2."Title" FROM "Users" t0, "Attendances" t1, "Events" t2 WHERE t0."UId" = t1."UId" AND t1."EId" = t2."EId" AND 3 < t1."At"
SELECT Name FROM Users JOIN Events ON Duration = At, Attendances => SELECT t0."Name" FROM "Users" t0, "Events" t1, "Attendances" t2 WHERE t1."Duration" = t2."At"
SELECT a.Name, b.Name FROM Users a CROSS JOIN Users b WHERE a.UId < b.UId => SELECT t0."Name", t1."Name" FROM "Users" t0, "Users" t1 WHERE t0."UId" < t1."UId"
SELECT "my u".Name FROM Users "my u" => SELECT t0."Name" FROM "Users" t0
SELECT Users.Title FROM Users u, Events Users => SELECT t1."Title" FROM "Users" t0, "Events" t1
SELECT c.Name, Title, a.UId FROM Users a, Users b, Users c, Events => SELECT t2."Name", t3."Title", t0."UId" FROM "Users" t0, "Users" t1, "Users" t2, "Events" t3
SELECT At FROM Events a, Events b, Attendances, Events c => SELECT t2."At" FROM "Events" t0, "Events" t1, "Attendances" t2, "Events" t3
SELECT Name FROM Users WHERE UId = 1 OR UId IN (2, 3) => SELECT t0."Name" FROM "Users" t0 WHERE t0."UId" = 1 UNION SELECT t0."Name" FROM "Users" t0 WHERE t0."UId" = 2 UNION SELECT t0."Name" FROM "Users" t0 WHERE t0."UId" = 3
SELECT UId FROM Users WHERE (UId = 1 OR UId = 2) AND (UId = 3 OR UId = 4) => SELECT t0."UId" FROM "Users" t0 WHERE t0."UId" = 1 AND t0."UId" = 3 UNION SELECT t0."UId" FROM "Users" t0 WHERE t0."UId" = 1 AND t0."UId" = 4 UNION SELECT t0."UId" FROM "Users" t0 WHERE t0."UId" = 2 AND t0."UId" = 3 UNION SELECT t0."UId" FROM "Users" t0 WHERE t0."UId" = 2 AND t0."UId" = 4
SELECT UId FROM Users WHERE UId = 1 AND UId IN (2, ?MyUId) OR UId < 5 => SELECT t0."UId" FROM "Users" t0 WHERE t0."UId" = 1 AND t0."UId" = 2 UNION SELECT t0."UId" FROM "Users" t0 WHERE t0."UId" = 1 AND t0."UId" = ?MyUId UNION SELECT t0."UId" FROM "Users" t0 WHERE t0."UId" < 5
SELECT UId FROM Users JOIN Events ON EId = 1 OR EId = 2 WHERE Duration = 3 => SELECT t0."UId" FROM "Users" t0, "Events" t1 WHERE t1."EId" = 1 AND t1."Duration" = 3 UNION SELECT t0."UId" FROM "Users" t0, "Events" t1 WHERE t1."EId" = 2 AND t1."Duration" = 3
SELECT UId FROM Users UNION SELECT EId FROM Events WHERE EId = 1 OR EId = 2 UNION DISTINCT SELECT 7 FROM Users; => SELECT t0."UId" FROM "Users" t0 UNION SELECT t0."EId" FROM "Events" t0 WHERE t0."EId" = 1 UNION SELECT t0."EId" FROM "Events" t0 WHERE t0."EId" = 2 UNION SELECT 7 FROM "Users" t0
SELECT UId FROM Users WHERE [[30000 (]]UId = 1[[30000 )]] => SELECT t0."UId" FROM "Users" t0 WHERE t0."UId" = 1
SELECT 1 FROM Users WHERE UId=1 OR UId=2 AND UId=3 OR UId=4 => SELECT 1 FROM "Users" t0 WHERE t0."UId" = 1 UNION SELECT 1 FROM "Users" t0 WHERE t0."UId" = 2 AND t0."UId" = 3 UNION SELECT 1 FROM "Users" t0 WHERE t0."UId" = 4
SELECT 1 FROM Users WHERE UId=1 AND (UId=2 AND (UId=3 OR UId=4)) => SELECT 1 FROM "Users" t0 WHERE t0."UId" = 1 AND t0."UId" = 2 AND t0."UId" = 3 UNION SELECT 1 FROM "Users" t0 WHERE t0."UId" = 1 AND t0."UId" = 2 AND t0."UId" = 4
SELECT UId FROM Users WHERE Name IS NULL OR (Users.UId is not null AND ?MyUId IS NULL) => SELECT t0."UId" FROM "Users" t0 WHERE t0."Name" IS NULL UNION SELECT t0."UId" FROM "Users" t0 WHERE t0."UId" IS NOT NULL AND ?MyUId IS NULL
SELECT 'x' FROM Users WHERE 3 Is Not Null AND TRUE IS NULL AND 'x' IS NULL => SELECT 'x' FROM "Users" t0 WHERE 3 IS NOT NULL AND 1 IS NULL AND 'x' IS NULL
SELECT DISTINCT u.UId one, Name "n" FROM Users AS u => SELECT t0."UId", t0."Name" FROM "Users" t0"#;

/// Texts have their fault before a later one, which stands further left or in another select.
const FAULTS: &str = "SELECT Name FROM Users WHERE UId = 9223372036854775808 => number_too_large
SELECT ALL ' FROM Users => open_quote
SELECT Name FROM Users # => bad_byte
SELECT FROM Users LIMIT => unsupported LIMIT
SELECT Nme FROM Users WHERE UId = => syntax
SELECT Events.* FROM Users => unknown_table
SELECT Users.UId FROM Users u => unknown_table
SELECT Nme, x.UId FROM Users => unknown_table
SELECT Users.Title FROM Users, Events => unknown_column
SELECT UId FROM Users WHERE Title IN (1) => unknown_column
SELECT a.UId FROM Users a, Users a WHERE Nme = 1 => unknown_column
SELECT UId FROM Users, Attendances => ambiguous
SELECT x.Nme FROM Users x, Events x => ambiguous
SELECT Title FROM Events a, Events b, Events c => ambiguous
SELECT ?Other FROM Users a, Users b WHERE UId = 1 => ambiguous
SELECT UId FROM Users WHERE UId IN (1, ?myuid) => unknown_param
SELECT UId FROM Users WHERE Name = 1 AND UId = ?Other => unknown_param
SELECT UId FROM Users WHERE UId IN (1, 'x') => kind_differs
SELECT UId FROM Users WHERE ?MyName = ?MyUId => kind_differs
SELECT UId FROM Users WHERE Name < 'x' AND Name = 1 => kind_differs
SELECT UId FROM Users WHERE Name >= ?MyName => order_on_text
SELECT UId FROM Users UNION SELECT Name FROM Users WHERE Name < 'x' => order_on_text
SELECT UId FROM Users UNION SELECT * FROM Users => head_differs
SELECT ?MyUId FROM Users UNION SELECT 'x' FROM Users => head_differs
SELECT UId FROM Users WHERE UId IN (1[[32 ,1]]) UNION SELECT Name FROM Users => head_differs";

const UNSUPPORTED: &str =
    "SELECT Name FROM Users UNION ALL SELECT Title FROM Events => unsupported ALL
SELECT a FROM T wHere a is nOt => unsupported IS
SELECT a FROM T WHERE a IS NOT (NULL) => unsupported IS
SELECT a FROM T WHERE a IS NULL AND b = NULL => unsupported NULL
SELECT a FROM T WHERE a IN (1, null) => unsupported NULL
SELECT a FROM T WHERE a IS NOT NULL NULL => unsupported NULL
SELECT a FROM T WHERE NOT NULL => unsupported NOT
SELECT a FROM T WHERE a IS NOT NOT NULL => unsupported IS
SELECT a + 1 FROM T => unsupported +
SELECT a / 1 FROM T => unsupported /
SELECT a FROM ( select b FROM U) => unsupported SELECT
SELECT Count (*) FROM T => unsupported COUNT
count(select not => unsupported COUNT
(select not => unsupported SELECT
, , , % not => unsupported %
not => unsupported NOT
null => unsupported NULL
case => unsupported CASE
except => unsupported EXCEPT";

/// Texts that the grammar doesn't have.
const OTHER_TEXTS: &str = r#"
;
SELECT a
SELECT a FROM T;;
SELECT *, a FROM T
SELECT a AS FROM T
SELECT "f"(a) FROM T
SELECT 3-1 FROM T
SELECT a FROM T CROSS JOIN U ON a = b
SELECT a FROM T ON a = b
SELECT a FROM T WHERE a = b = c
SELECT a FROM T WHERE [[30000 (]]a = 1[[30001 )]]
SELECT a FROM T WHERE (a) = 1
SELECT a FROM T WHERE a IN ()
SELECT a FROM T WHERE a IN (b)
SELECT a IS NULL FROM T
SELECT a FROM T WHERE IS NULL
SELECT a FROM T WHERE a IS NULL = 1
SELECT a FROM T WHERE (a IS NOT NULL
SELECT a FROM T WHERE a IN (1) IS NULL
SELECT a FROM T WHERE a = 1 WHERE b = 2"#;

/// Texts near the longest take time that their length bounds.
const LIMITS: &str = r#"SELECT 1 FROM Users WHERE UId = 1[[5  AND (UId = 1 OR UId = 2)]] => 32 parts
SELECT 1 FROM Users WHERE UId = 1[[6  AND (UId = 1 OR UId = 2)]] => too_many
SELECT 1 FROM Users WHERE UId = 1[[31  OR UId = 1]] => 32 parts
SELECT 1 FROM Users WHERE UId IN (1[[31 ,1]]) => 32 parts
SELECT 1 FROM Users WHERE UId IN (1[[30000 ,1]]) => too_many
SELECT 12 FROM Users[[31  UNION SELECT 12 FROM Users]] => 32 parts
SELECT 1 FROM Users[[32  UNION SELECT 1 FROM Users]] => too_many
SELECT 1 FROM Users WHERE UId = 1[[63  AND UId = 1]] => 1 parts
SELECT 1 FROM Users WHERE UId = 1[[64  AND UId = 1]] => too_many
SELECT [[255 0,]]1 FROM Users => SELECT [[255 0, ]]1 FROM "Users" t0
SELECT [[256 0,]]1 FROM Users => too_many
SELECT 1 FROM [[7 Users,]]Users => SELECT 1 FROM [[7 "Users" t#, ]]"Users" t7
SELECT 1 FROM [[8 Users,]]Users => too_many
SELECT 1 FROM Users[[65517  ]] => SELECT 1 FROM "Users" t0
SELECT 1 FROM Users[[65518  ]] => too_long
SELECT Title, x.EId FROM Events x[[2000 ,Users]] => too_many
SELECT y.Title FROM Events x[[2000 ,Users]] => unknown_table
SELECT Name FROM Events x[[2000 ,Users]] => ambiguous
SELECT x[[6500 ,x]] FROM Users[[6500 ,Users]] => unknown_column
SELECT z.UId[[4500 ,z.UId]] FROM Users a[[4500 ,Users a]] => unknown_table"#;

const WRITTEN: &str =
    r#"SELECT t.a FROM T t WHERE b IN (1, ?p) OR c > 'x' => QueryText { selects: List { items: [Select { heads: Items(List { items: [One(Column(Named { qualifier: Some(Str { text: "t" }), column: Str { text: "a" } }))] }), sources: List { items: [Source { table: Str { text: "T" }, alias: Some(Str { text: "t" }) }] }, condition: List { items: [Test(Among { side: Column(Named { qualifier: None, column: Str { text: "b" } }), among: List { items: [Value(Int(1)), Param(Str { text: "p" })] } }), Test(Compare { op: Lt, left: Constant(Value(Text(Shared { cell: Str { text: "x" } }))), right: Column(Named { qualifier: None, column: Str { text: "c" } }) }), Or] } }] } }"#;

const WORDS: &str =
    r#"SELECT UId FROM Users WHERE UId = ?MyUId => SELECT t0."UId" FROM "Users" t0 WHERE t0."UId" = ?MyUId"#;

const NULL_TESTS: &str =
    r#" => SELECT t0."UId" FROM "Users" t0 WHERE t0."Name" IS NULL AND t0."Name" IS NOT NULL"#;

#[test]
fn readings(rt: HostRuntime) -> Result<(), Fail> {
    all_are_so(&rt, &Questions, READ, "")?;
    all_are_so(&rt, &Words, WORDS, "")?;
    all_are_so(&rt, &Written, WRITTEN, "")?;
    all_are_so(&rt, &NullTests, NULL_TESTS, "")
}

#[test]
fn faults_and_limits(rt: HostRuntime) -> Result<(), Fail> {
    all_are_so(&rt, &Questions, OTHER_TEXTS, "syntax")?;
    all_are_so(&rt, &Questions, UNSUPPORTED, "")?;
    all_are_so(&rt, &Questions, FAULTS, "")?;
    all_are_so(&rt, &Questions, LIMITS, "")
}
