//! Lines of a run, byte for byte.

use super::cases::Told;
use ba_lex::LexFault;
use ba_model::{List, Row, Str, Value};
use ba_refute::Clause;
use ba_sql_query::ReadQueryFault;
use ba_wire::{Block, By, Line, Summary, line_text, summary_text};
use std::alloc::{AllocError, Global};
use std::test::Fail;

fn write_line(alloc: Global, line: &Line, told: &mut String) -> Told {
    let text = line_text(alloc, line)?;
    told.push_str(text.as_str())
}

/// Begins, answers, blocks, ends and publishes.
fn write_run(alloc: Global, name: &Str, rows: &List<Row>, told: &mut String) -> Told {
    let (line, version, begin, end, request) = (1, 0, name, name, name);
    let lines = [
        Line::Begin {
            begin,
            line,
            version,
        },
        Line::Answer {
            by: By::Cover,
            line: 2,
            request,
            rows,
            version,
        },
        Line::Block {
            blocked: Block::Refuted,
            line: 3,
            request,
            version: 1,
        },
        Line::End { end, line: 4 },
        Line::Publish {
            line: 5,
            publish: name,
            version: 4294967295,
        },
        Line::Memory {
            line: 18446744073709551615,
        },
    ];
    for line in &lines {
        write_line(alloc, line, told)?;
    }
    Ok(())
}

fn add_row(alloc: Global, rows: &mut List<Row>, value: Value) -> Told {
    let mut row = List::new(alloc);
    row.push(value)?;
    rows.push(row)
}

/// A row of several values, the first of which is a text of no bytes.
fn add_long_row(alloc: Global, rows: &mut List<Row>) -> Told {
    let mut row = List::new(alloc);
    let text = Str::new(alloc, "")?;
    row.push(Value::text(alloc, text)?)?;
    row.push(Value::Int(0))?;
    row.push(Value::Null)?;
    row.push(Value::Int(9223372036854775807))?;
    rows.push(row)
}

fn add_rows(alloc: Global, rows: &mut List<Row>) -> Told {
    let text = Str::new(alloc, "\"\\/\u{8}\u{c}\n\r\t\u{0}\u{1f}é\u{1f600}")?;
    add_row(alloc, rows, Value::text(alloc, text)?)?;
    add_row(alloc, rows, Value::Null)?;
    add_row(alloc, rows, Value::Int(-9223372036854775808))
}

#[test]
fn lines_of_a_run(rt: HostRuntime) -> Result<(), Fail> {
    let alloc = rt.alloc();
    let name = Str::new(alloc, "a\"b")?;
    let mut rows = List::new(alloc);
    add_rows(alloc, &mut rows)?;
    add_long_row(alloc, &mut rows)?;
    rows.push(List::new(alloc))?;
    let mut told = String::new(alloc);
    write_run(alloc, &name, &rows, &mut told)?;
    let want = r#"{"begin":"a\"b","line":1,"version":0}
{"by":"cover","line":2,"request":"a\"b","rows":[["\"\\/\b\f\n\r\t\u0000\u001fé😀"],[null],[-9223372036854775808],["",0,null,9223372036854775807],[]],"version":0}
{"blocked":"refuted","line":3,"request":"a\"b","version":1}
{"end":"a\"b","line":4}
{"line":5,"publish":"a\"b","version":4294967295}
{"line":18446744073709551615,"memory":true}
"#;
    assert_eq!(rt; told.as_str(), want);
    Ok(())
}

const BLOCKS: [Block; 9] = [
    Block::Refuted,
    Block::Spent {
        steps: 18446744073709551615,
    },
    Block::Stuck {
        clause: Clause::Value,
    },
    Block::Stuck {
        clause: Clause::ConformOne,
    },
    Block::Stuck {
        clause: Clause::ConformTwo,
    },
    Block::Stuck {
        clause: Clause::Within,
    },
    Block::Stuck {
        clause: Clause::Shown,
    },
    Block::Stuck {
        clause: Clause::Asked,
    },
    Block::Stuck {
        clause: Clause::Absent,
    },
];

fn write_block(alloc: Global, blocked: Block, request: &Str, told: &mut String) -> Told {
    let line = Line::Block {
        blocked,
        line: 2,
        request,
        version: 0,
    };
    write_line(alloc, &line, told)
}

#[test]
fn lines_of_blocks(rt: HostRuntime) -> Result<(), Fail> {
    let alloc = rt.alloc();
    let request = Str::new(alloc, "r1")?;
    let mut told = String::new(alloc);
    for blocked in BLOCKS {
        write_block(alloc, blocked, &request, &mut told)?;
    }
    let want = r#"{"blocked":"refuted","line":2,"request":"r1","version":0}
{"blocked":"spent","line":2,"request":"r1","steps":18446744073709551615,"version":0}
{"blocked":"stuck","clause":"value","line":2,"request":"r1","version":0}
{"blocked":"stuck","clause":"conform_one","line":2,"request":"r1","version":0}
{"blocked":"stuck","clause":"conform_two","line":2,"request":"r1","version":0}
{"blocked":"stuck","clause":"within","line":2,"request":"r1","version":0}
{"blocked":"stuck","clause":"shown","line":2,"request":"r1","version":0}
{"blocked":"stuck","clause":"asked","line":2,"request":"r1","version":0}
{"blocked":"stuck","clause":"absent","line":2,"request":"r1","version":0}
"#;
    assert_eq!(rt; told.as_str(), want);
    Ok(())
}

fn write_answer(alloc: Global, by: By, request: &Str, told: &mut String) -> Told {
    let rows = List::new(alloc);
    let line = Line::Answer {
        by,
        line: 2,
        request,
        rows: &rows,
        version: 1,
    };
    write_line(alloc, &line, told)
}

/// Each ground of an answer has its name.
#[test]
fn lines_of_answers(rt: HostRuntime) -> Result<(), Fail> {
    let alloc = rt.alloc();
    let request = Str::new(alloc, "r1")?;
    let mut told = String::new(alloc);
    for by in [By::Template, By::Proof] {
        write_answer(alloc, by, &request, &mut told)?;
    }
    let want = r#"{"by":"template","line":2,"request":"r1","rows":[],"version":1}
{"by":"proof","line":2,"request":"r1","rows":[],"version":1}
"#;
    assert_eq!(rt; told.as_str(), want);
    Ok(())
}

fn write_unread(alloc: Global, unread: &ReadQueryFault, told: &mut String) -> Told {
    let request = Str::new(alloc, "r1")?;
    let line = Line::Unread {
        line: 4,
        request: &request,
        unread,
        version: 0,
    };
    write_line(alloc, &line, told)
}

/// The names of the other faults are printed where questions have no reading.
#[test]
fn unread_questions(rt: HostRuntime) -> Result<(), Fail> {
    let alloc = rt.alloc();
    let mut told = String::new(alloc);
    write_unread(alloc, &ReadQueryFault::Lex(LexFault::TooLong), &mut told)?;
    let word = Str::new(alloc, "ALL")?;
    write_unread(alloc, &ReadQueryFault::Unsupported(word), &mut told)?;
    let want = r#"{"line":4,"request":"r1","unread":"too_long","version":0}
{"line":4,"request":"r1","unread":"unsupported","version":0,"word":"ALL"}
"#;
    assert_eq!(rt; told.as_str(), want);
    Ok(())
}

#[test]
fn counts_of_a_run(rt: HostRuntime) -> Result<(), Fail> {
    let summary = Summary {
        answered: 1,
        blocked: 2,
        lines: 18446744073709551615,
        memory: 4,
        requests: 5,
        rows: 6,
        unread: 0,
    };
    let text = summary_text(rt.alloc(), &summary)?;
    let want =
        r#"{"answered":1,"blocked":2,"lines":18446744073709551615,"memory":4,"requests":5,"rows":6,"unread":0}
"#;
    assert_eq!(rt; text.as_str(), want);
    Ok(())
}
