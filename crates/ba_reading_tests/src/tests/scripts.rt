//! Lines of scripts, and scripts.

use super::cases::{Reading, Told, all_are_so, bytes_of, write_value};
use super::faults::write_script_fault;
use super::standard::policy_of;
use ba_model::{Context, Failure};
use ba_script::{Given, LineFault, Member, ScriptEntry, ScriptLine, read_line, read_script};
use ba_script_print::script_text;
use std::alloc::{AllocError, Global};
use std::fmt::Write;
use std::test::Fail;

fn write_given(told: &mut String, given: &Given) -> Told {
    match given {
        Given::Int(n) => write!(told, "={n}"),
        Given::Text(text) => {
            told.push_str("=")?;
            told.push_str(text.as_str())
        }
        Given::Other => told.push_str("?"),
    }
}

fn write_member(told: &mut String, member: &Member) -> Told {
    told.push_str(" ")?;
    told.push_str(member.name.as_str())?;
    write_given(told, &member.value)
}

fn write_members(told: &mut String, members: &[Member]) -> Told {
    for member in members {
        write_member(told, member)?;
    }
    Ok(())
}

struct Lines;

impl Reading for Lines {
    fn tell(&self, alloc: Global, text: &str, told: &mut String) -> Told {
        let bytes = bytes_of(alloc, text)?;
        match read_line(alloc, bytes.as_slice()) {
            Ok(ScriptLine::Begin { begin, context }) => {
                write!(told, "begin {begin}")?;
                write_members(told, context.as_slice())
            }
            Ok(ScriptLine::Ask { ask, query }) => write!(told, "ask {ask}: {query}"),
            Ok(ScriptLine::Read { read, key, args }) => {
                write!(told, "read {read} {key}")?;
                write_members(told, args.as_slice())
            }
            Ok(ScriptLine::End { end }) => write!(told, "end {end}"),
            Ok(ScriptLine::Publish { publish }) => write!(told, "publish {publish}"),
            Err(Failure::NoMemory) => Err(AllocError),
            Err(Failure::Fault(LineFault::Json)) => told.push_str("json"),
            Err(Failure::Fault(LineFault::Shape)) => told.push_str("shape"),
            Err(Failure::Fault(_)) => told.push_str("no line's fault"),
        }
    }
}

const LINES: &str = r#"{"begin":"r1","context":{"MyUId":2}} => begin r1 MyUId=2
 { "context" : {} , "begin" : "r 1" } ^ => begin r 1
{"ask":"r1","query":"SELECT Name FROM Users"} => ask r1: SELECT Name FROM Users
{"query":"'\n'","ask":"a\u0022b\\"} => ask a"b\: '~'
{"args":{"e":5,"a":"x"},"key":"title","read":"r1"} => read r1 title a=x e=5
 { "read" : "r 1" , "args" : {} , "key" : "k" } => read r 1 k
{"args":{"e":null},"key":"k","read":"r1"} => read r1 k e?
{"args":[],"key":"k","read":"r1"}
{"args":{},"key":1,"read":"r1"}
{"args":{},"key":"k","read":""}
{"args":{},"read":"r1"}
{"args":{},"key":"k","read":"r1","version":0}
{"end":"r1"} => end r1
{"\u0065nd":"\u00e9"} => end é
{"end":1,"end":"b"} => end b
{"end":"[[64 x]]"} => end [[64 x]]
{"end":"[[65 x]]"}
{"publish":"t 1"} => publish t 1
{"publish":"\u00e9","publish":"a/b"} => publish a/b
{"publish":"[[65 x]]"} => publish [[65 x]]
{"publish":""}
{"publish":1}
{"publish":["t1"]}
{"publish":"t1","version":1}
{"publish":"t1","context":{}}
{"end":"r1","publish":"t1"}
{"begin":"r","context":{"b":9223372036854775807,"a":-9223372036854775808}} => begin r a=-9223372036854775808 b=9223372036854775807
{"begin":"r","context":{"a":9223372036854775808,"b":-9223372036854775809,"c":18446744073709551616}} => begin r a? b? c?
{"begin":"r","context":{"a":9223372036854775808,"b":1e400000}} => json
{"begin":"r","context":{"a":0,"b":-0,"c":1.0,"d":1e2}} => begin r a=0 b? c? d?
{"begin":"r","context":{"a":null,"b":true,"c":[1],"d":{"e":1}}} => begin r a? b? c? d?
{"begin":"r","context":{"a":"x","":"\u0041","a":3}} => begin r =A a=3
 => json
{"end":"r1" => json
{"end":"r1"} x => json
{"end":"\ud800"} => json
{}
"end"
{"end":""}
{"end":"r1","x":1}
{"end":"b","end":1}
{"ask":"","query":"q"}
{"ask":"r1","context":{}}
{"ask":"r1","query":"q","version":0}
{"begin":"r1","context":[]}
{"begin":"r1","query":"q"}"#;

#[test]
fn forms_of_lines(rt: HostRuntime) -> Result<(), Fail> {
    all_are_so(&rt, &Lines, LINES, "shape")?;
    all_are_so(&rt, &Lines, "\u{feff}{\"end\":\"r1\"}", "json")
}

fn write_context(told: &mut String, context: &Context) -> Told {
    for value in context.values.as_slice() {
        write_value(told, value)?;
    }
    told.push_str(";")
}

fn write_entry(told: &mut String, entry: &ScriptEntry) -> Told {
    match entry {
        ScriptEntry::Begin {
            request,
            name,
            context,
        } => {
            write!(told, "begin {request} {name}")?;
            write_context(told, context)
        }
        ScriptEntry::Ask {
            request,
            name,
            query,
        } => write!(told, "ask {request} {name} {query};"),
        ScriptEntry::Read {
            request,
            name,
            key,
            arguments,
            questions,
        } => {
            write!(told, "read {request} {name} {key} {questions}")?;
            write_context(told, arguments)
        }
        ScriptEntry::End { request, name } => write!(told, "end {request} {name};"),
        ScriptEntry::Publish { number, set } => write!(told, "publish {number} {set};"),
    }
}

/// The entries, or how many there are where that isn't a few.
fn write_entries(told: &mut String, entries: &[ScriptEntry]) -> Told {
    if entries.len() > 9 {
        return write!(told, "{} entries", entries.len());
    }
    for entry in entries {
        write_entry(told, entry)?;
    }
    Ok(())
}

/// The script with lines for the letters that stand before a `.` at its front: B begins r1 and C r2,
/// A and F ask in them, and E ends r1. P publishes t1.
fn with_lines(alloc: Global, text: &str) -> Result<String, AllocError> {
    let (letters, rest) = text.split_once('.').unwrap_or(("", text));
    let mut all = String::new(alloc);
    for letter in letters.chars() {
        all.push_str(line_of(letter))?;
    }
    all.push_str(rest)?;
    Ok(all)
}

fn line_of(letter: char) -> &'static str {
    match letter {
        'B' => "{\"begin\":\"r1\",\"context\":{\"MyUId\":2,\"Name\":\"ann\"}}\n",
        'C' => "{\"begin\":\"r2\",\"context\":{\"MyUId\":2,\"Name\":\"ann\"}}\n",
        'A' => "{\"ask\":\"r1\",\"query\":\"q\"}\n",
        'F' => "{\"ask\":\"r2\",\"query\":\"q\"}\n",
        'P' => "{\"publish\":\"t1\"}\n",
        _ => "{\"end\":\"r1\"}\n",
    }
}

/// Scripts for a text `?Name` and a number `?MyUId`.
struct Scripts;

impl Reading for Scripts {
    fn tell(&self, alloc: Global, text: &str, told: &mut String) -> Told {
        let text = with_lines(alloc, text)?;
        let bytes = bytes_of(alloc, text.as_str())?;
        let policy = policy_of(alloc, "", "PARAM Name TEXT; PARAM MyUId INT;")?;
        match read_script(alloc, &policy.params, &policy.keys, bytes.as_slice()) {
            Ok(script) => write_entries(told, script.entries.as_slice()),
            Err(Failure::NoMemory) => Err(AllocError),
            Err(Failure::Fault(fault)) => write_script_fault(alloc, fault, told),
        }
    }
}

const SCRIPTS: &str =
    r#"{"begin":"r1","context":{"MyUId":-9223372036854775808,"Name":"\u0061"}}^~{"context":{"Name":"bob","MyUId":1},"begin":"r2"}~{"ask":"r2","query":"SELECT 1"}~{"query":"","ask":"r1"}~{"end":"r1"}~{"ask":"r2","query":"x","query":"y"}~{"begin":"r1","context":{"Name":"c","MyUId":7,"MyUId":8}}~{"ask":"r1","query":"z"} => begin 0 r1 'a' -9223372036854775808;begin 1 r2 'bob' 1;ask 1 r2 SELECT 1;ask 0 r1 ;end 0 r1;ask 1 r2 y;begin 2 r1 'c' 8;ask 2 r1 z;
BAEBA. => begin 0 r1 'ann' 2;ask 0 r1 q;end 0 r1;begin 1 r1 'ann' 2;ask 1 r1 q;
PBPAEP.{"publish":"[[65 x]]"} => publish 0 t1;begin 0 r1 'ann' 2;publish 1 t1;ask 0 r1 q;end 0 r1;publish 2 t1;publish 3 [[65 x]];
."#;

/// Each line has its fault before a later one.
const FAULTS: &str = r#"{"begin":"r1","context":{"MyUId":2,"Name":"ann"} => line 1 json
~ => line 1 json
{"publish":""} => line 1 shape
{"publish":2}~{ => line 1 shape
{"publish":"t1","begin":"r1"} => line 1 shape
PA. => line 2 unbegun
BPC.{"ask":"t1","query":"q"} => line 4 unbegun
BPB. => line 3 begun
A. => line 1 unbegun
{"begin":"r1","context":{}} => line 1 context
{"begin":"r1","context":{"MyUId":2,"Name":"ann","X":1}} => line 1 context
{"begin":"r1","context":{"MyUid":2,"Name":"ann"}} => line 1 context
{"begin":"r1","context":{"MyUId":"2","Name":"ann"}} => line 1 context
.{"begin":"r1","context":{"MyUId":2.0,"Name":"ann"}} => line 1 context
{"begin":"r1","context":{"MyUId":9223372036854775808,"Name":"ann"}} => line 1 context
{"begin":"r1","context":{"MyUId":2,"Name":null}} => line 1 context
BB. => line 2 begun
B.{"begin":"r1","context":{}} => line 2 begun
B.{"begin":"r1","context":1} => line 2 shape
B.{"ask":"r2","query":1} => line 2 shape
{"begin":"mine","context":{"MyUId":2,"Name":"ann"}}~{"ask":"Mine","query":"q"} => line 2 unbegun
B.{"end":"r10"} => line 2 unbegun
BEE. => line 3 unbegun
BEA. => line 3 unbegun
BEE.{ => line 3 unbegun
BE.~{"end":"r1"} => line 3 json"#;

/// What is too much is told after the line's own faults.
const LIMITS: &str = r#"B[[256 A]]. => 257 entries
B[[257 A]].{ => {"fault":"limit","limit":256,"status":7,"what":"asks"}~
B[[256 A]].{ => line 258 json
B[[256 A]]F. => line 258 unbegun
B[[256 A]].{"ask":"r1","query":1} => line 258 shape
B[[256 A]]EB[[256 A]]. => 515 entries
BC[[256 AF]]. => 514 entries
BC[[256 AF]]F. => {"fault":"limit","limit":256,"status":7,"what":"asks"}~
[[8192 BE]]. => 16384 entries
[[8192 BE]]B. => {"fault":"limit","limit":8192,"status":7,"what":"requests"}~
[[8192 BE]].{"begin":"r1","context":{}} => line 16385 context
[[65536 P]]. => 65536 entries
[[65536 P]].{ => {"fault":"limit","limit":65536,"status":7,"what":"lines"}~
[[65536 ~]] => line 1 json
[[65536 ~]]{ => {"fault":"limit","limit":65536,"status":7,"what":"lines"}~"#;

#[test]
fn whole_scripts(rt: HostRuntime) -> Result<(), Fail> {
    all_are_so(&rt, &Scripts, SCRIPTS, "")?;
    all_are_so(&rt, &Scripts, FAULTS, "")
}

#[test]
fn limits_of_scripts(rt: HostRuntime) -> Result<(), Fail> {
    all_are_so(&rt, &Scripts, LIMITS, "")
}

/// Scripts that are printed, for a text `?Name` and a number `?MyUId`, and two keys.
struct Printed;

const KEYS: &str = "PARAM Name TEXT; PARAM MyUId INT;
CREATE KEY all () AS SELECT A FROM T;
CREATE KEY one (b TEXT, a INT) AS SELECT A FROM T WHERE A = ?a AND B = ?b;";

impl Reading for Printed {
    fn tell(&self, alloc: Global, text: &str, told: &mut String) -> Told {
        let text = with_lines(alloc, text)?;
        let schema = "CREATE TABLE T (A INT PRIMARY KEY, B TEXT NOT NULL);";
        let policy = policy_of(alloc, schema, KEYS)?;
        match read_script(alloc, &policy.params, &policy.keys, text.as_bytes()) {
            Ok(script) => {
                let printed = script_text(alloc, &policy.params, &policy.keys, &script)?;
                told.push_str(printed.as_str())
            }
            Err(Failure::NoMemory) => Err(AllocError),
            Err(Failure::Fault(fault)) => write_script_fault(alloc, fault, told),
        }
    }
}

/// Keys in the order of their bytes, without spaces.
const PRINTED: &str =
    r#"{ "context": {"Name":"\u0061\"","MyUId":-7}, "begin": "r1" }~{"query":"q\u000a","ask":"r1"} => {"begin":"r1","context":{"MyUId":-7,"Name":"a\""}}~{"ask":"r1","query":"q\n"}~
B.{"read":"r1","key":"one","args":{"b":"x","a":9223372036854775807}}~{"read":"r1","key":"all","args":{}} => {"begin":"r1","context":{"MyUId":2,"Name":"ann"}}~{"args":{"a":9223372036854775807,"b":"x"},"key":"one","read":"r1"}~{"args":{},"key":"all","read":"r1"}~
BE.{"publish":"t1"} => {"begin":"r1","context":{"MyUId":2,"Name":"ann"}}~{"end":"r1"}~{"publish":"t1"}~
. => "#;

#[test]
fn printed_scripts(rt: HostRuntime) -> Result<(), Fail> {
    all_are_so(&rt, &Printed, PRINTED, "")
}
