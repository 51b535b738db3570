//! The line of an answer, written into one text.
ghost use Rattle.std.specs.Prelude.{◌≡◌, [], ◌∷◌, ◌++◌, IfOk, OnOk, decimal, string_bytes};
ghost use Rattle.json.specs.Lex.{tokens};
ghost use Rattle.json.specs.Print.{print};
ghost use Rattle.json.specs.Token.{key, number, string};
ghost use Rattle.ba_wire.specs.Printed.{ReadsBack, answer_json, json_line, row_words};
ghost use Rattle.ba_wire.specs.Appended.{Adds, Puts};

use crate::rows::{push_row, push_rows};
use ba_model::{List, Row, Str};
use json::Writer;
use std::alloc::{AllocError, Global};

/// Writes a member that is a text.
pub(crate) fn push_text_member(out: &mut Writer, name: &str, text: &str) -> Result<(), AllocError>
    ensures { OnOk result (Puts (key name.now ∷ string text.now ∷ []) out.old out.new) }
{
    out.key(name)?;
    out.string(text)
}

/// Writes a member that is a count.
pub(crate) fn push_count_member(out: &mut Writer, name: &str, count: u64) -> Result<(), AllocError>
    ensures { OnOk result (Puts (key name.now ∷ number (decimal count) ∷ []) out.old out.new) }
{
    out.key(name)?;
    out.u64(count)
}

/// Writes the object of an answer.
fn push_answer(
    out: &mut Writer,
    by: &str,
    line: u64,
    request: &Str,
    rows: &List<Row>,
    version: u32,
) -> Result<(), AllocError>
    ensures { OnOk result (Adds (answer_json by.now line request.now rows.now version) out.old out.new) }
{
    out.begin_object()?;
    push_text_member(out, "by", by)?;
    push_count_member(out, "line", line)?;
    push_text_member(out, "request", request.as_str())?;
    out.key("rows")?;
    push_rows(out, rows)?;
    push_count_member(out, "version", version as u64)?;
    out.end_object()
}

/// The text that was written.
fn text_of(out: Writer) -> String
    requires { out.before ≡ [] }
    ensures text { string_bytes result ≡ print out.tokens }
    ensures reads { tokens (print out.tokens) ≡ out.tokens }
{
    match String::from_utf8(out.into_inner()) {
        Ok(text) => text,
        Err(_) => unreachable!(),
    }
}

/// The row as compact JSON.
pub fn row_text(alloc: Global, row: &Row) -> Result<String, AllocError>
    ensures { IfOk result (λ s. string_bytes s ≡ row_words row.now) }
{
    let mut out = Writer::new(Vec::new(alloc));
    push_row(&mut out, row)?;
    Ok(text_of(out))
}

/// The text that was written, with a line feed.
pub(crate) fn line_of(out: Writer) -> Result<String, AllocError>
    requires { out.before ≡ [] }
    ensures text { IfOk result (λ s. string_bytes s ≡ print out.tokens ++ 10 ∷ []) }
    ensures reads { tokens (print out.tokens) ≡ out.tokens }
{
    let mut text = text_of(out);
    text.push('\n')?;
    Ok(text)
}

/// The line of an answer, with the answer's values copied nowhere but into the text.
pub fn answer_text(
    alloc: Global,
    by: &str,
    line: u64,
    request: &Str,
    rows: &List<Row>,
    version: u32,
) -> Result<String, AllocError>
    ensures text { IfOk result (λ s. string_bytes s
        ≡ json_line (answer_json by.now line request.now rows.now version)) }
    ensures reads_back { IfOk result (λ s.
        ReadsBack (string_bytes s) (answer_json by.now line request.now rows.now version)) }
{
    let mut out = Writer::new(Vec::new(alloc));
    push_answer(&mut out, by, line, request, rows, version)?;
    line_of(out)
}
