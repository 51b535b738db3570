//! Values as literals.
ghost use Rattle.std.specs.Prelude.{◌≡◌, ◌++◌, ◌∷◌, IfOk, MatchOption, codes, string_bytes};
ghost use Rattle.ba_lex.specs.Spelling.{doubled};
ghost use Rattle.ba_lex.specs.Tokens.{HasNoQuote};
ghost use Rattle.ba_sql_print.specs.Printed.{value_text};

use ba_model::Value;
use std::alloc::{AllocError, Global};

fn split_at_quote(text: &str) -> Option<(&str, &str)>
    ensures { MatchOption result (HasNoQuote text.now)
        (λ parts. HasNoQuote parts.0.now × (text.now ≡ parts.0.now ++ 39 ∷ parts.1.now)) }
{
    text.split_once('\'')
}

/// A text whose quotes are doubled.
fn doubled(alloc: Global, text: &str) -> Result<String, AllocError>
    ensures { IfOk result (λ s. string_bytes s ≡ doubled text.now) }
{
    let mut found = String::new(alloc);
    let mut rest = text;
    while let Some((before, after)) = split_at_quote(rest) {
        found.push_str(before)?;
        found.push_str("''")?;
        rest = after;
    }
    found.push_str(rest)?;
    Ok(found)
}

fn quoted(alloc: Global, text: &str) -> Result<String, AllocError>
    ensures { IfOk result (λ s. string_bytes s ≡ codes "'" ++ (doubled text.now ++ codes "'")) }
{
    let inside = doubled(alloc, text)?;
    format!(in alloc; "'{inside}'")
}

/// A value as a literal.
#[tactic(auto, unfolding(crate::specs::Printed::value_text))]
pub fn value(alloc: Global, value: &Value) -> Result<String, AllocError>
    ensures { IfOk result (λ s. string_bytes s ≡ value_text value.now) }
{
    match value {
        Value::Null => String::from_str(alloc, "NULL"),
        Value::Int(n) => n.to_string(alloc),
        Value::Text(text) => quoted(alloc, text.as_str()),
    }
}
