//! Answers by cover: which view shows which part of the question.

use crate::given::Given;
use crate::page::Page;
use crate::text::view_sql;
use ba_direct::{Cover, PartCover};
use ba_hints::view_name;
use ba_model::List;
use ba_sql_print::print_query;
use ba_sql_query::read_query;
use std::alloc::AllocError;

/// Says which views cover a query; `question` is its text, if it is that of a question.
pub fn tell_cover(
    page: &mut Page,
    given: &Given,
    question: Option<&str>,
    cover: &Cover,
) -> Result<(), AllocError> {
    let count = cover.parts.len();
    if let Some(question) = question
        && count > 1
    {
        tell_parts(page, given, question)?;
    }
    for (number, part) in cover.parts.as_slice().iter().enumerate() {
        tell_part(page, given, part, number, count)?;
    }
    let end = if count > 1 {
        "Each row of the answer comes from a row that one of these views shows."
    } else {
        "Each row of the answer comes from a row that the view shows."
    };
    page.say(2, end)
}

// Says as which union of parts a question is read.
fn tell_parts(page: &mut Page, given: &Given, question: &str) -> Result<(), AllocError> {
    let policy = given.policy();
    let Ok(query) = read_query(page.alloc, &policy.schema, &policy.params, question) else {
        return Ok(());
    };
    let sql = print_query(page.alloc, &policy.schema, &policy.params, &query)?;
    page.say(2, "It is read as a union of parts:")?;
    page.say(4, sql.as_str())
}

// Says which view covers a part, of so many.
fn tell_part(
    page: &mut Page,
    given: &Given,
    part: &PartCover,
    number: usize,
    count: usize,
) -> Result<(), AllocError> {
    let alloc = page.alloc;
    let name = view_name(given.policy(), part.view);
    let text = if count > 1 {
        let number = number.saturating_add(1);
        format!(in alloc; "View {name} covers part {number}:")?
    } else {
        format!(in alloc; "View {name} covers it:")?
    };
    page.say(2, text.as_str())?;
    let sql = view_sql(alloc, given.policy(), part.view)?;
    page.say(4, sql.as_str())?;
    tell_pairing(page, &part.places)
}

// Says which tables of the question, from 1, those of the view are, where there are several.
fn tell_pairing(page: &mut Page, places: &List<usize>) -> Result<(), AllocError> {
    if places.len() <= 1 {
        return Ok(());
    }
    let mut texts = Vec::new(page.alloc);
    for place in places.as_slice() {
        let text = place.saturating_add(1).to_string(page.alloc)?;
        texts.push(text)?;
    }
    let places = texts.join(page.alloc, ", ")?;
    let text = format!(in page.alloc;
        "whose tables, in this order, are the question's tables {places}"
    )?;
    page.say(4, text.as_str())
}
