//! Texts that are no query: where their fault stands, and what would mend it.

use crate::given::Given;
use crate::page::Page;
use ba_hints::{Spot, question_hint};
use ba_place::Window;
use ba_sql_query::ReadQueryFault;
use std::alloc::{AllocError, Global};

// The characters of a line from a number on, as many as are said, and where others stand before
// them what stands for these.
fn part(
    alloc: Global,
    line: &str,
    from: usize,
    count: usize,
    front: &str,
) -> Result<String, AllocError> {
    let mut text = String::new(alloc);
    if from > 0 {
        text.push_str(front)?;
    }
    for c in line.chars().skip(from).take(count) {
        text.push(c)?;
    }
    Ok(text)
}

// The part of a window round its mark that has at most so many characters, with `..` where its line
// goes on.
fn narrowed(alloc: Global, window: Window, most: usize) -> Result<Window, AllocError> {
    let total = window.line.as_str().chars().count();
    if total <= most {
        return Ok(window);
    }
    let below = window.below.as_str();
    let before = below.len().saturating_sub(below.trim_start().len());
    let count = most.saturating_sub(4);
    let from = before
        .saturating_sub(count / 2)
        .min(total.saturating_sub(count));
    let below = part(alloc, below, from, count, "  ")?;
    let mut line = part(alloc, window.line.as_str(), from, count, "..")?;
    if total.saturating_sub(from) > count {
        line.push_str("..")?;
    }
    Ok(Window { line, below })
}

/// Says why a text reads as no query, behind a mark under the word where that is found.
pub fn tell_unread(
    page: &mut Page,
    given: &Given,
    query: &str,
    fault: &ReadQueryFault,
) -> Result<(), AllocError> {
    let policy = given.policy();
    let params = policy.params.as_slice();
    let hint = question_hint(page.alloc, &policy.schema, params, query, fault)?;
    if let Spot::Marked(mark) = hint.spot {
        let window = Window::of(page.alloc, query, mark)?;
        let window = narrowed(page.alloc, window, page.room(4))?;
        // (A longer text stands on several lines, or is cut.)
        if !page.is_line(4, query) {
            page.put_line(4, window.line.as_str())?;
        }
        page.put_line(4, window.below.as_str())?;
    }
    let text = format!(in page.alloc; "It isn't read: {}.", hint.text)?;
    page.say(2, text.as_str())
}
