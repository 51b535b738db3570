//! The replies of a journal, each in words.

use crate::cover::tell_cover;
use crate::given::Given;
use crate::page::Page;
use crate::proof::{tell_proof, tell_template};
use crate::refuted::tell_refuted;
use crate::scene::Scene;
use crate::text::{context_text, key_name, query_sql};
use crate::undecided::{tell_spent, tell_stuck};
use crate::unread::tell_unread;
use ba_lanes::{Entry, Journal};
use ba_model::{List, Query, Shared, Str};
use ba_script::ScriptEntry;
use ba_session::{By, KeyReply, Reply, Why};
use std::alloc::AllocError;

/// Explains the reply at a place of the script, and gives whether a question stands there or a read
/// of a cache key.
pub fn tell(
    page: &mut Page,
    given: &Given,
    journal: &Journal,
    place: usize,
) -> Result<bool, AllocError> {
    match given.script().entries.find(place) {
        Some(
            ScriptEntry::Ask {
                request,
                name,
                query,
            },
        ) => {
            let scene = Scene::at(page.alloc, given.script(), journal, *request, place)?;
            tell_asked(page, given, journal, &scene, place, name, query)
        }
        Some(
            ScriptEntry::Read {
                request,
                name,
                key,
                ..
            },
        ) => {
            let scene = Scene::at(page.alloc, given.script(), journal, *request, place)?;
            tell_key(page, given, journal, &scene, place, name, *key)
        }
        _ => Ok(false),
    }
}

// Explains the reply to a question of that name and text at a place.
fn tell_asked(
    page: &mut Page,
    given: &Given,
    journal: &Journal,
    scene: &Scene,
    place: usize,
    name: &Str,
    query: &Str,
) -> Result<bool, AllocError> {
    let context = context_text(page.alloc, given.policy(), &scene.context)?;
    match journal.entries.find(place) {
        Some(Entry::Ask { reply, .. }) => {
            tell_head(page, place, name, context.as_str(), verdict(reply), query)?;
            tell_reply(page, given, journal, scene, query.as_str(), reply)?;
        }
        _ => {
            tell_head(page, place, name, context.as_str(), "no memory", query)?;
            page.say(2, "There was no memory for it.")?;
        }
    }
    Ok(true)
}

// Explains the reply to a read of the cache key of that number at a place, by a request of that
// name.
fn tell_key(
    page: &mut Page,
    given: &Given,
    journal: &Journal,
    scene: &Scene,
    place: usize,
    name: &Str,
    number: usize,
) -> Result<bool, AllocError> {
    let context = context_text(page.alloc, given.policy(), &scene.context)?;
    let key = key_name(given.policy(), number);
    let line = place.saturating_add(1);
    match journal.entries.find(place) {
        Some(Entry::Read { reply, .. }) => {
            let verdict = key_verdict(reply);
            let text = format!(in page.alloc;
                "line {line}, request {name}{context}: read of key {key}, {verdict}"
            )?;
            page.say(0, text.as_str())?;
            tell_read(page, given, journal, scene, reply)?;
        }
        _ => {
            let text = format!(in page.alloc;
                "line {line}, request {name}{context}: read of key {key}, no memory"
            )?;
            page.say(0, text.as_str())?;
            page.say(2, "There was no memory for it.")?;
        }
    }
    Ok(true)
}

// What became of a read, in a word or two.
fn key_verdict(reply: &KeyReply) -> &'static str {
    match reply {
        KeyReply::Allowed { .. } => "let through",
        KeyReply::Blocked { why, .. } => block_verdict(why),
        KeyReply::NoMemory => "no memory",
    }
}

// Says why each query of a read may be answered, up to the one that may not.
fn tell_read(
    page: &mut Page,
    given: &Given,
    journal: &Journal,
    scene: &Scene,
    reply: &KeyReply,
) -> Result<(), AllocError> {
    match reply {
        KeyReply::Allowed { queries, by } => {
            tell_grounds(page, given, journal, scene, queries, by.as_slice())
        }
        KeyReply::Blocked {
            queries,
            before,
            why,
        } => {
            tell_grounds(page, given, journal, scene, queries, before.as_slice())?;
            let Some(query) = queries.find(before.len()) else {
                return Ok(());
            };
            say_query(page, given, before.len(), query, block_verdict(why))?;
            tell_block(page, given, scene, query, why)
        }
        KeyReply::NoMemory => page.say(2, "There was no memory for it."),
    }
}

// Says what became of a key's query, whose number is that place's, with its arguments.
fn say_query(
    page: &mut Page,
    given: &Given,
    place: usize,
    query: &Query,
    verdict: &str,
) -> Result<(), AllocError> {
    let number = place.saturating_add(1);
    let text = format!(in page.alloc; "Query {number} of the key, {verdict}:")?;
    page.say(2, text.as_str())?;
    let sql = query_sql(page.alloc, given.policy(), query)?;
    page.say(4, sql.as_str())
}

// Says why these queries of a read may be answered.
fn tell_grounds(
    page: &mut Page,
    given: &Given,
    journal: &Journal,
    scene: &Scene,
    queries: &List<Shared<Query>>,
    grounds: &[By],
) -> Result<(), AllocError> {
    for (place, by) in grounds.iter().enumerate() {
        if let Some(query) = queries.find(place) {
            say_query(page, given, place, query, ground_verdict(by))?;
            tell_ground(page, given, journal, scene, None, query, by)?;
        }
    }
    Ok(())
}

// What became of a question, in a word or two.
fn verdict(reply: &Reply) -> &'static str {
    match reply {
        Reply::Answer { by, .. } => ground_verdict(by),
        Reply::Blocked { why, .. } => block_verdict(why),
        Reply::Unread(_) => "unread",
        Reply::NoMemory => "no memory",
    }
}

fn ground_verdict(by: &By) -> &'static str {
    match by {
        By::Cover(_) => "answered by cover",
        By::Template { .. } => "answered by template",
        By::Proof(_, _) => "answered by proof",
    }
}

fn block_verdict(why: &Why) -> &'static str {
    match why {
        Why::Refuted(_) => "blocked, refuted",
        Why::Spent(_) => "blocked, spent",
        Why::Stuck(_, _) => "blocked, stuck",
    }
}

// Says which question of which line is explained, and what became of it.
fn tell_head(
    page: &mut Page,
    place: usize,
    name: &Str,
    context: &str,
    verdict: &str,
    query: &Str,
) -> Result<(), AllocError> {
    let line = place.saturating_add(1);
    let text = format!(in page.alloc; "line {line}, request {name}{context}: {verdict}")?;
    page.say(0, text.as_str())?;
    page.say(4, query.as_str())
}

// Says why that became of it.
fn tell_reply(
    page: &mut Page,
    given: &Given,
    journal: &Journal,
    scene: &Scene,
    question: &str,
    reply: &Reply,
) -> Result<(), AllocError> {
    match reply {
        Reply::Answer { query, by, .. } => {
            tell_ground(page, given, journal, scene, Some(question), query, by)
        }
        Reply::Blocked { query, why } => tell_block(page, given, scene, query, why),
        Reply::Unread(fault) => tell_unread(page, given, question, fault),
        Reply::NoMemory => page.say(2, "There was no memory for it."),
    }
}

// Says why a query may be answered; `question` is its text, if it is that of a question.
fn tell_ground(
    page: &mut Page,
    given: &Given,
    journal: &Journal,
    scene: &Scene,
    question: Option<&str>,
    query: &Shared<Query>,
    by: &By,
) -> Result<(), AllocError> {
    match by {
        By::Cover(cover) => tell_cover(page, given, question, cover),
        By::Template {
            shard,
            id,
            found,
            ..
        } => tell_template(page, journal, scene, *shard, *id, found),
        By::Proof(steps, keeping) => tell_proof(page, given, scene, query, steps, *keeping),
    }
}

// Says why a query may not be answered.
fn tell_block(
    page: &mut Page,
    given: &Given,
    scene: &Scene,
    query: &Shared<Query>,
    why: &Why,
) -> Result<(), AllocError> {
    match why {
        Why::Refuted(pair) => tell_refuted(page, given, scene, pair),
        Why::Spent(steps) => tell_spent(page, given, scene, query, steps),
        Why::Stuck(leaf, clause) => tell_stuck(page, given, leaf, *clause),
    }
}
