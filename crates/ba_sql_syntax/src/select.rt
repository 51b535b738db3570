//! One select.
ghost use Rattle.std.specs.Prelude.{◌≡◌, ◌∷◌, [], ◌++◌, IfOk};
ghost use Rattle.ba_model.specs.Readings.{Sees};
ghost use Rattle.ba_sql_syntax.specs.Reader.{and_also, cross_source, free_source, has_source, heads_at, is_all_of, item_at, joined, next_source, on_source, select_at, source_at, sources_at, where_at};

use crate::condition::condition;
use crate::front::{begins_with, name, past, skip};
use crate::side::{alias, side};
use crate::word::{Key, Terminal};
use crate::written::{Heads, Item, Node, Select, Source};
use ba_grammar::{Element, Signed, Syntax, begins_with_sign, listed, past_sign};
use ba_lex::Sign;
use ba_model::{Failure, List};
use std::alloc::{AllocError, Global};

/// A condition AND one more; the first may be empty.
fn and_also(first: List<Node>, more: List<Node>) -> Result<List<Node>, AllocError>
    ensures { IfOk result (λ nodes. nodes ≡ and_also first more) }
{
    if first.len() == 0 {
        return Ok(more);
    }
    let mut nodes = first.into_vec();
    let mut more = more.into_vec();
    nodes.append(&mut more)?;
    nodes.push(Node::And)?;
    Ok(List::from_vec(nodes))
}

/// Whether `.*` stands behind the first word.
fn is_all_of(words: &[Terminal]) -> bool
    ensures { result ≡ is_all_of words.now }
{
    match words {
        [_, second, third, ..] => second.has_sign(Sign::Dot) && third.has_sign(Sign::Star),
        _ => false,
    }
}

impl Element<Terminal> for Item {
    ghost read_at = { item_at };

    #[tactic(auto, unfolding(crate::specs::Reader::item_at))]
    fn read(alloc: Global, words: &[Terminal]) -> Result<(Item, &[Terminal]), Failure<Syntax>> {
        if is_all_of(words) {
            let (source, rest) = name(alloc, words)?;
            let rest = past_sign(rest, Sign::Dot)?;
            let rest = past_sign(rest, Sign::Star)?;
            return Ok((Item::AllOf(source), rest));
        }
        let (side, rest) = side(alloc, words)?;
        let (_, rest) = alias(alloc, rest)?;
        Ok((Item::One(side), rest))
    }
}

/// `*`, or items with commas between them.
#[tactic(auto, unfolding(crate::specs::Reader::heads_at))]
fn heads(alloc: Global, words: &[Terminal]) -> Result<(Heads, &[Terminal]), Failure<Syntax>>
    ensures { Sees (λ x. (x.0, x.1.now)) result (heads_at words.now) }
{
    if begins_with_sign(words, Sign::Star) {
        let rest = past_sign(words, Sign::Star)?;
        return Ok((Heads::All, rest));
    }
    let (items, rest) = listed::<Terminal, Item>(alloc, words)?;
    Ok((Heads::Items(items), rest))
}

/// A table, with a name of its own or without.
#[tactic(auto, unfolding(crate::specs::Reader::source_at))]
fn source(alloc: Global, words: &[Terminal]) -> Result<(Source, &[Terminal]), Failure<Syntax>>
    ensures { Sees (λ x. (x.0, x.1.now)) result (source_at words.now) }
{
    let (table, rest) = name(alloc, words)?;
    let (alias, rest) = alias(alloc, rest)?;
    Ok((Source { table, alias }, rest))
}

/// The sources so far, and the conditions behind ON, joined by AND.
#[derive(Drop)]
struct Joined {
    sources: List<Source>,
    condition: List<Node>,
}

/// A source without a condition of its own.
#[tactic(auto, unfolding(crate::specs::Reader::free_source))]
fn free_source(
    alloc: Global,
    mut so_far: Joined,
    words: &[Terminal],
) -> Result<(Joined, &[Terminal]), Failure<Syntax>>
    ensures { Sees (λ x. joined x.0.sources x.0.condition x.1.now) result
        (free_source so_far.sources so_far.condition words.now) }
{
    let (source, rest) = source(alloc, words)?;
    so_far.sources.push(source)?;
    Ok((so_far, rest))
}

/// JOIN, a source, ON and a condition.
#[tactic(auto, unfolding(crate::specs::Reader::on_source))]
fn on_source(
    alloc: Global,
    so_far: Joined,
    words: &[Terminal],
) -> Result<(Joined, &[Terminal]), Failure<Syntax>>
    ensures { Sees (λ x. joined x.0.sources x.0.condition x.1.now) result
        (on_source so_far.sources so_far.condition words.now) }
{
    let Joined {
        mut sources,
        condition: first,
    } = so_far;
    let rest = past(words, Key::Join)?;
    let (source, rest) = source(alloc, rest)?;
    let rest = past(rest, Key::On)?;
    let (more, rest) = condition(alloc, rest)?;
    sources.push(source)?;
    let condition = and_also(first, more)?;
    Ok((Joined { sources, condition }, rest))
}

#[tactic(auto, unfolding(crate::specs::Reader::cross_source))]
fn cross_source(
    alloc: Global,
    so_far: Joined,
    words: &[Terminal],
) -> Result<(Joined, &[Terminal]), Failure<Syntax>>
    ensures { Sees (λ x. joined x.0.sources x.0.condition x.1.now) result
        (cross_source so_far.sources so_far.condition words.now) }
{
    let rest = past(words, Key::Cross)?;
    let rest = past(rest, Key::Join)?;
    free_source(alloc, so_far, rest)
}

#[tactic(auto, unfolding(crate::specs::Reader::next_source))]
fn next_source(
    alloc: Global,
    so_far: Joined,
    words: &[Terminal],
) -> Result<(Joined, &[Terminal]), Failure<Syntax>>
    ensures { Sees (λ x. joined x.0.sources x.0.condition x.1.now) result
        (next_source so_far.sources so_far.condition words.now) }
{
    if begins_with_sign(words, Sign::Comma) {
        let rest = past_sign(words, Sign::Comma)?;
        return free_source(alloc, so_far, rest);
    }
    if begins_with(words, Key::Cross) {
        return cross_source(alloc, so_far, words);
    }
    on_source(alloc, so_far, skip(words, Key::Inner))
}

/// Whether another source comes next.
#[tactic(auto, unfolding(crate::specs::Reader::has_source))]
fn has_source(words: &[Terminal]) -> bool
    ensures { result ≡ has_source words.now }
{
    begins_with_sign(words, Sign::Comma)
        || begins_with(words, Key::Cross)
        || begins_with(words, Key::Inner)
        || begins_with(words, Key::Join)
}

#[tactic(auto, unfolding(crate::specs::Reader::sources_at))]
fn sources(alloc: Global, words: &[Terminal]) -> Result<(Joined, &[Terminal]), Failure<Syntax>>
    ensures { Sees (λ x. joined x.0.sources x.0.condition x.1.now) result (sources_at words.now) }
{
    let (first, behind) = source(alloc, words)?;
    let mut sources = List::new(alloc);
    sources.push(first)?;
    let mut so_far = Joined {
        sources,
        condition: List::new(alloc),
    };
    let mut rest = behind;
    for _ in 0..words.len() {
        if !has_source(rest) {
            return Ok((so_far, rest));
        }
        let (next, behind) = next_source(alloc, so_far, rest)?;
        so_far = next;
        rest = behind;
    }
    Ok((so_far, rest))
}

/// WHERE and a condition, or nothing, behind other conditions.
#[tactic(auto, unfolding(crate::specs::Reader::where_at))]
fn where_condition(
    alloc: Global,
    first: List<Node>,
    words: &[Terminal],
) -> Result<(List<Node>, &[Terminal]), Failure<Syntax>>
    ensures { Sees (λ x. (x.0, x.1.now)) result (where_at first words.now) }
{
    if !begins_with(words, Key::Where) {
        return Ok((first, words));
    }
    let rest = past(words, Key::Where)?;
    let (more, rest) = condition(alloc, rest)?;
    let nodes = and_also(first, more)?;
    Ok((nodes, rest))
}

/// SELECT, heads, FROM, sources, and a condition or none.
#[tactic(auto, unfolding(crate::specs::Reader::select_at))]
pub fn select(alloc: Global, words: &[Terminal]) -> Result<(Select, &[Terminal]), Failure<Syntax>>
    ensures { Sees (λ x. (x.0, x.1.now)) result (select_at words.now) }
{
    let rest = past(words, Key::Select)?;
    let (heads, rest) = heads(alloc, skip(rest, Key::Distinct))?;
    let rest = past(rest, Key::From)?;
    let (joined, rest) = sources(alloc, rest)?;
    let Joined {
        sources,
        condition: first,
    } = joined;
    let (condition, rest) = where_condition(alloc, first, rest)?;
    let select = Select {
        heads,
        sources,
        condition,
    };
    Ok((select, rest))
}
