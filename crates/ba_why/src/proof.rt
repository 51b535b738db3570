//! Answers by a proof, and by the template of one.

use crate::derivation::tell_derivation;
use crate::given::Given;
use crate::page::Page;
use crate::scene::Scene;
use ba_cache::Admit;
use ba_kernel::Step;
use ba_lanes::{Entry, Journal};
use ba_model::{List, Query, Shared};
use ba_session::{By, Keeping, KeyReply, Reply};
use ba_template::{Match, Shape};
use std::alloc::{AllocError, Global};

// What a proof speaks of.
const PREMISE: &str =
    "Take any two databases of the schema where each row that a view shows of the first it shows of the second too, and where the first \
     gives the earlier questions the rows that were told. Where the question gives a row in the first (x1, x2, .. stand for values):";

// What it comes to, since each of two such databases may be the first.
const END: &str =
    "So all databases of the schema where the views show the same and the earlier questions have the same answers give this question one answer.";

/// Tells the steps of a proof, and what became of its template.
pub fn tell_proof(
    page: &mut Page,
    given: &Given,
    scene: &Scene,
    query: &Shared<Query>,
    steps: &List<Step>,
    keeping: Keeping,
) -> Result<(), AllocError> {
    page.say(2, PREMISE)?;
    tell_derivation(page, given, scene, query, steps.as_slice())?;
    page.say(2, END)?;
    tell_keeping(page, query, keeping)
}

// Says what became of the template of a question's proof.
fn tell_keeping(page: &mut Page, query: &Query, keeping: Keeping) -> Result<(), AllocError> {
    let alloc = page.alloc;
    match keeping {
        Keeping::Stored(Admit::Added(id)) => {
            let shard = shard_of(alloc, query)?;
            let text = format!(in alloc;
                "Made general, it is kept as template {id} of shard {shard}."
            )?;
            page.say(2, text.as_str())
        }
        Keeping::Stored(Admit::Known(id)) => {
            let shard = shard_of(alloc, query)?;
            let text = format!(in alloc;
                "Made general, it is template {id} of shard {shard}, which was kept before."
            )?;
            page.say(2, text.as_str())
        }
        Keeping::Wide => page.say(2, "It is too wide to be made general."),
        Keeping::NoMemory => page.say(2, "There was no memory to make it general or to keep it."),
    }
}

// The shard that keeps templates of a question's shape.
fn shard_of(alloc: Global, query: &Query) -> Result<u32, AllocError> {
    let shape = Shape::of(alloc, &[], query)?;
    Ok(shape.shard())
}

/// Says which template answers a question, and on which earlier answers it rests.
pub fn tell_template(
    page: &mut Page,
    journal: &Journal,
    scene: &Scene,
    shard: u32,
    id: u32,
    found: &Match,
) -> Result<(), AllocError> {
    let alloc = page.alloc;
    let maker = maker_of(alloc, journal, shard, id)?;
    let text = match maker {
        Some(line) => {
            format!(in alloc;
                "Template {id} of shard {shard}, made of the proof at line {line}, proves it with its values."
            )?
        }
        None => {
            format!(in alloc;
                "Template {id} of shard {shard}, with which the run began, proves it with its values."
            )?
        }
    };
    page.say(2, text.as_str())?;
    tell_places(page, scene, found)
}

// Says on which rows of earlier answers a match rests.
fn tell_places(page: &mut Page, scene: &Scene, found: &Match) -> Result<(), AllocError> {
    if found.places.len() == 0 {
        return page.say(2, "It rests on the views alone, and on no earlier answer.");
    }
    page.say(2, "It rests on these earlier answers:")?;
    for (answer, row) in found.places.as_slice() {
        let told = scene.told(page.alloc, *answer, *row)?;
        page.say(4, told.as_str())?;
    }
    Ok(())
}

// The line of the proof of which a template was made.
fn maker_of(
    alloc: Global,
    journal: &Journal,
    shard: u32,
    id: u32,
) -> Result<Option<usize>, AllocError> {
    for (place, entry) in journal.entries.as_slice().iter().enumerate() {
        let is_maker = is_maker(alloc, entry, shard, id)?;
        if is_maker {
            return Ok(Some(place.saturating_add(1)));
        }
    }
    Ok(None)
}

// Whether the proof of which a template was made is there.
fn is_maker(alloc: Global, entry: &Entry, shard: u32, id: u32) -> Result<bool, AllocError> {
    match entry {
        Entry::Ask {
            reply: Reply::Answer { query, by, .. },
            ..
        } => is_proof_of(alloc, query, by, shard, id),
        Entry::Read {
            reply: KeyReply::Allowed { queries, by },
            ..
        } => has_proof_of(alloc, queries, by.as_slice(), shard, id),
        Entry::Read {
            reply: KeyReply::Blocked {
                queries,
                before,
                ..
            },
            ..
        } => has_proof_of(alloc, queries, before.as_slice(), shard, id),
        _ => Ok(false),
    }
}

// Whether the proof of which a template was made is among those of a read's queries.
fn has_proof_of(
    alloc: Global,
    queries: &List<Shared<Query>>,
    grounds: &[By],
    shard: u32,
    id: u32,
) -> Result<bool, AllocError> {
    for (place, by) in grounds.iter().enumerate() {
        if let Some(query) = queries.find(place) {
            let is_it = is_proof_of(alloc, query, by, shard, id)?;
            if is_it {
                return Ok(true);
            }
        }
    }
    Ok(false)
}

// Whether it is the proof of which a template was made.
fn is_proof_of(
    alloc: Global,
    query: &Query,
    by: &By,
    shard: u32,
    id: u32,
) -> Result<bool, AllocError> {
    let By::Proof(_, Keeping::Stored(Admit::Added(added))) = by else {
        return Ok(false);
    };
    if *added != id {
        return Ok(false);
    }
    let other = shard_of(alloc, query)?;
    Ok(other == shard)
}
