//! Shelves, call by call.

use super::templates::template;
use ba_cache::{Admit, Shelf};
use ba_turn::Storied;
use std::alloc::{AllocError, Global};
use std::fmt::Write;
use std::test::Fail;

/// Admits the template of that width and number, and writes the answer.
fn admit(
    alloc: Global,
    shelf: &mut Shelf,
    width: u32,
    number: i64,
    text: &mut String,
) -> Result<(), AllocError> {
    shelf.reserve(1)?;
    match shelf.admit(template(alloc, width, number)?)? {
        Admit::Added(id) => write!(text, "added {id}; ")?,
        Admit::Known(id) => write!(text, "known {id}; ")?,
    }
    Ok(())
}

/// Looks at the shape of that width, and writes the ids that are found.
fn look(alloc: Global, shelf: &mut Shelf, width: u32, text: &mut String) -> Result<(), AllocError> {
    shelf.reserve(1)?;
    let of = template(alloc, width, 1)?;
    let found = shelf.look(of.shape())?;
    text.push_str("found")?;
    for kept in found.templates.as_slice() {
        write!(text, " {}", kept.id)?;
    }
    text.push_str("; ")
}

/// A template that is admitted twice, and found until 128 other shapes were admitted.
fn evicted(alloc: Global) -> Result<String, AllocError> {
    let mut shelf = Shelf::new(alloc)?;
    let mut text = String::new(alloc);
    admit(alloc, &mut shelf, 1, 1, &mut text)?;
    admit(alloc, &mut shelf, 1, 1, &mut text)?;
    look(alloc, &mut shelf, 1, &mut text)?;
    let mut rest = String::new(alloc);
    for width in 2..130 {
        admit(alloc, &mut shelf, width, 1, &mut rest)?;
    }
    look(alloc, &mut shelf, 1, &mut text)?;
    Ok(text)
}

#[test]
fn shelf_knows_and_evicts(rt: HostRuntime) -> Result<(), Fail> {
    let text = evicted(rt.alloc())?;
    assert_eq!(rt; text.as_str(), "added 0; known 0; found 0; found; ");
    Ok(())
}

/// Nine templates of one shape, of which the first is then no longer known.
fn ninth(alloc: Global) -> Result<String, AllocError> {
    let mut shelf = Shelf::new(alloc)?;
    let mut text = String::new(alloc);
    let mut first = String::new(alloc);
    for number in 1..10 {
        admit(alloc, &mut shelf, 1, number, &mut first)?;
    }
    look(alloc, &mut shelf, 1, &mut text)?;
    admit(alloc, &mut shelf, 1, 9, &mut text)?;
    admit(alloc, &mut shelf, 1, 1, &mut text)?;
    Ok(text)
}

#[test]
fn ninth_template_drops_the_oldest(rt: HostRuntime) -> Result<(), Fail> {
    let text = ninth(rt.alloc())?;
    assert_eq!(rt; text.as_str(), "found 1 2 3 4 5 6 7 8; known 8; added 9; ");
    Ok(())
}
