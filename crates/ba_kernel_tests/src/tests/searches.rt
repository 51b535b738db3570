//! Searches that are started from short texts, and lines that say what comes of their steps.
//!
//! A scene is its title, the text of a problem, `=>` and lines. A line is what is asked and what is
//! told of it: after a step `ok` or its fault; after `branch` and a number the branch as it is spelled,
//! or `-` where none of the number is open; after `mappings`, a side and a part the live mappings of the
//! part to facts of the side in branch 0, each with its facts, and behind `?` the first atom that isn't
//! shown. The last line may be `proof` and the number of steps by which the search is proved; without it
//! a branch has to be open.

use super::given::problem;
use super::policies::part;
use super::spelled::spelled;
use super::steps::step;
use super::words::{Handle, number};
use ba_facts::{Mapping, Side};
use ba_kernel::{Search, Step};
use ba_model::{Failure, MAX_STEPS};

/// How many steps were taken, and the branches.
fn all(rt: &impl Handle, search: &Search) -> String {
    let steps = search.steps().len();
    let mut text = format!(in rt.alloc(); "{steps}").expect(rt, "memory");
    for n in 0..search.branches() {
        let branch = spelled(rt, search.branch(n));
        text.push_str("\n").expect(rt, "memory");
        text.push_str(branch.as_str()).expect(rt, "memory");
    }
    text
}

/// Takes the step and tells `ok`, or its fault. Ends the process where the search isn't as it was before
/// then.
fn told_taken(rt: &impl Handle, search: &mut Search, step: Step) -> String {
    assert!(rt; (search.steps().len() as u64) < MAX_STEPS, "few steps");
    let before = all(rt, search);
    let told = match search.apply(rt.alloc(), step) {
        Ok(()) => return format!(in rt.alloc(); "ok").expect(rt, "memory"),
        Err(Failure::Fault(fault)) => format!(in rt.alloc(); "{fault:?}"),
        Err(Failure::NoMemory) => panic!(rt; "memory"),
    };
    assert!(rt; all(rt, search) == before, "as before");
    told.expect(rt, "memory")
}

fn mapping(rt: &impl Handle, mapping: &Mapping) -> String {
    let facts = mapping.facts.as_slice();
    let told = match mapping.undecided {
        Some(n) => format!(in rt.alloc(); " {facts:?}?{n}"),
        None => format!(in rt.alloc(); " {facts:?}"),
    };
    told.expect(rt, "memory")
}

/// Tells the live mappings of a part in branch 0, or nothing where it isn't open.
fn mappings(rt: &impl Handle, search: &Search, text: &str) -> String {
    let (side, text) = text.split_once(" | ").unwrap_or((text, ""));
    let side = if side == "Two" { Side::Two } else { Side::One };
    let mut told = String::new(rt.alloc());
    let Some(branch) = search.branch(0) else {
        return told;
    };
    let found = branch.matches(rt.alloc(), &part(rt, text), side);
    for it in found.expect(rt, "memory").as_slice() {
        told.push_str(mapping(rt, it).as_str()).expect(rt, "memory");
    }
    told
}

/// Tells what is asked.
fn told(rt: &impl Handle, search: &mut Search, asked: &str) -> String {
    if let Some(digits) = asked.strip_prefix("branch ") {
        return spelled(rt, search.branch(number(digits)));
    }
    if let Some(text) = asked.strip_prefix("mappings ") {
        return mappings(rt, search, text);
    }
    told_taken(rt, search, step(rt, asked))
}

/// How many steps prove the search's problem, if no branch is open.
fn proof(search: Search) -> Option<usize> {
    match search.close() {
        Ok(proved) => Some(proved.steps().len()),
        Err(_) => None,
    }
}

fn play(rt: &impl Handle, scene: &str) {
    let (title, scene) = scene.split_once('\n').unwrap_or((scene, ""));
    let (given, lines) = scene.split_once("\n=>\n").unwrap_or((scene, ""));
    let (lines, steps) = lines.split_once("\nproof: ").unwrap_or((lines, "none"));
    let mut search = Search::start(rt.alloc(), problem(rt, given)).expect(rt, "memory");
    for line in lines.lines() {
        let (asked, wanted) = line.split_once(": ").unwrap_or((line, ""));
        let told = told(rt, &mut search, asked);
        assert!(rt; told.as_str().trim() == wanted, "{title} {line} ({told})");
    }
    assert!(rt;
        proof(search) == steps.parse::<usize>().ok(),
        "{title} {steps}"
    );
}

/// Plays the scenes, which have empty lines between them.
pub fn play_all(rt: &impl Handle, scenes: &str) {
    for scene in scenes.split("\n\n") {
        play(rt, scene);
    }
}
