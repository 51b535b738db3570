//! Steps by keys that tell only of unknowns of which nothing was learned before.
ghost use Rattle.std.specs.Prelude.{All, IfOk, IsTrue};
ghost use Rattle.ba_facts.specs.Known.{OneClass};
ghost use Rattle.ba_instant.specs.QuietKeys.{AreOne, AreQuietMoves, ColumnsStay, FactStays, IsFilledBy, IsFree, IsQuietKey, LessonStays, stand_in};

use crate::asked::is_left;
use crate::moves::{Move, are_unmoved, cell, is_unmoved, is_unmoved_if, stand_in};
use ba_facts::{Branch, Fact, Knowledge, Lesson, Side, Term};
use ba_kernel::Problem;
use ba_model::{Duplicate, Table};
use std::alloc::{AllocError, Global};

/// Whether the step by a key of the two facts tells only of unknowns that stand in nothing that was
/// learned, and on side Two alone, in no column of a key or a link, where neither the question nor
/// a rule asks for them. No other step does.
pub fn is_quiet_key(
    alloc: Global,
    problem: &Problem,
    branch: &Branch,
    left: u32,
    right: u32,
) -> Result<bool, AllocError>
    ensures { IfOk result (λ it. IsTrue it → IsQuietKey problem.now branch.now left right) }
{
    let Some(f) = branch.facts.find(left as usize) else {
        return Ok(false);
    };
    let Some(g) = branch.facts.find(right as usize) else {
        return Ok(false);
    };
    let moves = moves_of(alloc, &branch.known, f.terms.as_slice(), g.terms.as_slice())?;
    Ok(
        are_quiet(problem, branch, &moves)
            && are_one(
                &branch.known,
                &moves,
                f.terms.as_slice(),
                g.terms.as_slice(),
            ),
    )
}

/// For each two terms of a column that aren't of one class the move of one of which nothing was
/// learned to the other.
fn moves_of(
    alloc: Global,
    known: &Knowledge,
    left: &[Term],
    right: &[Term],
) -> Result<Vec<Move>, AllocError> {
    let mut moves = Vec::new(alloc);
    for (a, b) in left.iter().zip(right) {
        if !known.one_class(a.by_ref(), b.by_ref()) {
            add_move(alloc, known, a, b, &mut moves)?;
        }
    }
    Ok(moves)
}

/// Adds a move of one of the two terms to the other, if nothing was learned of it.
fn add_move(
    alloc: Global,
    known: &Knowledge,
    a: &Term,
    b: &Term,
    moves: &mut Vec<Move>,
) -> Result<(), AllocError> {
    if let Some(unknown) = unlearned(known, a) {
        let term = b.copy(alloc)?;
        moves.push(Move { unknown, term })?;
    } else if let Some(unknown) = unlearned(known, b) {
        let term = a.copy(alloc)?;
        moves.push(Move { unknown, term })?;
    }
    Ok(())
}

/// The number of the term, if it is an unknown of which nothing was learned.
fn unlearned(known: &Knowledge, term: &Term) -> Option<u32> {
    match term {
        Term::Unknown(n) if known.learned().iter().all(|lesson| avoids(lesson, *n)) => Some(*n),
        _ => None,
    }
}

fn avoids(lesson: &Lesson, unknown: u32) -> bool {
    match lesson {
        Lesson::Same(a, b) => is_other(a, unknown) && is_other(b, unknown),
        Lesson::Holds(atom) => is_other(&atom.left, unknown) && is_other(&atom.right, unknown),
    }
}

fn is_other(term: &Term, unknown: u32) -> bool {
    match term {
        Term::Unknown(n) => *n != unknown,
        _ => true,
    }
}

/// Whether the moved unknowns stand in nothing that was learned, not in the goal row, and on side
/// Two alone, where nothing asks for them.
fn are_quiet(problem: &Problem, branch: &Branch, moves: &[Move]) -> bool
    ensures { IsTrue result → AreQuietMoves problem.now branch.now moves.now }
{
    let known = &branch.known;
    known
        .learned()
        .iter()
        .all(|lesson| lesson_stays(moves, lesson))
        && are_unmoved(moves, branch.goal.as_slice())
        && branch
            .facts
            .as_slice()
            .iter()
            .all(|fact| fact_stays(problem, branch, moves, fact))
        && moves.iter().all(|it| is_filled_by(known, it))
}

fn lesson_stays(moves: &[Move], lesson: &Lesson) -> bool
    ensures { IsTrue result → LessonStays moves.now lesson.now }
{
    match lesson {
        Lesson::Same(a, b) => is_unmoved(moves, a) && is_unmoved(moves, b),
        Lesson::Holds(atom) => is_unmoved(moves, &atom.left) && is_unmoved(moves, &atom.right),
    }
}

fn fact_stays(problem: &Problem, branch: &Branch, moves: &[Move], fact: &Fact) -> bool
    ensures { IsTrue result → FactStays problem.now branch.now moves.now fact.now }
{
    are_unmoved(moves, fact.terms.as_slice()) || is_free(problem, branch, moves, fact)
}

/// Whether the fact is on side Two, none of the moved unknowns stands in a column of a key or a
/// link, and nothing else asks for them.
fn is_free(problem: &Problem, branch: &Branch, moves: &[Move], fact: &Fact) -> bool
    ensures { IsTrue result → IsFree problem.now branch.now moves.now fact.now }
{
    if !is_left(problem, branch, moves, fact) {
        return false;
    }
    let Some(table) = problem.policy.schema.tables.find(fact.table as usize) else {
        return false;
    };
    let terms = fact.terms.as_slice();
    match fact.side {
        Side::One => false,
        Side::Two => keys_stay(moves, terms, table) && links_stay(moves, terms, table),
    }
}

fn keys_stay(moves: &[Move], terms: &[Term], table: &Table) -> bool
    ensures { IsTrue result → All (ColumnsStay moves.now terms.now) table.now.keys }
{
    let keys = table.keys.as_slice();
    keys.iter()
        .all(|columns| columns_stay(moves, terms, columns.as_slice()))
}

fn links_stay(moves: &[Move], terms: &[Term], table: &Table) -> bool
    ensures { IsTrue result
        → All (λ link. ColumnsStay moves.now terms.now link.columns) table.now.links }
{
    let links = table.links.as_slice();
    links
        .iter()
        .all(|link| columns_stay(moves, terms, link.columns.as_slice()))
}

fn columns_stay(moves: &[Move], terms: &[Term], columns: &[u32]) -> bool
    ensures { IsTrue result → ColumnsStay moves.now terms.now columns.now }
{
    columns
        .iter()
        .all(|column| is_unmoved_if(moves, cell(terms, *column)))
}

/// Whether the move's term is never NULL, if its unknown is never.
fn is_filled_by(known: &Knowledge, it: &Move) -> bool
    ensures { IsTrue result → IsFilledBy known.now it.now }
{
    match known.unknowns().get(it.unknown as usize) {
        Some(sort) => sort.nullable || known.shown_not_null(it.term.by_ref()),
        None => true,
    }
}

/// Whether the terms that stand for those of the two rows are of one class, column by column.
fn are_one(known: &Knowledge, moves: &[Move], left: &[Term], right: &[Term]) -> bool
    ensures { IsTrue result → AreOne known.now moves.now left.now right.now }
{
    match (left.split_first(), right.split_first()) {
        (Some((a, left)), Some((b, right))) => {
            is_one(known, moves, a, b) && are_one(known, moves, left, right)
        }
        (None, None) => true,
        _ => false,
    }
}

fn is_one(known: &Knowledge, moves: &[Move], a: &Term, b: &Term) -> bool
    ensures { IsTrue result
        → OneClass known.now (stand_in moves.now a.now) (stand_in moves.now b.now) }
{
    known.one_class(stand_in(moves, a.by_ref()), stand_in(moves, b.by_ref()))
}
