//! Unknowns for which other terms stand.
ghost use Rattle.std.specs.Prelude.{◌≡◌, ◌↔◌, All, IsTrue, false, nat_eq, slice_get};
ghost use Rattle.std.specs.Option.{option_copied, option_map};
ghost use Rattle.ba_facts.specs.Known.{seen};
ghost use Rattle.ba_instant.specs.QuietKeys.{IsUnmoved, IsUnmovedIf, moved, stand_in};

use ba_facts::{Term, TermRef};

/// An unknown, by its number, and the term that stands for it.
#[derive(Drop)]
pub struct Move {
    pub unknown: u32,
    pub term: Term,
}

/// Whether there is no move of any of the terms.
pub fn are_unmoved(moves: &[Move], terms: &[Term]) -> bool
    ensures { IsTrue result → All (IsUnmoved moves.now) terms.now }
{
    terms.iter().all(|term| is_unmoved(moves, term))
}

/// Whether there is no move of the term.
pub fn is_unmoved(moves: &[Move], term: &Term) -> bool
    ensures { IsTrue result → IsUnmoved moves.now term.now }
{
    is_unmoved_ref(moves, term.by_ref())
}

/// Whether there is no move of the term, if there is a term.
pub fn is_unmoved_if(moves: &[Move], term: Option<TermRef<'_>>) -> bool
    ensures { IsTrue result → IsUnmovedIf moves.now (option_map seen term.entry) }
{
    match term {
        Some(term) => is_unmoved_ref(moves, term),
        None => true,
    }
}

fn is_unmoved_ref(moves: &[Move], term: TermRef<'_>) -> bool
    ensures { IsTrue result → IsUnmoved moves.now (seen term.entry) }
{
    match term {
        TermRef::Unknown(n) => moves.iter().all(|it| is_of_other(it, n)),
        TermRef::Val(_) => true,
        TermRef::Param(_) => true,
        TermRef::Var(_) => true,
    }
}

fn is_of_other(it: &Move, unknown: u32) -> bool
    ensures { IsTrue result ↔ (nat_eq it.now.unknown unknown ≡ false) }
{
    it.unknown != unknown
}

/// The term that stands for this one: itself, if there is no move of it.
pub fn stand_in<'a>(moves: &'a [Move], term: TermRef<'a>) -> TermRef<'a>
    ensures { seen result ≡ stand_in moves.now (seen term.entry) }
{
    match term {
        TermRef::Unknown(n) => match moved(moves, n) {
            Some(other) => other.by_ref(),
            None => term,
        },
        TermRef::Val(_) => term,
        TermRef::Param(_) => term,
        TermRef::Var(_) => term,
    }
}

/// The term that the first move of the unknown has.
fn moved(moves: &[Move], unknown: u32) -> Option<&Term>
    ensures { option_copied result ≡ moved moves.now unknown }
{
    match moves.split_first() {
        Some((first, rest)) => {
            if first.unknown == unknown {
                Some(&first.term)
            } else {
                moved(rest, unknown)
            }
        }
        None => None,
    }
}

/// The term in the row's column, if it is there.
pub fn cell(row: &[Term], column: u32) -> Option<TermRef<'_>>
    ensures { option_map seen result ≡ slice_get row.now column }
{
    match row.get(column as usize) {
        Some(term) => Some(term.by_ref()),
        None => None,
    }
}
