//! The rounds of the facts in which the terms of an atom stand.
ghost use Rattle.std.specs.Prelude.{◌≡◌, ◌≤◌, ℕ, List, Any, Some, map};
ghost use Rattle.ba_facts.specs.Laid.{IsLaid};
ghost use Rattle.ba_facts.specs.Matches.{GivesAtom, round_of, term_of, terms_at};
ghost use Rattle.ba_facts.specs.declared.term.Term.TheVariants.{Unknown};
ghost use Rattle.ba_instant.specs.Offers.{fact_round};
ghost use Rattle.ba_model.specs.declared.query.Atom.{Atom};
ghost use Rattle.ba_model.specs.declared.query.Operand.{Operand};

use ba_facts::{Branch, Term, TermAtom};

/// A round that no mapping is before under which the atom is one of a part's: its facts have the
/// atom's unknowns among their terms.
pub fn least_standing(branch: &Branch, atom: &TermAtom) -> u32
    requires { IsLaid branch.now }
    ensures { (facts : List ℕ) (cond : Atom) → GivesAtom (map (terms_at branch.now) facts) atom.now
        cond → result ≤ round_of branch.now facts }
{
    term_round(branch, &atom.left).max(term_round(branch, &atom.right))
}

fn term_round(branch: &Branch, term: &Term) -> u32
    requires { IsLaid branch.now }
    ensures { (facts : List ℕ) (operand : Operand) → term_of (map (terms_at branch.now) facts)
        operand ≡ Some term.now → result ≤ round_of branch.now facts }
{
    match term {
        Term::Unknown(n) => unknown_round(branch, *n),
        _ => 0,
    }
}

/// The round of the fact that has the unknown among its terms, or the greatest number where none
/// has.
fn unknown_round(branch: &Branch, unknown: u32) -> u32
    requires { IsLaid branch.now }
    ensures { (fact : ℕ) → Any (λ term. term ≡ Unknown unknown) (terms_at branch.now fact) → result
        ≤ fact_round branch.now fact }
{
    match branch.holder(unknown) {
        Some(number) => branch.round_at(number),
        None => u32::MAX,
    }
}
