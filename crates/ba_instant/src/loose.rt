//! Comparisons that close no circle.
ghost use Rattle.std.specs.Prelude.{ℤ, pos, ◌<ℤ◌, IsTrue};
ghost use Rattle.ba_facts.specs.Known.{ShownGap};
ghost use Rattle.ba_facts.specs.Shown.{NeitherNull};
ghost use Rattle.ba_instant.specs.Loose.{IsLoose, IsLooseAtom};

use ba_facts::{Knowledge, Term, TermAtom};
use ba_model::Op;

/// Whether the comparison is loose, and its negation too: told of them, no two terms become the
/// same that weren't.
pub fn is_loose(known: &Knowledge, atom: &TermAtom) -> bool
    ensures { IsTrue result → IsLooseAtom known.now atom.now }
{
    let (left, right) = (&atom.left, &atom.right);
    match atom.op {
        Op::Lt => may_be_less(known, left, right) && may_be_at_most(known, right, left),
        Op::Le => may_be_at_most(known, left, right) && may_be_less(known, right, left),
        Op::Eq => false,
        Op::Ne => false,
        Op::IsNull => false,
        Op::NotNull => false,
    }
}

/// Whether it closes no circle that the one term is less than the other.
fn may_be_less(known: &Knowledge, low: &Term, high: &Term) -> bool
    ensures { IsTrue result → IsLoose known.now low.now (pos 1) high.now }
{
    neither_null(known, low, high) && rises_less(known, high, low, -1)
}

/// Whether it closes no circle that the one term is at most the other.
fn may_be_at_most(known: &Knowledge, low: &Term, high: &Term) -> bool
    ensures { IsTrue result → IsLoose known.now low.now (pos 0) high.now }
{
    neither_null(known, low, high) && rises_less(known, high, low, 0)
}

fn neither_null(known: &Knowledge, a: &Term, b: &Term) -> bool
    ensures { IsTrue result → NeitherNull known.now a.now b.now }
{
    known.shown_not_null(a.by_ref()) && known.shown_not_null(b.by_ref())
}

/// Whether each chain from the one term to the other rises by less than this.
fn rises_less(known: &Knowledge, from: &Term, to: &Term, than: i128) -> bool
    ensures { IsTrue result → (sum : ℤ) → ShownGap known.now from.now sum to.now → sum <ℤ than }
{
    if known.order_is_absurd() {
        return false;
    }
    match known.bound(from.by_ref(), to.by_ref()) {
        Some(most) => most < than,
        None => true,
    }
}
