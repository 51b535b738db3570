//! Unknowns and their classes.
ghost use Rattle.std.specs.Prelude.{◌↔◌, ◌<◌, ◌^◌, IfOk, IsTrue, length};
ghost use Rattle.ba_refute.specs.Images.{AreNodes, HasKind, HasNoLiteral, IsFreeUnknown, IsLeastUnknown, IsNode};

use ba_facts::{Knowledge, TermRef, number_of};
use ba_model::{Kind, Same};
use std::alloc::{AllocError, Global};

/// Whether the unknown is of the kind.
pub(crate) fn is_of_kind(known: &Knowledge, kind: Kind, n: u32) -> bool
    ensures { IsTrue result ↔ HasKind known.now kind n }
{
    match known.unknowns().get(n as usize) {
        Some(sort) => sort.kind.same(&kind),
        None => false,
    }
}

fn has_no_literal(known: &Knowledge, n: u32) -> bool
    ensures { IsTrue result ↔ HasNoLiteral known.now n }
{
    match known.literal(TermRef::Unknown(n)) {
        Some(_) => false,
        None => true,
    }
}

fn is_free(known: &Knowledge, kind: Kind, n: u32) -> bool
    ensures { IsTrue result ↔ IsFreeUnknown known.now kind n }
{
    is_of_kind(known, kind, n)
        && has_no_literal(known, n)
        && known.shown_not_null(TermRef::Unknown(n))
}

fn is_least(known: &Knowledge, n: u32) -> bool
    requires { n < length known.now.unknowns }
    ensures { IsTrue result ↔ IsLeastUnknown known.now n }
{
    known.least_of(n) == n
}

fn is_node(known: &Knowledge, n: u32) -> bool
    requires { n < length known.now.unknowns }
    ensures { IsTrue result ↔ IsNode known.now n }
{
    is_free(known, Kind::Int, n) && is_least(known, n)
}

/// The least unknowns of the classes of whole numbers that are valued, in rising order.
/// `AllocError` also where there are 2^32 unknowns or more.
pub(crate) fn nodes(alloc: Global, known: &Knowledge) -> Result<Vec<u32>, AllocError>
    ensures exact { IfOk result (λ it. AreNodes known.now it.items) }
    ensures few { IfOk result (λ _. length known.now.unknowns < 2 ^ 32) }
{
    let count = number_of(known.unknowns().len())?;
    let mut nodes = Vec::new(alloc);
    for n in 0..count {
        if is_node(known, n) {
            nodes.push(n)?;
        }
    }
    Ok(nodes)
}
