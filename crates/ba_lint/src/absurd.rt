//! Conditions that no row meets.

use crate::finding::Finding;
use crate::report::Report;
use crate::terms::{Terms, says_null};
use crate::written::ViewText;
use ba_classes::Order;
use ba_model::{Atom, Op, Operand, Part, Same, Value};
use std::alloc::{AllocError, Global};

// Whether a class has two literals.
fn literals_differ(terms: &Terms<'_>) -> bool {
    for member in terms.members.iter() {
        if let Operand::Val(value) = member.operand
            && let Some(first) = terms.literal(member.class)
            && !first.same(value)
        {
            return true;
        }
    }
    false
}

// The node of an operand's class, behind node 0, whose value is 0.
fn node(terms: &Terms<'_>, operand: &Operand) -> u32 {
    terms.class(operand).unwrap_or(0).saturating_add(1)
}

// Says that a node is a number.
fn fix(order: &mut Order, node: u32, number: i64) -> Result<(), AllocError> {
    let number = number as i128;
    order.add(0, number, node)?;
    order.add(node, 0 - number, 0)?;
    Ok(())
}

// Says which nodes are numbers.
fn fix_all(order: &mut Order, terms: &Terms<'_>) -> Result<(), AllocError> {
    for member in terms.members.iter() {
        if let Operand::Val(Value::Int(number)) = member.operand {
            fix(order, node(terms, member.operand), *number)?;
        }
    }
    Ok(())
}

// Says what a condition says of the order of nodes.
fn add_atom(order: &mut Order, terms: &Terms<'_>, atom: &Atom) -> Result<(), AllocError> {
    let low = node(terms, &atom.left);
    let high = node(terms, &atom.right);
    match atom.op {
        Op::Lt => order.add(low, 1, high),
        Op::Le => order.add(low, 0, high),
        _ => Ok(()),
    }
}

// What the conditions of a part say of the order of nodes.
fn order_of(alloc: Global, part: &Part, terms: &Terms<'_>) -> Result<Order, AllocError> {
    let mut order = Order::new(alloc);
    fix_all(&mut order, terms)?;
    for atom in part.conds.as_slice() {
        add_atom(&mut order, terms, atom)?;
    }
    Ok(order)
}

// Whether a condition says that two operands differ which are equal.
fn denies_equal(order: &Order, terms: &Terms<'_>, atom: &Atom) -> bool {
    if !matches!(&atom.op, Op::Ne) {
        return false;
    }
    let left = node(terms, &atom.left);
    let right = node(terms, &atom.right);
    left == right || (order.shows(left, 0, right) && order.shows(right, 0, left))
}

// Whether the side of a condition is never NULL by itself: it is no column where NULL may stand.
fn is_never_null(text: &ViewText<'_>, part: &Part, side: &Operand) -> bool {
    let Operand::Col(place, column) = side else {
        return true;
    };
    match text.table(part, *place) {
        Some(table) => match table.columns.find(*column as usize) {
            Some(column) => !column.nullable,
            None => false,
        },
        None => false,
    }
}

// Whether a condition is true only where a side of it isn't NULL. (No comparison is true of NULL.)
fn denies_null(atom: &Atom, side: &Operand) -> bool {
    !says_null(atom) && (atom.left.same(side) || atom.right.same(side))
}

// Whether what a condition says to be NULL can't be, by its table or by another condition.
fn nulls_differ(text: &ViewText<'_>, part: &Part) -> bool {
    part.conds.as_slice().iter().any(|atom| says_null(atom) && is_denied(text, part, &atom.left))
}

// Whether a side of a condition isn't NULL, by its table or by a condition.
fn is_denied(text: &ViewText<'_>, part: &Part, side: &Operand) -> bool {
    let conds = part.conds.as_slice();
    is_never_null(text, part, side) || conds.iter().any(|atom| denies_null(atom, side))
}

// Whether the conditions of a part contradict each other.
fn is_absurd(
    alloc: Global,
    text: &ViewText<'_>,
    part: &Part,
    terms: &Terms<'_>,
) -> Result<bool, AllocError> {
    if literals_differ(terms) || nulls_differ(text, part) {
        return Ok(true);
    }
    let order = order_of(alloc, part, terms)?;
    let conds = part.conds.as_slice();
    Ok(order.absurd() || conds.iter().any(|atom| denies_equal(&order, terms, atom)))
}

/// Finds a part of a view whose conditions contradict each other.
pub fn find_absurd(
    report: &mut Report,
    text: &ViewText<'_>,
    part: &Part,
    terms: &Terms<'_>,
) -> Result<(), AllocError> {
    if !is_absurd(report.alloc, text, part, terms)? {
        return Ok(());
    }
    let finding = Finding::NeverMet {
        view: text.name(),
        is_whole: text.view.query.parts.len() == 1,
    };
    report.add(text.file(), text.name_spot(), &finding)
}
