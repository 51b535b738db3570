//! Tables that a view shows to every user.

use crate::finding::{Finding, Scope};
use crate::report::Report;
use crate::terms::{Member, Terms};
use crate::written::ViewText;
use ba_classes::Classes;
use ba_model::{Atom, Operand, Part};
use std::alloc::{AllocError, Global};

// Which tables of a part are tied to each other and to a parameter, by equations: the tables by
// their places, and a number behind them for all parameters.
#[derive(Drop)]
struct Ties {
    joined: Classes,
    params: u32,
}

impl Ties {
    fn new(alloc: Global, tables: u32) -> Result<Ties, AllocError> {
        let joined = Classes::new(alloc, tables.saturating_add(1))?;
        Ok(Ties {
            joined,
            params: tables,
        })
    }

    // The number of an operand's table, or that of the parameters.
    fn number(&self, operand: &Operand) -> Option<u32> {
        match operand {
            Operand::Col(place, _) => Some(*place),
            Operand::Param(_) => Some(self.params),
            Operand::Val(_) | Operand::Var(_) => None,
        }
    }

    fn join(&mut self, one: &Operand, other: &Operand) -> Result<(), AllocError> {
        let count = self.joined.terms();
        if let (Some(left), Some(right)) = (self.number(one), self.number(other))
            && (left as u64) < count
            && (right as u64) < count
        {
            self.joined.merge(left, right)?;
        }
        Ok(())
    }

    // Ties what is equal to an operand. Two columns that are equal to one literal aren't tied by
    // it.
    fn join_all(&mut self, terms: &Terms<'_>, one: Member<'_>) -> Result<(), AllocError> {
        let has_literal = terms.literal(one.class).is_some();
        let is_param = matches!(one.operand, Operand::Param(_));
        for other in terms.members.iter() {
            if other.class == one.class && (is_param || !has_literal) {
                self.join(one.operand, other.operand)?;
            }
        }
        Ok(())
    }

    fn of(alloc: Global, tables: u32, terms: &Terms<'_>) -> Result<Ties, AllocError> {
        let mut ties = Ties::new(alloc, tables)?;
        for one in terms.members.iter() {
            ties.join_all(terms, *one)?;
        }
        Ok(ties)
    }

    // Whether the table at a place is tied to a parameter.
    fn has(&self, place: u32) -> bool {
        let count = self.joined.terms();
        (place as u64) < count
            && (self.params as u64) < count
            && self.joined.same(place, self.params)
    }
}

// Whether an operand is a column of the table at a place.
fn is_column(operand: &Operand, place: u32) -> bool {
    match operand {
        Operand::Col(other, _) => *other == place,
        _ => false,
    }
}

/// Whether a part puts out a column of the table at a place.
pub fn shows(part: &Part, place: u32) -> bool {
    part.head
        .as_slice()
        .iter()
        .any(|operand| is_column(operand, place))
}

// Whether a condition compares a column of the table at a place.
fn compares(atom: &Atom, place: u32) -> bool {
    is_column(&atom.left, place) || is_column(&atom.right, place)
}

// Which of the rows of the table at a place are shown.
fn scope(part: &Part, place: u32) -> Scope {
    let conds = part.conds.as_slice();
    if conds.iter().any(|atom| compares(atom, place)) {
        Scope::Chosen
    } else if part.from.len() > 1 {
        Scope::Beside
    } else {
        Scope::All
    }
}

/// How many tables a part has.
pub fn count_tables(part: &Part) -> u32 {
    u32::try_from(part.from.len()).unwrap_or(0)
}

/// Finds tables that a part of a view shows, and of which no column is tied to a parameter. Nothing
/// is found of a view that is said to be public.
pub fn find_untied(
    report: &mut Report,
    text: &ViewText<'_>,
    part: &Part,
    terms: &Terms<'_>,
) -> Result<(), AllocError> {
    if text.is_public() {
        return Ok(());
    }
    let count = count_tables(part);
    let ties = Ties::of(report.alloc, count, terms)?;
    for place in 0..count {
        if shows(part, place) && !ties.has(place) {
            let table = text.table_name(part, place);
            let finding = Finding::Untied {
                view: text.name(),
                table,
                scope: scope(part, place),
            };
            report.add(text.file(), text.table_spot(table), &finding)?;
        }
    }
    Ok(())
}
