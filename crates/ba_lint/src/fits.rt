//! Which columns hold what a parameter does, and which hold constants, as far as views and links
//! tell.

use crate::terms::Terms;
use ba_model::{Link, Operand, Part, Policy, Query, Same, Schema, Value};
use std::alloc::{AllocError, Global};

// How many columns are tied to parameters at most.
const MOST_TIES: usize = 10_000;

/// A column of a table, by their numbers.
#[derive(Clone, Copy, PartialEq, Eq)]
pub struct Field {
    pub table: u32,
    pub column: u32,
}

impl Field {
    /// The column that an operand of a part is, if it is one.
    pub fn of(part: &Part, operand: &Operand) -> Option<Field> {
        let Operand::Col(place, column) = operand else {
            return None;
        };
        let table = part.from.find(*place as usize)?;
        Some(Field {
            table: *table,
            column: *column,
        })
    }
}

// A column that holds what a parameter of a number does.
#[derive(Clone, Copy, PartialEq, Eq)]
struct Tie {
    field: Field,
    param: u32,
}

// A column that a view compares with a constant.
#[derive(Clone, Copy)]
struct Constant<'a> {
    field: Field,
    value: &'a Value,
}

/// Which columns hold what a parameter does, and which constants views compare them with.
#[derive(Drop)]
pub struct Fits<'a> {
    ties: Vec<Tie>,
    constants: Vec<Constant<'a>>,
}

impl<'a> Fits<'a> {
    /// What the views of a policy and the links of its schema tell. A column is tied to a parameter
    /// where a view compares it with that or makes them equal, and where links, in either direction
    /// and over any number of columns, join it to such a column.
    pub fn of(alloc: Global, policy: &'a Policy) -> Result<Fits<'a>, AllocError> {
        let mut fits = Fits {
            ties: Vec::new(alloc),
            constants: Vec::new(alloc),
        };
        for view in policy.views.as_slice() {
            fits.take_query(alloc, &view.query)?;
        }
        fits.follow_links(&policy.schema)?;
        Ok(fits)
    }

    /// Whether a column is tied to the parameter of a number.
    pub fn ties(&self, field: Field, param: u32) -> bool {
        self.ties
            .iter()
            .any(|tie| tie.field == field && tie.param == param)
    }

    /// Whether a view compares a column with that constant.
    pub fn has_constant(&self, field: Field, value: &Value) -> bool {
        self.constants.iter().any(|constant| constant.field == field && constant.value.same(value))
    }

    // Ties a column to a parameter, if it isn't.
    fn tie(&mut self, field: Field, param: u32) -> Result<(), AllocError> {
        if !self.ties(field, param) {
            self.ties.push(Tie { field, param })?;
        }
        Ok(())
    }

    fn take_query(&mut self, alloc: Global, query: &'a Query) -> Result<(), AllocError> {
        for part in query.parts.as_slice() {
            self.take_conds(part)?;
            let terms = Terms::of(alloc, part)?;
            self.take_classes(part, &terms)?;
        }
        Ok(())
    }

    // Takes what the conditions of a part compare columns with.
    fn take_conds(&mut self, part: &'a Part) -> Result<(), AllocError> {
        for atom in part.conds.as_slice() {
            self.take_sides(part, &atom.left, &atom.right)?;
            self.take_sides(part, &atom.right, &atom.left)?;
        }
        Ok(())
    }

    // Takes what a side of a condition is compared with, if it is a column.
    fn take_sides(
        &mut self,
        part: &Part,
        side: &Operand,
        other: &'a Operand,
    ) -> Result<(), AllocError> {
        let Some(field) = Field::of(part, side) else {
            return Ok(());
        };
        match other {
            Operand::Param(number) => self.tie(field, *number)?,
            Operand::Val(value) => self.constants.push(Constant { field, value })?,
            Operand::Col(_, _) | Operand::Var(_) => {}
        }
        Ok(())
    }

    // Ties the columns that a part makes equal to parameters.
    fn take_classes(&mut self, part: &Part, terms: &Terms<'_>) -> Result<(), AllocError> {
        for member in terms.members.iter() {
            if let Operand::Param(number) = member.operand {
                self.take_class(part, terms, member.class, *number)?;
            }
        }
        Ok(())
    }

    // Ties the columns of a class to a parameter.
    fn take_class(
        &mut self,
        part: &Part,
        terms: &Terms<'_>,
        class: u32,
        param: u32,
    ) -> Result<(), AllocError> {
        for member in terms.members.iter() {
            if member.class == class
                && let Some(field) = Field::of(part, member.operand)
            {
                self.tie(field, param)?;
            }
        }
        Ok(())
    }

    // Ties the columns that links join to tied ones.
    fn follow_links(&mut self, schema: &Schema) -> Result<(), AllocError> {
        for at in 0..MOST_TIES {
            let Some(tie) = self.ties.get(at).copied() else {
                return Ok(());
            };
            self.follow_tie(schema, tie)?;
        }
        Ok(())
    }

    // Ties the columns that a link joins to a tied one.
    fn follow_tie(&mut self, schema: &Schema, tie: Tie) -> Result<(), AllocError> {
        for (table, number) in schema.tables.as_slice().iter().zip(0..u32::MAX) {
            for link in table.links.as_slice() {
                self.follow_link(number, link, tie)?;
            }
        }
        Ok(())
    }

    // Ties the columns that a link of the table of a number joins to a tied one.
    fn follow_link(&mut self, table: u32, link: &Link, tie: Tie) -> Result<(), AllocError> {
        for (at, column) in link.columns.as_slice().iter().enumerate() {
            if let Some(target) = link.target_columns.find(at) {
                let from = Field {
                    table,
                    column: *column,
                };
                let to = Field {
                    table: link.target,
                    column: *target,
                };
                self.join(from, to, tie)?;
            }
        }
        Ok(())
    }

    // Ties one of two columns, if the other is the tied one.
    fn join(&mut self, one: Field, other: Field, tie: Tie) -> Result<(), AllocError> {
        if one == tie.field {
            self.tie(other, tie.param)
        } else if other == tie.field {
            self.tie(one, tie.param)
        } else {
            Ok(())
        }
    }
}
