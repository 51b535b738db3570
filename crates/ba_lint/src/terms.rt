//! Which operands of a part its equations make equal.

use ba_classes::Classes;
use ba_model::{Atom, Op, Operand, Part, Same, Value};
use std::alloc::{AllocError, Global};

// How many operands a part may have: more than its limits on conditions and columns leave room for.
const MOST: u64 = 1024;

/// An operand, and the label of its class.
#[derive(Clone, Copy)]
pub struct Member<'a> {
    pub operand: &'a Operand,
    pub class: u32,
}

/// The different operands of a part, each with the class of those that its equations make equal.
#[derive(Drop)]
pub struct Terms<'a> {
    pub members: Vec<Member<'a>>,
    // The classes whose values the part's rows and the parameters tell.
    known: Vec<u32>,
}

// Operands that differ, and which of them were made equal.
#[derive(Drop)]
struct Draft<'a> {
    operands: Vec<&'a Operand>,
    classes: Classes,
}

impl<'a> Draft<'a> {
    fn new(alloc: Global) -> Result<Draft<'a>, AllocError> {
        let classes = Classes::new(alloc, 0)?;
        Ok(Draft {
            operands: Vec::new(alloc),
            classes,
        })
    }

    fn number(&self, operand: &Operand) -> Option<u32> {
        for (other, number) in self.operands.iter().zip(0..u32::MAX) {
            if (*other).same(operand) {
                return Some(number);
            }
        }
        None
    }

    // Adds an operand, if it is new.
    fn add(&mut self, operand: &'a Operand) -> Result<(), AllocError> {
        if self.number(operand).is_none() && self.classes.terms() < MOST {
            let _number = self.classes.add()?;
            self.operands.push(operand)?;
        }
        Ok(())
    }

    // Adds the operands of a part.
    fn add_all(&mut self, part: &'a Part) -> Result<(), AllocError> {
        for atom in part.conds.as_slice() {
            self.add(&atom.left)?;
            self.add(&atom.right)?;
        }
        for operand in part.head.as_slice() {
            self.add(operand)?;
        }
        Ok(())
    }

    // Makes two operands equal by their numbers.
    fn merge(&mut self, left: u32, right: u32) -> Result<(), AllocError> {
        let count = self.classes.terms();
        if (left as u64) < count && (right as u64) < count {
            self.classes.merge(left, right)?;
        }
        Ok(())
    }

    // Makes equal what the part's equations do.
    fn merge_all(&mut self, part: &Part) -> Result<(), AllocError> {
        for atom in part.conds.as_slice() {
            if atom.op.is_equation()
                && let Some(left) = self.number(&atom.left)
                && let Some(right) = self.number(&atom.right)
            {
                self.merge(left, right)?;
            }
        }
        Ok(())
    }

    fn label(&self, number: u32) -> u32 {
        if (number as u64) < self.classes.terms() {
            self.classes.label(number)
        } else {
            number
        }
    }
}

impl<'a> Terms<'a> {
    /// The operands of a part.
    pub fn of(alloc: Global, part: &'a Part) -> Result<Terms<'a>, AllocError> {
        let mut draft = Draft::new(alloc)?;
        draft.add_all(part)?;
        draft.merge_all(part)?;
        let mut terms = Terms {
            members: Vec::new(alloc),
            known: Vec::new(alloc),
        };
        terms.take_members(&draft)?;
        terms.find_known(part)?;
        Ok(terms)
    }

    fn take_members(&mut self, draft: &Draft<'a>) -> Result<(), AllocError> {
        for (operand, number) in draft.operands.iter().zip(0..u32::MAX) {
            self.members.push(Member {
                operand: *operand,
                class: draft.label(number),
            })?;
        }
        Ok(())
    }

    fn find_known(&mut self, part: &Part) -> Result<(), AllocError> {
        for member in self.members.iter() {
            if is_given(member.operand) {
                self.known.push(member.class)?;
            }
        }
        for operand in part.head.as_slice() {
            self.push_known(operand)?;
        }
        for atom in part.conds.as_slice() {
            if says_null(atom) {
                self.push_known(&atom.left)?;
            }
        }
        Ok(())
    }

    // Adds the class of an operand to those that are known.
    fn push_known(&mut self, operand: &Operand) -> Result<(), AllocError> {
        if let Some(class) = self.class(operand) {
            self.known.push(class)?;
        }
        Ok(())
    }

    /// The class of an operand, if the part has it.
    pub fn class(&self, operand: &Operand) -> Option<u32> {
        for member in self.members.iter() {
            if member.operand.same(operand) {
                return Some(member.class);
            }
        }
        None
    }

    /// The first literal of a class, if it has one.
    pub fn literal(&self, class: u32) -> Option<&'a Value> {
        for member in self.members.iter() {
            if member.class == class
                && let Operand::Val(value) = member.operand
            {
                return Some(value);
            }
        }
        None
    }

    /// Whether the value of an operand is known to whoever sees the part's rows and the parameters:
    /// it is put out, or equal to what is, or to a constant or a parameter, or said to be NULL.
    pub fn is_known(&self, operand: &Operand) -> bool {
        match self.class(operand) {
            Some(class) => self.known.contains(&class),
            None => false,
        }
    }
}

// Whether an operand is a constant or a parameter.
fn is_given(operand: &Operand) -> bool {
    match operand {
        Operand::Val(_) | Operand::Param(_) => true,
        Operand::Col(_, _) | Operand::Var(_) => false,
    }
}

/// Whether a condition says that its side is NULL.
pub fn says_null(atom: &Atom) -> bool {
    matches!(&atom.op, Op::IsNull)
}
