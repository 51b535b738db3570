//! Values that are fixed for some of a template's variables, by what they are to become.
ghost use Rattle.std.specs.Prelude.{◌≡◌, ◌↔◌, ◌≤◌, IfOk, IsTrue, MatchOption, Some, None, length, map, option_and_then, replicate, slice_get, slice_set};
ghost use Rattle.std.specs.Option.{option_copied};
ghost use Rattle.ba_kernel.specs.Problems.{atom_at, fixed_value, operand_at, part_at, query_at};
ghost use Rattle.ba_match.specs.Alike.{MayBe, MayBecome};
ghost use Rattle.ba_match.specs.Bindings.{AreAllFixed, Narrows};
ghost use Rattle.ba_template.specs.Found.{with_values};

use ba_model::{Atom, Context, Duplicate, List, Operand, Part, Query, Same, Value};
use std::alloc::{AllocError, Global};
use std::marker::Model;

/// For each variable its value, if it is fixed.
#[derive(Debug, Drop)]
pub struct Bindings {
    values: Vec<Option<Value>>,
}

impl Model for Bindings {
    ghost use Rattle.std.specs.Prelude.{List, Option};
    ghost use Rattle.ba_model.specs.declared.value.Value.{Value as Datum};

    ghost Value = { List (Option Datum) };

    ghost view = { λ it. it.values.items };
}

impl Bindings {
    /// Nothing fixed of so many variables.
    pub fn free(alloc: Global, count: usize) -> Result<Bindings, AllocError>
        ensures { IfOk result (λ it. it ≡ replicate count None) }
    {
        let mut values = Vec::with_capacity(alloc, count)?;
        for _ in 0..count {
            values.push(None)?;
        }
        Ok(Bindings { values })
    }

    /// The same.
    pub fn copy(&self, alloc: Global) -> Result<Bindings, AllocError>
        ensures { IfOk result (λ it. it ≡ self.now) }
    {
        let mut values = Vec::with_capacity(alloc, self.values.len())?;
        for fixed in self.values.iter() {
            values.push(copy_fixed(alloc, fixed)?)?;
        }
        Ok(Bindings { values })
    }

    /// The values, if all are fixed.
    pub fn values(&self, alloc: Global) -> Result<Option<List<Value>>, AllocError>
        ensures { IfOk result (AreAllFixed self.now) }
    {
        let mut all = List::new(alloc);
        for fixed in self.values.iter() {
            match fixed {
                Some(value) => all.push(value.copy(alloc)?)?,
                None => return Ok(None),
            }
        }
        Ok(Some(all))
    }

    /// What is fixed of a variable, if it is there.
    fn at(&self, n: u32) -> Option<&Option<Value>>
        ensures { option_copied result ≡ slice_get self.now n }
    {
        self.values.get(n as usize)
    }

    /// The value that is fixed of a variable, if it is there.
    pub fn fixed(&self, n: u32) -> Option<&Value>
        ensures { option_copied result ≡ option_and_then (λ fixed. fixed) (slice_get self.now n) }
    {
        match self.at(n) {
            Some(Some(value)) => Some(value),
            _ => None,
        }
    }

    /// Whether a variable's value is this one, unless it is free: not told of a variable that isn't
    /// there, or is fixed to another one.
    fn is_fixed_to(&self, n: u32, value: &Value) -> Option<bool>
        ensures { MatchOption result (slice_get self.now n ≡ Some None) (Narrows (λ values. slice_get values n ≡ Some value.now) self.now self.now) }
    {
        match self.at(n) {
            None => Some(false),
            Some(None) => None,
            Some(Some(fixed)) => Some(fixed.same(value)),
        }
    }

    /// Fixes a variable that is free.
    fn fix(&mut self, n: u32, value: Value)
        requires { slice_get self.old n ≡ Some None }
        ensures { self.new ≡ slice_set self.old n (Some value) }
    {
        self.values[n as usize] = Some(value);
    }

    /// Fixes a variable to a value; not told where it isn't there or is fixed to another one.
    fn bind(&mut self, alloc: Global, n: u32, value: &Value) -> Result<bool, AllocError>
        ensures { IfOk result (Narrows (λ values. slice_get values n ≡ Some value.now) self.old self.new) }
    {
        if let Some(told) = self.is_fixed_to(n, value) {
            return Ok(told);
        }
        let value = value.copy(alloc)?;
        self.fix(n, value);
        Ok(true)
    }

    /// Whether there is no such variable.
    fn is_gone(&self, n: u32) -> bool
        ensures { IsTrue result ↔ (length self.now ≤ n) }
    {
        n as usize >= self.values.len()
    }

    /// Whether one variable is another for all values: both are one that isn't there.
    fn is_unchanged(&self, n: u32, m: u32) -> bool
        ensures { IsTrue result ↔ ((n ≡ m) × (length self.now ≤ n)) }
    {
        n == m && self.is_gone(n)
    }

    /// Whether a variable may have this value: it is there, and free or fixed to it.
    fn may_be(&self, n: u32, value: &Value) -> bool
        ensures { IsTrue result ↔ MayBe (slice_get self.now n) value.now }
    {
        match self.at(n) {
            None => false,
            Some(None) => true,
            Some(Some(fixed)) => fixed.same(value),
        }
    }

    /// Whether the operand may become the other one.
    pub fn may_become(&self, pattern: &Operand, operand: &Operand) -> bool
        ensures { IsTrue result ↔ MayBecome self.now pattern.now operand.now }
    {
        match (pattern, operand) {
            (Operand::Var(n), Operand::Val(value)) => self.may_be(*n, value),
            (Operand::Var(n), Operand::Var(m)) => self.is_unchanged(*n, *m),
            (Operand::Var(_), _) => false,
            _ => pattern.same(operand),
        }
    }

    fn bind_operand(
        &mut self,
        alloc: Global,
        pattern: &Operand,
        operand: &Operand,
    ) -> Result<bool, AllocError>
        ensures { IfOk result (Narrows (λ values. operand_at values pattern.now ≡ operand.now) self.old self.new) }
    {
        match (pattern, operand) {
            (Operand::Var(n), Operand::Val(value)) => self.bind(alloc, *n, value),
            (Operand::Var(n), Operand::Var(m)) => Ok(self.is_unchanged(*n, *m)),
            (Operand::Var(_), _) => Ok(false),
            _ => Ok(pattern.same(operand)),
        }
    }

    fn bind_operands(
        &mut self,
        alloc: Global,
        patterns: &[Operand],
        operands: &[Operand],
    ) -> Result<bool, AllocError>
        ensures { IfOk result (Narrows (λ values. map (operand_at values) patterns.now ≡ operands.now) self.old self.new) }
    {
        match (patterns.split_first(), operands.split_first()) {
            (None, None) => Ok(true),
            (Some((pattern, patterns)), Some((operand, operands))) => {
                let told = self.bind_operand(alloc, pattern, operand)?;
                if !told {
                    return Ok(false);
                }
                self.bind_operands(alloc, patterns, operands)
            }
            _ => Ok(false),
        }
    }

    fn bind_atom(&mut self, alloc: Global, pattern: &Atom, atom: &Atom) -> Result<bool, AllocError>
        ensures { IfOk result (Narrows (λ values. atom_at values pattern.now ≡ atom.now) self.old self.new) }
    {
        if !pattern.op.same(&atom.op) {
            return Ok(false);
        }
        let told = self.bind_operand(alloc, &pattern.left, &atom.left)?;
        if !told {
            return Ok(false);
        }
        self.bind_operand(alloc, &pattern.right, &atom.right)
    }

    fn bind_atoms(
        &mut self,
        alloc: Global,
        patterns: &[Atom],
        atoms: &[Atom],
    ) -> Result<bool, AllocError>
        ensures { IfOk result (Narrows (λ values. map (atom_at values) patterns.now ≡ atoms.now) self.old self.new) }
    {
        match (patterns.split_first(), atoms.split_first()) {
            (None, None) => Ok(true),
            (Some((pattern, patterns)), Some((atom, atoms))) => {
                let told = self.bind_atom(alloc, pattern, atom)?;
                if !told {
                    return Ok(false);
                }
                self.bind_atoms(alloc, patterns, atoms)
            }
            _ => Ok(false),
        }
    }

    fn bind_part(&mut self, alloc: Global, pattern: &Part, part: &Part) -> Result<bool, AllocError>
        ensures { IfOk result (Narrows (λ values. part_at values pattern.now ≡ part.now) self.old self.new) }
    {
        if !pattern.from.same(&part.from) {
            return Ok(false);
        }
        let told = self.bind_atoms(alloc, pattern.conds.as_slice(), part.conds.as_slice())?;
        if !told {
            return Ok(false);
        }
        self.bind_operands(alloc, pattern.head.as_slice(), part.head.as_slice())
    }

    fn bind_parts(
        &mut self,
        alloc: Global,
        patterns: &[Part],
        parts: &[Part],
    ) -> Result<bool, AllocError>
        ensures { IfOk result (Narrows (λ values. map (part_at values) patterns.now ≡ parts.now) self.old self.new) }
    {
        match (patterns.split_first(), parts.split_first()) {
            (None, None) => Ok(true),
            (Some((pattern, patterns)), Some((part, parts))) => {
                let told = self.bind_part(alloc, pattern, part)?;
                if !told {
                    return Ok(false);
                }
                self.bind_parts(alloc, patterns, parts)
            }
            _ => Ok(false),
        }
    }

    /// Fixes the variables by which one query becomes another; not told where it can't.
    pub fn bind_query(
        &mut self,
        alloc: Global,
        pattern: &Query,
        query: &Query,
    ) -> Result<bool, AllocError>
        ensures { IfOk result (Narrows (λ values. query_at values pattern.now ≡ query.now) self.old self.new) }
    {
        self.bind_parts(alloc, pattern.parts.as_slice(), query.parts.as_slice())
    }

    fn bind_value(
        &mut self,
        alloc: Global,
        ctx: &Context,
        pattern: &Operand,
        value: &Value,
    ) -> Result<bool, AllocError>
        ensures { IfOk result (Narrows (λ values. fixed_value (with_values ctx.now values) pattern.now ≡ Some value.now) self.old self.new) }
    {
        match pattern {
            Operand::Col(_, _) => Ok(false),
            Operand::Val(literal) => Ok(literal.same(value)),
            Operand::Param(n) => match ctx.values.find(*n as usize) {
                Some(param) => Ok(param.same(value)),
                None => Ok(false),
            },
            Operand::Var(n) => self.bind(alloc, *n, value),
        }
    }

    /// Fixes the variables by which a row of operands is one of values in the context; not told where
    /// it can't.
    pub fn bind_row(
        &mut self,
        alloc: Global,
        ctx: &Context,
        patterns: &[Operand],
        row: &[Value],
    ) -> Result<bool, AllocError>
        ensures { IfOk result (Narrows (λ values. map (fixed_value (with_values ctx.now values)) patterns.now ≡ map Some row.now) self.old self.new) }
    {
        match (patterns.split_first(), row.split_first()) {
            (None, None) => Ok(true),
            (Some((pattern, patterns)), Some((value, row))) => {
                let told = self.bind_value(alloc, ctx, pattern, value)?;
                if !told {
                    return Ok(false);
                }
                self.bind_row(alloc, ctx, patterns, row)
            }
            _ => Ok(false),
        }
    }
}

fn copy_fixed(alloc: Global, fixed: &Option<Value>) -> Result<Option<Value>, AllocError>
    ensures { IfOk result (λ it. it ≡ fixed.now) }
{
    match fixed {
        Some(value) => Ok(Some(value.copy(alloc)?)),
        None => Ok(None),
    }
}
