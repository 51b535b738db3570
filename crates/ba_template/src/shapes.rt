//! Shapes of queries.
ghost use Rattle.std.specs.Prelude.{◌≡◌, ◌%◌, ◌↔◌, IfOk, IsTrue, map};
ghost use Rattle.std.specs.List.{sum};
ghost use Rattle.ba_model.specs.Limits.{shard_count};
ghost use Rattle.ba_template.specs.Shapes.{shape_atom, shape_of, shape_operand, shape_part, shard_of, weight};

use ba_model::{Atom, Duplicate, Kind, List, Op, Operand, Part, Query, SHARDS, Same};
use std::alloc::{AllocError, Global};

/// What stands in a shape for an operand.
#[derive(Clone, Copy, Debug)]
pub enum ShapeOperand {
    /// A place in the part's tables and a column of the table there.
    Col(u32, u32),
    /// A literal or a variable of this kind; in a checked query each has one.
    Hole(Option<Kind>),
    /// A parameter of the policy.
    Param(u32),
}

#[derive(Clone, Copy, Debug)]
pub struct ShapeAtom {
    pub op: Op,
    pub left: ShapeOperand,
    pub right: ShapeOperand,
}

#[derive(Debug, Drop)]
pub struct ShapePart {
    pub from: List<u32>,
    pub conds: List<ShapeAtom>,
    pub head: List<ShapeOperand>,
}

/// A query whose literals and variables are holes of their kinds. Parameters stay.
#[derive(Debug, Drop)]
pub struct Shape {
    pub parts: List<ShapePart>,
}

impl Shape {
    /// The shape of a query whose variables have these kinds; a question has none. What a template
    /// matches has its shape ([`crate::laws::instance_has_shape`]).
    pub fn of(alloc: Global, vars: &[Kind], query: &Query) -> Result<Shape, AllocError>
        ensures { IfOk result (λ it. it ≡ shape_of vars.now query.now) }
    {
        let mut parts = Vec::new(alloc);
        for part in query.parts.as_slice() {
            parts.push(part_shape(alloc, vars, part)?)?;
        }
        Ok(Shape {
            parts: List::from_vec(parts),
        })
    }

    /// The shard that keeps templates of the shape: the sum, over its parts, of the tables' numbers,
    /// the number of atoms and the head's length, modulo [`SHARDS`].
    pub fn shard(&self) -> u32
        ensures { result ≡ shard_of self.now }
    {
        let mut total = 0;
        for part in self.parts.as_slice() {
            total = (total + part_shard(part)) % SHARDS;
        }
        total
    }
}

fn part_shape(alloc: Global, vars: &[Kind], part: &Part) -> Result<ShapePart, AllocError>
    ensures { IfOk result (λ it. it ≡ shape_part vars.now part.now) }
{
    let from = part.from.copy(alloc)?;
    let conds = atom_shapes(alloc, vars, part.conds.as_slice())?;
    let head = operand_shapes(alloc, vars, part.head.as_slice())?;
    Ok(ShapePart { from, conds, head })
}

fn atom_shapes(alloc: Global, vars: &[Kind], atoms: &[Atom]) -> Result<List<ShapeAtom>, AllocError>
    ensures { IfOk result (λ all. all ≡ map (shape_atom vars.now) atoms.now) }
{
    let mut all = Vec::new(alloc);
    for atom in atoms {
        all.push(atom_shape(vars, atom))?;
    }
    Ok(List::from_vec(all))
}

fn operand_shapes(
    alloc: Global,
    vars: &[Kind],
    operands: &[Operand],
) -> Result<List<ShapeOperand>, AllocError>
    ensures { IfOk result (λ all. all ≡ map (shape_operand vars.now) operands.now) }
{
    let mut all = Vec::new(alloc);
    for operand in operands {
        all.push(operand_shape(vars, operand))?;
    }
    Ok(List::from_vec(all))
}

fn atom_shape(vars: &[Kind], atom: &Atom) -> ShapeAtom
    ensures { result ≡ shape_atom vars.now atom.now }
{
    ShapeAtom {
        op: atom.op,
        left: operand_shape(vars, &atom.left),
        right: operand_shape(vars, &atom.right),
    }
}

fn operand_shape(vars: &[Kind], operand: &Operand) -> ShapeOperand
    ensures { result ≡ shape_operand vars.now operand.now }
{
    match operand {
        Operand::Col(place, column) => ShapeOperand::Col(*place, *column),
        Operand::Val(value) => ShapeOperand::Hole(value.kind()),
        Operand::Param(n) => ShapeOperand::Param(*n),
        Operand::Var(n) => ShapeOperand::Hole(vars.get(*n as usize).copied()),
    }
}

/// What a part adds to the shard.
fn part_shard(part: &ShapePart) -> u32
    ensures { result ≡ weight part.now % shard_count }
{
    (table_shard(part.from.as_slice())
        + count_shard(part.conds.len())
        + count_shard(part.head.len()))
        % SHARDS
}

fn table_shard(from: &[u32]) -> u32
    ensures { result ≡ sum from.now % shard_count }
{
    let mut total = 0;
    for table in from {
        total = (total + *table % SHARDS) % SHARDS;
    }
    total
}

fn count_shard(count: usize) -> u32
    ensures { result ≡ count % shard_count }
{
    (count % SHARDS as usize) as u32
}

fn same_kind(left: Option<Kind>, right: Option<Kind>) -> bool
    ensures { IsTrue result ↔ (left ≡ right) }
{
    match (left, right) {
        (None, None) => true,
        (Some(kind), Some(other)) => kind == other,
        _ => false,
    }
}

impl Same for ShapeOperand {
    fn same(&self, other: &ShapeOperand) -> bool {
        match (self, other) {
            (ShapeOperand::Col(p, c), ShapeOperand::Col(q, d)) => *p == *q && *c == *d,
            (ShapeOperand::Hole(kind), ShapeOperand::Hole(other)) => same_kind(*kind, *other),
            (ShapeOperand::Param(n), ShapeOperand::Param(m)) => *n == *m,
            _ => false,
        }
    }
}

impl Same for ShapeAtom {
    fn same(&self, other: &ShapeAtom) -> bool {
        self.op.same(&other.op) && self.left.same(&other.left) && self.right.same(&other.right)
    }
}

impl Same for ShapePart {
    fn same(&self, other: &ShapePart) -> bool {
        self.from.same(&other.from) && self.conds.same(&other.conds) && self.head.same(&other.head)
    }
}

impl Same for Shape {
    fn same(&self, other: &Shape) -> bool {
        self.parts.same(&other.parts)
    }
}

impl Duplicate for ShapeOperand {
    fn copy(&self, _alloc: Global) -> Result<ShapeOperand, AllocError> {
        Ok(*self)
    }
}

impl Duplicate for ShapeAtom {
    fn copy(&self, _alloc: Global) -> Result<ShapeAtom, AllocError> {
        Ok(*self)
    }
}

impl Duplicate for ShapePart {
    fn copy(&self, alloc: Global) -> Result<ShapePart, AllocError> {
        Ok(ShapePart {
            from: self.from.copy(alloc)?,
            conds: self.conds.copy(alloc)?,
            head: self.head.copy(alloc)?,
        })
    }
}

impl Duplicate for Shape {
    fn copy(&self, alloc: Global) -> Result<Shape, AllocError> {
        Ok(Shape {
            parts: self.parts.copy(alloc)?,
        })
    }
}
