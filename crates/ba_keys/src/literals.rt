//! The queries behind a cache key, with its arguments as literals.
ghost use Rattle.std.specs.Prelude.{◌≡◌, [], All, IfOk, map};
ghost use Rattle.std.specs.Option.{option_copied};
ghost use Rattle.ba_keys.specs.Literals.{atom_with, key_queries, literal_or, operand_with, part_with, query_with};
ghost use Rattle.ba_model.specs.Fit.{ContextFits, IsQuery, KeyFits, kinds_of};

use ba_model::{
    Atom, CacheKey, Context, Duplicate, List, Operand, Part, Policy, Query, Shared, Value,
};
use std::alloc::{AllocError, Global};

fn literal(alloc: Global, number: u32, value: Option<&Value>) -> Result<Operand, AllocError>
    ensures { IfOk result (λ it. it ≡ literal_or number (option_copied value.entry)) }
{
    match value {
        Some(value) => Ok(Operand::Val(value.copy(alloc)?)),
        None => Ok(Operand::Param(number)),
    }
}

#[tactic(auto, unfolding(crate::specs::Literals::operand_with))]
fn operand_with(
    alloc: Global,
    params: usize,
    values: &[Value],
    operand: &Operand,
) -> Result<Operand, AllocError>
    ensures { IfOk result (λ it. it ≡ operand_with params values.now operand.now) }
{
    match operand {
        Operand::Param(number) => {
            let number = *number;
            if (number as usize) < params {
                return Ok(Operand::Param(number));
            }
            literal(alloc, number, values.get(number as usize - params))
        }
        _ => operand.copy(alloc),
    }
}

fn atom_with(
    alloc: Global,
    params: usize,
    values: &[Value],
    atom: &Atom,
) -> Result<Atom, AllocError>
    ensures { IfOk result (λ it. it ≡ atom_with params values.now atom.now) }
{
    let left = operand_with(alloc, params, values, &atom.left)?;
    let right = operand_with(alloc, params, values, &atom.right)?;
    Ok(Atom {
        op: atom.op,
        left,
        right,
    })
}

fn atoms_with(
    alloc: Global,
    params: usize,
    values: &[Value],
    atoms: &[Atom],
) -> Result<List<Atom>, AllocError>
    ensures { IfOk result (λ found. found ≡ map (atom_with params values.now) atoms.now) }
{
    let mut found = List::new(alloc);
    for atom in atoms {
        let it = atom_with(alloc, params, values, atom)?;
        found.push(it)?;
    }
    Ok(found)
}

fn head_with(
    alloc: Global,
    params: usize,
    values: &[Value],
    head: &[Operand],
) -> Result<List<Operand>, AllocError>
    ensures { IfOk result (λ found. found ≡ map (operand_with params values.now) head.now) }
{
    let mut found = List::new(alloc);
    for operand in head {
        let it = operand_with(alloc, params, values, operand)?;
        found.push(it)?;
    }
    Ok(found)
}

fn part_with(
    alloc: Global,
    params: usize,
    values: &[Value],
    part: &Part,
) -> Result<Part, AllocError>
    ensures { IfOk result (λ it. it ≡ part_with params values.now part.now) }
{
    let from = part.from.copy(alloc)?;
    let conds = atoms_with(alloc, params, values, part.conds.as_slice())?;
    let head = head_with(alloc, params, values, part.head.as_slice())?;
    Ok(Part { from, conds, head })
}

fn query_with(
    alloc: Global,
    params: usize,
    values: &[Value],
    query: &Query,
) -> Result<Query, AllocError>
    ensures { IfOk result (λ it. it ≡ query_with params values.now query.now) }
{
    let mut parts = List::new(alloc);
    for part in query.parts.as_slice() {
        let it = part_with(alloc, params, values, part)?;
        parts.push(it)?;
    }
    Ok(Query { parts })
}

/// The queries behind a key of the policy, with these values of its arguments as literals, in the
/// key's order. Each fits the policy's schema and parameters as an asked one does.
///
/// The key is one of the policy, with a value of its kind for each argument. The only error is want
/// of memory, which leaves nothing behind.
pub fn key_queries(
    alloc: Global,
    policy: &Policy,
    key: &CacheKey,
    arguments: &Context,
) -> Result<List<Shared<Query>>, AllocError>
    requires key { KeyFits policy.now key.now }
    requires arguments { ContextFits (kinds_of key.now.arguments) arguments.now }
    ensures are { IfOk result (λ queries.
        queries ≡ key_queries policy.now key.now arguments.now) }
    ensures fit { IfOk result (All (IsQuery policy.now.schema (kinds_of policy.now.params) [])) }
{
    let params = policy.params.len();
    let values = arguments.values.as_slice();
    let mut queries = List::new(alloc);
    for query in key.queries.as_slice() {
        let it = query_with(alloc, params, values, query)?;
        let it = Shared::new(alloc, it)?;
        queries.push(it)?;
    }
    Ok(queries)
}
