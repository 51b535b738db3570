//! Whether variables stand in a problem.
ghost use Rattle.std.specs.Prelude.{◌≡◌, ◌↔◌, IsTrue};
ghost use Rattle.std.specs.List.{list_any};
ghost use Rattle.ba_template.specs.Standing as standing;
ghost use Rattle.ba_template.specs.Templates.{EachVarStands};

use ba_kernel::{Problem, ProblemEntry};
use ba_model::{Atom, Operand, Part, Query};

/// Whether each variable of a problem stands in its goal or an entry, as a template asks for it.
pub fn each_var_stands(problem: &Problem) -> bool
    ensures { IsTrue result ↔ EachVarStands problem.now }
{
    for n in 0..problem.vars.len() {
        if !in_problem(problem, n) {
            return false;
        }
    }
    true
}

fn in_problem(problem: &Problem, n: usize) -> bool
    ensures { result ≡ standing.in_problem n problem.now }
{
    in_query(&problem.goal, n) || in_entries(problem.entries.as_slice(), n)
}

fn in_entries(entries: &[ProblemEntry], n: usize) -> bool
    ensures { result ≡ list_any (standing.in_entry n) entries.now }
{
    entries.iter().any(|entry| in_entry(entry, n))
}

fn in_entry(entry: &ProblemEntry, n: usize) -> bool
    ensures { result ≡ standing.in_entry n entry.now }
{
    in_query(&entry.query, n) || in_operands(entry.row.as_slice(), n)
}

fn in_query(query: &Query, n: usize) -> bool
    ensures { result ≡ standing.in_query n query.now }
{
    query.parts.as_slice().iter().any(|part| in_part(part, n))
}

fn in_part(part: &Part, n: usize) -> bool
    ensures { result ≡ standing.in_part n part.now }
{
    in_operands(part.head.as_slice(), n) || in_atoms(part.conds.as_slice(), n)
}

fn in_atoms(atoms: &[Atom], n: usize) -> bool
    ensures { result ≡ list_any (standing.in_atom n) atoms.now }
{
    atoms.iter().any(|atom| in_atom(atom, n))
}

fn in_atom(atom: &Atom, n: usize) -> bool
    ensures { result ≡ standing.in_atom n atom.now }
{
    is_var(&atom.left, n) || is_var(&atom.right, n)
}

fn in_operands(operands: &[Operand], n: usize) -> bool
    ensures { result ≡ list_any (standing.is_var n) operands.now }
{
    operands.iter().any(|operand| is_var(operand, n))
}

fn is_var(operand: &Operand, n: usize) -> bool
    ensures { result ≡ standing.is_var n operand.now }
{
    match operand {
        Operand::Var(m) => *m as usize == n,
        Operand::Col(_, _) | Operand::Val(_) | Operand::Param(_) => false,
    }
}
