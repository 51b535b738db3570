//! A proof's problem with a variable for each literal.
ghost use Rattle.std.specs.Prelude.{◌≡◌, ◌<◌, ◌++◌, All, IfOk, OnOk, length};
ghost use Rattle.ba_kernel.specs.Courses.{ProblemFits};
ghost use Rattle.ba_general.specs.Conditions.{HasOperands, parameter_of, parameters_of, variables};
ghost use Rattle.ba_general.specs.Generals.{IsOfQuestion};
ghost use Rattle.ba_general.specs.Patterns.{IsPattern, assuming};

use crate::copies::{copy_entries, copy_kinds};
use crate::naming::Naming;
use ba_facts::number_of;
use ba_kernel::Problem;
use ba_model::{Atom, Duplicate, List, Operand, Value};
use std::alloc::{AllocError, Global};

/// An operand that no column is, and its value in the proof.
#[derive(Debug, Drop)]
pub struct Valued {
    pub operand: Operand,
    pub value: Value,
}

/// The problem, which assumes nothing yet, and the values of its operands in the proof: of the
/// variables, then of the parameters.
#[derive(Debug, Drop)]
pub struct Pattern {
    pub problem: Problem,
    pub values: List<Value>,
    pub operands: List<Valued>,
}

impl Pattern {
    /// The pattern of a question's problem, with those of its entries that have these numbers.
    pub fn of(alloc: Global, problem: &Problem, numbers: &[u64]) -> Result<Pattern, AllocError>
        requires fits { ProblemFits problem.now }
        requires question { IsOfQuestion problem.now }
        requires there { All (λ n. n < length problem.now.entries) numbers.now }
        ensures pattern { IfOk result (λ it. IsPattern problem.now numbers.now it.problem it.values) }
        ensures operands { IfOk result (λ it. HasOperands problem.now it.values it.operands) }
    {
        let mut naming = Naming::new(alloc);
        let goal = naming.query(alloc, &problem.goal)?;
        let entries = naming.entries(alloc, problem, numbers)?;
        let operands = operands(alloc, naming.values.as_slice(), problem.assumed.as_slice())?;
        let Naming { kinds, values } = naming;
        let problem = Problem {
            policy: problem.policy.copy(alloc)?,
            vars: kinds,
            assumed: List::new(alloc),
            entries,
            goal,
        };
        Ok(Pattern {
            problem,
            values,
            operands,
        })
    }

    /// The problem with these atoms assumed.
    pub fn assuming(&self, alloc: Global, assumed: List<Atom>) -> Result<Problem, AllocError>
        ensures { IfOk result (λ it. it ≡ assuming self.now.problem assumed) }
    {
        let entries = copy_entries(alloc, &self.problem.entries)?;
        let vars = copy_kinds(alloc, &self.problem.vars)?;
        Ok(Problem {
            policy: self.problem.policy.copy(alloc)?,
            vars,
            assumed,
            entries,
            goal: self.problem.goal.copy(alloc)?,
        })
    }
}

/// The variables with their values, then the parameters with theirs, which the problem of the
/// question assumes one by one.
fn operands(alloc: Global, values: &[Value], assumed: &[Atom]) -> Result<List<Valued>, AllocError>
    ensures { IfOk result (λ it. it ≡ variables values.now ++ parameters_of assumed.now) }
{
    let mut all = List::new(alloc);
    add_variables(alloc, &mut all, values)?;
    add_parameters(alloc, &mut all, assumed)?;
    Ok(all)
}

fn add_variables(alloc: Global, all: &mut List<Valued>, values: &[Value]) -> Result<(), AllocError>
    ensures { OnOk result (all.new ≡ all.old ++ variables values.now) }
{
    for n in 0..values.len() {
        let operand = Operand::Var(number_of(n)?);
        let value = values[n].copy(alloc)?;
        all.push(Valued { operand, value })?;
    }
    Ok(())
}

fn add_parameters(alloc: Global, all: &mut List<Valued>, assumed: &[Atom]) -> Result<(), AllocError>
    ensures { OnOk result (all.new ≡ all.old ++ parameters_of assumed.now) }
{
    for atom in assumed {
        add_parameter(alloc, all, atom)?;
    }
    Ok(())
}

fn add_parameter(alloc: Global, all: &mut List<Valued>, atom: &Atom) -> Result<(), AllocError>
    ensures { OnOk result (all.new ≡ all.old ++ parameter_of atom.now) }
{
    let Operand::Val(value) = &atom.right else {
        return Ok(());
    };
    let operand = atom.left.copy(alloc)?;
    let value = value.copy(alloc)?;
    all.push(Valued { operand, value })
}
