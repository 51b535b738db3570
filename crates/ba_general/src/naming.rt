//! Variables for literals, in printed order.
ghost use Rattle.std.specs.Prelude.{◌≡◌, ◌<◌, [], All, IfOk, length};
ghost use Rattle.ba_general.specs.Patterns.{NamesAtom, NamesAtoms, NamesEntries, NamesEntry, NamesOperand, NamesOperands, NamesParts, NamesQuery, AtomIsAsked, AtomRepeats, EntryIsAsked, EntryRepeats, IsGiven, IsOneSided, IsTwoSided, PartIsAsked, PartRepeats, QueryIsAsked, QueryRepeats};
ghost use Rattle.ba_model.specs.declared.query.Operand.TheVariants.{Val};

use ba_facts::number_of;
use ba_kernel::{Problem, ProblemEntry};
use ba_model::{Atom, Duplicate, Kind, List, Op, Operand, Part, Query, Shared, Value};
use std::alloc::{AllocError, Global};
use std::marker::Model;

/// The variables that were given so far: each one's kind and the literal that it stands for.
#[derive(Debug, Drop)]
pub struct Naming {
    pub kinds: List<Kind>,
    pub values: List<Value>,
}

impl Model for Naming {
    ghost use Rattle.ba_general.specs.Patterns.{Named as Variables};

    ghost Value = { Variables };

    ghost view = { λ it. record { kinds = it.kinds; values = it.values } };
}

impl Naming {
    /// No variable yet.
    pub fn new(alloc: Global) -> Naming
        ensures { result ≡ record { kinds = []; values = [] } }
    {
        Naming {
            kinds: List::new(alloc),
            values: List::new(alloc),
        }
    }

    /// The query with a variable of its own for each literal: part by part its head's, then its
    /// atoms', left before right.
    pub fn query(&mut self, alloc: Global, query: &Query) -> Result<Shared<Query>, AllocError>
        requires { QueryIsAsked query.now }
        ensures names { IfOk result (NamesQuery self.old query.now self.new) }
        ensures repeats { IfOk result QueryRepeats }
    {
        let mut parts = List::new(alloc);
        for part in query.parts.as_slice() {
            parts.push(self.part(alloc, part)?)?;
        }
        Shared::new(alloc, Query { parts })
    }

    /// The entries of these numbers, each with variables for its query's literals, then for its row's.
    pub fn entries(
        &mut self,
        alloc: Global,
        problem: &Problem,
        numbers: &[u64],
    ) -> Result<List<ProblemEntry>, AllocError>
        requires there { All (λ n. n < length problem.now.entries) numbers.now }
        requires asked { All EntryIsAsked problem.now.entries }
        ensures names { IfOk result (NamesEntries self.old problem.now.entries numbers.now self.new) }
        ensures repeats { IfOk result (All EntryRepeats) }
    {
        let mut entries = List::new(alloc);
        for number in numbers {
            let entry = self.entry(alloc, problem.entries.get(*number as usize))?;
            entries.push(entry)?;
        }
        Ok(entries)
    }

    fn entry(&mut self, alloc: Global, entry: &ProblemEntry) -> Result<ProblemEntry, AllocError>
        requires { EntryIsAsked entry.now }
        ensures names { IfOk result (NamesEntry self.old entry.now self.new) }
        ensures repeats { IfOk result EntryRepeats }
    {
        let query = self.query(alloc, &entry.query)?;
        let row = self.operands(alloc, entry.row.as_slice())?;
        Ok(ProblemEntry { query, row })
    }

    fn part(&mut self, alloc: Global, part: &Part) -> Result<Part, AllocError>
        requires { PartIsAsked part.now }
        ensures names { IfOk result (NamesParts self.old part.now self.new) }
        ensures repeats { IfOk result PartRepeats }
    {
        let head = self.operands(alloc, part.head.as_slice())?;
        let conds = self.atoms(alloc, part.conds.as_slice())?;
        Ok(Part {
            from: part.from.copy(alloc)?,
            conds,
            head,
        })
    }

    fn atoms(&mut self, alloc: Global, atoms: &[Atom]) -> Result<List<Atom>, AllocError>
        requires { All AtomIsAsked atoms.now }
        ensures names { IfOk result (NamesAtoms self.old atoms.now self.new) }
        ensures repeats { IfOk result (All AtomRepeats) }
    {
        let mut all = List::new(alloc);
        for atom in atoms {
            all.push(self.atom(alloc, atom)?)?;
        }
        Ok(all)
    }

    fn atom(&mut self, alloc: Global, atom: &Atom) -> Result<Atom, AllocError>
        requires { AtomIsAsked atom.now }
        ensures names { IfOk result (NamesAtom self.old atom.now self.new) }
        ensures repeats { IfOk result AtomRepeats }
    {
        match atom.op {
            Op::IsNull | Op::NotNull => self.one_sided(alloc, atom),
            Op::Eq | Op::Ne | Op::Lt | Op::Le => self.two_sided(alloc, atom),
        }
    }

    /// The right side repeats the left.
    fn one_sided(&mut self, alloc: Global, atom: &Atom) -> Result<Atom, AllocError>
        requires asked { AtomIsAsked atom.now }
        requires one { IsOneSided atom.now.op }
        ensures names { IfOk result (NamesAtom self.old atom.now self.new) }
        ensures repeats { IfOk result AtomRepeats }
    {
        let left = self.operand(alloc, &atom.left)?;
        let right = left.copy(alloc)?;
        Ok(Atom {
            op: atom.op,
            left,
            right,
        })
    }

    fn two_sided(&mut self, alloc: Global, atom: &Atom) -> Result<Atom, AllocError>
        requires asked { AtomIsAsked atom.now }
        requires two { IsTwoSided atom.now.op }
        ensures names { IfOk result (NamesAtom self.old atom.now self.new) }
        ensures repeats { IfOk result AtomRepeats }
    {
        let left = self.operand(alloc, &atom.left)?;
        let right = self.operand(alloc, &atom.right)?;
        Ok(Atom {
            op: atom.op,
            left,
            right,
        })
    }

    fn operands(&mut self, alloc: Global, operands: &[Operand]) -> Result<List<Operand>, AllocError>
        requires { All IsGiven operands.now }
        ensures { IfOk result (NamesOperands self.old operands.now self.new) }
    {
        let mut all = List::new(alloc);
        for operand in operands {
            all.push(self.operand(alloc, operand)?)?;
        }
        Ok(all)
    }

    /// A literal becomes the next variable; NULL, of which there is no variable, stays.
    fn operand(&mut self, alloc: Global, operand: &Operand) -> Result<Operand, AllocError>
        requires { IsGiven operand.now }
        ensures { IfOk result (NamesOperand self.old operand.now self.new) }
    {
        match operand {
            Operand::Val(value) => self.literal(alloc, value),
            _ => operand.copy(alloc),
        }
    }

    fn literal(&mut self, alloc: Global, value: &Value) -> Result<Operand, AllocError>
        ensures { IfOk result (NamesOperand self.old (Val value.now) self.new) }
    {
        let Some(kind) = value.kind() else {
            return Ok(Operand::Val(Value::Null));
        };
        let number = number_of(self.values.len())?;
        self.kinds.push(kind)?;
        self.values.push(value.copy(alloc)?)?;
        Ok(Operand::Var(number))
    }
}
