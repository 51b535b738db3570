//! Which tables the facts of each branch are of, without the branches themselves.
ghost use Rattle.std.specs.Prelude.{◌≡◌, ◌+◌, ◌++◌, [], IfOk, OnOk, length, replicate, slice_set};
ghost use Rattle.ba_kernel.specs.Courses.{branch_of};
ghost use Rattle.ba_model.specs.SchemaFaults.{columns_of};
ghost use Rattle.ba_general.specs.Layouts.{adds, counts, entry_adds, from_of, one_of_table, put_at, put_cases, rule_adds, start_layout, tables_on, target_of, view_adds, wide};

use ba_kernel::{Problem, Step};
use ba_model::{List, Part};
use std::alloc::{AllocError, Global};

/// For each number that was given to a branch the tables of its facts, in order, and how many
/// unknowns they have. Those of a closed branch are left as they were.
#[derive(Debug, Drop)]
pub struct Layout {
    pub tables: Vec<List<u32>>,
    pub unknowns: Vec<usize>,
}

impl Layout {
    /// The start's branches: one for each part of the goal, with a fact for each of its tables.
    pub fn start(alloc: Global, problem: &Problem) -> Result<Layout, AllocError>
        ensures tables { IfOk result (λ it. it.tables.items ≡ start_layout problem.now) }
        ensures counted { IfOk result (λ it. it.unknowns.items ≡ counts problem.now it.tables.items) }
    {
        let tables = froms(alloc, problem.goal.parts.as_slice())?;
        let unknowns = column_counts(alloc, problem, tables.as_slice())?;
        Ok(Layout { tables, unknowns })
    }

    /// How many numbers were given to branches.
    pub fn branches(&self) -> usize
        ensures { result ≡ length self.now.tables.items }
    {
        self.tables.len()
    }

    /// The tables of the facts of a branch; none where there is no branch of the number.
    pub fn tables(&self, branch: u32) -> &[u32]
        ensures { result.now ≡ tables_on self.now.tables.items branch }
    {
        match self.tables.get(branch as usize) {
            Some(tables) => tables.as_slice(),
            None => &[],
        }
    }

    /// How many unknowns the facts of a branch have.
    pub fn unknowns(&self, problem: &Problem, branch: u32) -> usize
        requires { self.now.unknowns.items ≡ counts problem.now self.now.tables.items }
        ensures { result ≡ wide problem.now.policy.schema (tables_on self.now.tables.items branch) }
    {
        match self.unknowns.get(branch as usize) {
            Some(count) => *count,
            None => 0,
        }
    }

    /// The tables of the facts that a step adds in each of its cases.
    pub fn added(
        &self,
        alloc: Global,
        problem: &Problem,
        step: &Step,
    ) -> Result<Vec<List<u32>>, AllocError>
        ensures { IfOk result (λ it. it.items ≡ adds problem.now (tables_on self.now.tables.items (branch_of step.now)) step.now) }
    {
        match step {
            Step::Entry { entry, .. } => entry_adds(alloc, problem, *entry),
            Step::Key { .. } => nothing(alloc, 1),
            Step::Link { branch, link, fact } => {
                target(alloc, problem, self.tables(*branch), *link, *fact)
            }
            Step::Rule { rule, .. } => rule_adds(alloc, problem, *rule),
            Step::View { view, .. } => view_adds(alloc, problem, *view),
            Step::Split { .. } => nothing(alloc, 2),
            Step::Absurd { .. } | Step::Goal { .. } => nothing(alloc, 0),
        }
    }

    /// The cases that a step makes of a branch, each with new facts of these tables: the first keeps
    /// the branch's number, and the others get the next ones.
    pub fn put(
        &mut self,
        alloc: Global,
        problem: &Problem,
        branch: u32,
        cases: Vec<List<u32>>,
    ) -> Result<(), AllocError>
        requires { self.old.unknowns.items ≡ counts problem.now self.old.tables.items }
        ensures tables { OnOk result (self.new.tables.items ≡ put_cases self.old.tables.items branch (tables_on self.old.tables.items branch) cases.items) }
        ensures counted { OnOk result (self.new.unknowns.items ≡ counts problem.now self.new.tables.items) }
    {
        if cases.len() == 1 {
            return self.add(problem, branch, cases[0].as_slice());
        }
        self.put_all(alloc, problem, branch, cases)
    }

    /// New facts of a branch.
    fn add(&mut self, problem: &Problem, branch: u32, added: &[u32]) -> Result<(), AllocError>
        requires { self.old.unknowns.items ≡ counts problem.now self.old.tables.items }
        ensures tables { OnOk result (self.new.tables.items ≡ slice_set self.old.tables.items branch (tables_on self.old.tables.items branch ++ added.now)) }
        ensures counted { OnOk result (self.new.unknowns.items ≡ counts problem.now self.new.tables.items) }
    {
        let count = column_count(problem, added)?;
        let count = sum(self.unknowns(problem, branch), count)?;
        set_count(&mut self.unknowns, branch, count);
        extend_at(&mut self.tables, branch, added)
    }

    fn put_all(
        &mut self,
        alloc: Global,
        problem: &Problem,
        branch: u32,
        cases: Vec<List<u32>>,
    ) -> Result<(), AllocError>
        requires { self.old.unknowns.items ≡ counts problem.now self.old.tables.items }
        ensures tables { OnOk result (self.new.tables.items ≡ put_cases self.old.tables.items branch (tables_on self.old.tables.items branch) cases.items) }
        ensures counted { OnOk result (self.new.unknowns.items ≡ counts problem.now self.new.tables.items) }
    {
        let old = copy_numbers(alloc, self.tables(branch))?;
        for n in 0..cases.len() {
            let tables = joined(alloc, old.as_slice(), cases[n].as_slice())?;
            self.put_case(problem, branch, n, tables)?;
        }
        Ok(())
    }

    fn put_case(
        &mut self,
        problem: &Problem,
        branch: u32,
        number: usize,
        tables: List<u32>,
    ) -> Result<(), AllocError>
        requires { self.old.unknowns.items ≡ counts problem.now self.old.tables.items }
        ensures tables { OnOk result (self.new.tables.items ≡ put_at self.old.tables.items branch number tables) }
        ensures counted { OnOk result (self.new.unknowns.items ≡ counts problem.now self.new.tables.items) }
    {
        let count = column_count(problem, tables.as_slice())?;
        if number != 0 {
            self.unknowns.push(count)?;
            self.tables.push(tables)?;
            return Ok(());
        }
        set_count(&mut self.unknowns, branch, count);
        set_tables(&mut self.tables, branch, tables);
        Ok(())
    }
}

fn set_count(counts: &mut Vec<usize>, branch: u32, count: usize)
    ensures { counts.new.items ≡ slice_set counts.old.items branch count }
{
    if let Some(place) = counts.get_mut(branch as usize) {
        *place = count;
    }
}

fn set_tables(all: &mut Vec<List<u32>>, branch: u32, tables: List<u32>)
    ensures { all.new.items ≡ slice_set all.old.items branch tables }
{
    if let Some(place) = all.get_mut(branch as usize) {
        *place = tables;
    }
}

fn extend_at(all: &mut Vec<List<u32>>, branch: u32, added: &[u32]) -> Result<(), AllocError>
    ensures { OnOk result (all.new.items ≡ slice_set all.old.items branch (tables_on all.old.items branch ++ added.now)) }
{
    if let Some(place) = all.get_mut(branch as usize) {
        extend(place, added)?;
    }
    Ok(())
}

/// How many unknowns facts of each of these tables have.
fn column_counts(
    alloc: Global,
    problem: &Problem,
    layout: &[List<u32>],
) -> Result<Vec<usize>, AllocError>
    ensures { IfOk result (λ it. it.items ≡ counts problem.now layout.now) }
{
    let mut all = Vec::new(alloc);
    for tables in layout {
        all.push(column_count(problem, tables.as_slice())?)?;
    }
    Ok(all)
}

/// How many unknowns facts of these tables have: one for each column.
pub fn column_count(problem: &Problem, tables: &[u32]) -> Result<usize, AllocError>
    ensures { IfOk result (λ it. it ≡ wide problem.now.policy.schema tables.now) }
{
    let mut count = 0;
    for table in tables {
        count = sum(count, columns(problem, *table))?;
    }
    Ok(count)
}

/// The sum. More than a machine's word holds is told as want of memory.
pub fn sum(count: usize, more: usize) -> Result<usize, AllocError>
    ensures { IfOk result (λ it. it ≡ count + more) }
{
    match count.checked_add(more) {
        Some(sum) => Ok(sum),
        None => Err(AllocError),
    }
}

fn columns(problem: &Problem, table: u32) -> usize
    ensures { result ≡ length (columns_of problem.now.policy.schema.tables table) }
{
    match problem.policy.schema.tables.find(table as usize) {
        Some(table) => table.columns.len(),
        None => 0,
    }
}

fn extend(numbers: &mut List<u32>, more: &[u32]) -> Result<(), AllocError>
    ensures { OnOk result (numbers.new ≡ numbers.old ++ more.now) }
{
    for number in more {
        numbers.push(*number)?;
    }
    Ok(())
}

fn copy_numbers(alloc: Global, numbers: &[u32]) -> Result<List<u32>, AllocError>
    ensures { IfOk result (λ it. it ≡ numbers.now) }
{
    joined(alloc, numbers, &[])
}

fn joined(alloc: Global, left: &[u32], right: &[u32]) -> Result<List<u32>, AllocError>
    ensures { IfOk result (λ it. it ≡ left.now ++ right.now) }
{
    let mut all = Vec::new(alloc);
    all.extend_from_slice(left)?;
    all.extend_from_slice(right)?;
    Ok(List::from_vec(all))
}

/// The tables of each part.
fn froms(alloc: Global, parts: &[Part]) -> Result<Vec<List<u32>>, AllocError>
    ensures { IfOk result (λ it. it.items ≡ from_of parts.now) }
{
    let mut all = Vec::new(alloc);
    for part in parts {
        all.push(copy_numbers(alloc, part.from.as_slice())?)?;
    }
    Ok(all)
}

/// So many cases without a new fact.
fn nothing(alloc: Global, cases: usize) -> Result<Vec<List<u32>>, AllocError>
    ensures { IfOk result (λ it. it.items ≡ replicate cases []) }
{
    let mut all = Vec::new(alloc);
    for _ in 0..cases {
        all.push(List::new(alloc))?;
    }
    Ok(all)
}

fn entry_adds(alloc: Global, problem: &Problem, entry: u64) -> Result<Vec<List<u32>>, AllocError>
    ensures { IfOk result (λ it. it.items ≡ entry_adds problem.now entry) }
{
    match problem.entries.find(entry as usize) {
        Some(entry) => froms(alloc, entry.query.parts.as_slice()),
        None => nothing(alloc, 0),
    }
}

fn rule_adds(alloc: Global, problem: &Problem, rule: u32) -> Result<Vec<List<u32>>, AllocError>
    ensures { IfOk result (λ it. it.items ≡ rule_adds problem.now rule) }
{
    match problem.policy.schema.rules.find(rule as usize) {
        Some(rule) => froms(alloc, rule.right.parts.as_slice()),
        None => nothing(alloc, 0),
    }
}

fn view_adds(alloc: Global, problem: &Problem, view: u32) -> Result<Vec<List<u32>>, AllocError>
    ensures { IfOk result (λ it. it.items ≡ view_adds problem.now view) }
{
    match problem.policy.views.find(view as usize) {
        Some(view) => froms(alloc, view.query.parts.as_slice()),
        None => nothing(alloc, 0),
    }
}

/// One case with a fact of the link's target table, if there is such a link of the fact.
fn target(
    alloc: Global,
    problem: &Problem,
    tables: &[u32],
    link: u32,
    fact: u32,
) -> Result<Vec<List<u32>>, AllocError>
    ensures { IfOk result (λ it. it.items ≡ target_of problem.now tables.now link fact) }
{
    let mut all = nothing(alloc, 0)?;
    if let Some(table) = target_table(problem, tables, link, fact) {
        all.push(copy_numbers(alloc, &[table])?)?;
    }
    Ok(all)
}

fn target_table(problem: &Problem, tables: &[u32], link: u32, fact: u32) -> Option<u32>
    ensures { target_of problem.now tables.now link fact ≡ one_of_table result }
{
    let number = tables.get(fact as usize)?;
    let table = problem.policy.schema.tables.find(*number as usize)?;
    let link = table.links.find(link as usize)?;
    Some(link.target)
}
