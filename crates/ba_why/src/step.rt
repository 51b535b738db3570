//! Steps of a derivation in words.

use crate::given::Given;
use crate::scene::Scene;
use crate::text::{atom_text, columns_text, fact_text, rule_sql};
use ba_facts::{Branch, TermAtom};
use ba_hints::view_name;
use ba_kernel::{Search, Step};
use ba_model::{List, Table};
use std::alloc::{AllocError, Global};

/// Why a step was taken, after it: what goes before the facts that it adds. `branches` is how many
/// numbers of branches there were before.
pub fn cause_text(
    alloc: Global,
    given: &Given,
    scene: &Scene,
    search: &Search,
    branches: u32,
    step: &Step,
) -> Result<String, AllocError> {
    match step {
        Step::Entry { entry, .. } => {
            let told = scene.told_in_all(alloc, *entry)?;
            format!(in alloc; "{told}, so ")
        }
        Step::Key {
            branch,
            key,
            left,
            ..
        } => key_text(alloc, given, search.branch(*branch), *key, *left),
        Step::Link { branch, link, fact } => {
            link_text(alloc, given, search.branch(*branch), *link, *fact)
        }
        Step::Rule {
            branch,
            rule,
            facts,
            ..
        } => rule_text(alloc, given, search.branch(*branch), *rule, facts),
        Step::View {
            branch,
            view,
            facts,
            ..
        } => {
            let name = view_name(given.policy(), *view as usize);
            let facts = used_text(alloc, given, search.branch(*branch), facts)?;
            format!(in alloc; "view {name} shows a row of {facts}, so ")
        }
        Step::Split { branch, atom } => {
            split_text(alloc, given, search.branch(*branch), branches, atom)
        }
        Step::Absurd { .. } => String::from_str(alloc, "what is known can't be true"),
        Step::Goal { .. } => {
            String::from_str(alloc, "so the question gives the row in the second too")
        }
    }
}

// The table of the fact of a number, if it is there.
fn table_of<'a>(given: &'a Given, branch: &Branch, number: u32) -> Option<&'a Table> {
    let table = branch.facts.find(number as usize)?.table;
    given.policy().schema.tables.find(table as usize)
}

// Two rows are one by a key: the columns of the key, and the row.
fn key_text(
    alloc: Global,
    given: &Given,
    branch: Option<&Branch>,
    key: u32,
    number: u32,
) -> Result<String, AllocError> {
    if let Some(branch) = branch
        && let Some(table) = table_of(given, branch, number)
        && let Some(columns) = table.keys.find(key as usize)
        && let Some(fact) = branch.facts.find(number as usize)
    {
        let columns = columns_text(alloc, table, columns)?;
        let fact = fact_text(alloc, given.policy(), branch, fact)?;
        return format!(in alloc; "by the key {columns} two rows are one: {fact}");
    }
    String::from_str(alloc, "by a key two rows are one")
}

// Facts of these numbers.
fn used_text(
    alloc: Global,
    given: &Given,
    branch: Option<&Branch>,
    numbers: &List<u32>,
) -> Result<String, AllocError> {
    let mut texts = Vec::new(alloc);
    for number in numbers.as_slice() {
        if let Some(branch) = branch
            && let Some(fact) = branch.facts.find(*number as usize)
        {
            let text = fact_text(alloc, given.policy(), branch, fact)?;
            texts.push(text)?;
        }
    }
    texts.join(alloc, ", ")
}

// A row has its target by a link: the row, and the columns of the link.
fn link_text(
    alloc: Global,
    given: &Given,
    branch: Option<&Branch>,
    link: u32,
    number: u32,
) -> Result<String, AllocError> {
    if let Some(branch) = branch
        && let Some(table) = table_of(given, branch, number)
        && let Some(link) = table.links.find(link as usize)
        && let Some(fact) = branch.facts.find(number as usize)
    {
        let fact = fact_text(alloc, given.policy(), branch, fact)?;
        let columns = columns_text(alloc, table, &link.columns)?;
        return format!(in alloc; "{fact} links by {columns}, so ");
    }
    String::from_str(alloc, "by a link ")
}

// A rule holds of a row: its two queries, and the facts that give the row.
fn rule_text(
    alloc: Global,
    given: &Given,
    branch: Option<&Branch>,
    rule: u32,
    facts: &List<u32>,
) -> Result<String, AllocError> {
    let said = rule_sql(alloc, given.policy(), rule as usize)?;
    let facts = used_text(alloc, given, branch, facts)?;
    format!(in alloc; "rule {rule} makes {said}, here one of {facts}, so ")
}

// A comparison holds in one case, and not in the other.
fn split_text(
    alloc: Global,
    given: &Given,
    branch: Option<&Branch>,
    branches: u32,
    atom: &TermAtom,
) -> Result<String, AllocError> {
    let other = branches.saturating_add(1);
    match branch {
        Some(branch) => {
            let atom = atom_text(alloc, given.policy(), branch, atom)?;
            format!(in alloc; "{atom} here, and not in case {other}")
        }
        None => String::from_str(alloc, "a comparison holds, or it doesn't"),
    }
}
