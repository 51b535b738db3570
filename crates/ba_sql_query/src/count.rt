//! How many parts a query has, counted before any is built.
ghost use Rattle.std.specs.Prelude.{◌≡◌, [], IfOk, OnOk, length, min, not, reverse, suc};
ghost use Rattle.std.specs.List.{list_all};
ghost use Rattle.ba_model.specs.QueryFaults as faults;
ghost use Rattle.ba_model.specs.Limits.{most_parts};
ghost use Rattle.ba_sql_query.specs.Parts.{count_after, count_both, count_either, count_join, count_of, count_run, count_sum, count_top, fits_by, measure, members, parts_of};

use crate::resolved::{ResolvedNode, ResolvedSelect, ResolvedTest};
use ba_model::{MAX_ATOMS, MAX_HEAD, MAX_PART_TABLES, MAX_PARTS};
use std::alloc::{AllocError, Global};

/// More parts than a query may have: counts are held here.
const PARTS: usize = MAX_PARTS + 1;

/// More atoms than a part may have.
const ATOMS: usize = MAX_ATOMS + 1;

/// How many members a condition's disjunctive form has, and how many atoms the longest.
#[derive(Clone, Copy, Debug, Drop)]
pub struct Count {
    pub parts: usize,
    pub longest: usize,
}

// How many parts a query has, held above the limit, and whether each is within its limits.
#[derive(Clone, Copy, Debug, Drop)]
struct Total {
    parts: usize,
    fits: bool,
}

/// Whether a query has some part, and whether its counts are within the limits.
#[derive(Clone, Copy, Debug, Drop)]
pub struct Size {
    pub some: bool,
    pub within: bool,
}

impl Count {
    fn of(test: &ResolvedTest) -> Count
        ensures { result ≡ count_of test.now }
    {
        match test {
            ResolvedTest::One(_) => Count {
                parts: 1,
                longest: 1,
            },
            ResolvedTest::Among { among, .. } => Count {
                parts: among.len().min(PARTS),
                longest: among.len().min(1),
            },
        }
    }

    // A AND B
    fn both(self, other: Count) -> Count
        ensures { result ≡ count_both self other }
    {
        let parts = self.parts.saturating_mul(other.parts).min(PARTS);
        let longest = if parts == 0 {
            0
        } else {
            self.longest.saturating_add(other.longest).min(ATOMS)
        };
        Count { parts, longest }
    }

    // A OR B
    fn either(self, other: Count) -> Count
        ensures { result ≡ count_either self other }
    {
        Count {
            parts: self.parts.saturating_add(other.parts).min(PARTS),
            longest: self.longest.max(other.longest),
        }
    }
}

fn count_join(stack: &mut Vec<Count>) -> Result<(), AllocError>
    ensures { OnOk result (reverse stack.new.items ≡ count_join (reverse stack.old.items)) }
{
    let Some(right) = stack.pop() else {
        return Ok(());
    };
    match stack.pop() {
        Some(left) => stack.push(left.both(right))?,
        None => stack.push(right)?,
    }
    Ok(())
}

fn count_sum(stack: &mut Vec<Count>) -> Result<(), AllocError>
    ensures { OnOk result (reverse stack.new.items ≡ count_sum (reverse stack.old.items)) }
{
    let Some(right) = stack.pop() else {
        return Ok(());
    };
    match stack.pop() {
        Some(left) => stack.push(left.either(right))?,
        None => stack.push(right)?,
    }
    Ok(())
}

#[tactic(auto, unfolding(crate::specs::Parts::count_after))]
fn count_after(stack: &mut Vec<Count>, node: &ResolvedNode) -> Result<(), AllocError>
    ensures { OnOk result
        (reverse stack.new.items ≡ count_after node.now (reverse stack.old.items)) }
{
    match node {
        ResolvedNode::Test(test) => {
            stack.push(Count::of(test))?;
            Ok(())
        }
        ResolvedNode::And => count_join(stack),
        ResolvedNode::Or => count_sum(stack),
    }
}

fn count_run(alloc: Global, condition: &[ResolvedNode]) -> Result<Count, AllocError>
    ensures { IfOk result (λ count. count ≡ count_top (count_run condition.now [])) }
{
    let mut stack = Vec::new(alloc);
    for node in condition {
        count_after(&mut stack, node)?;
    }
    match stack.pop() {
        Some(count) => Ok(count),
        None => Ok(Count {
            parts: 1,
            longest: 0,
        }),
    }
}

fn counted(alloc: Global, condition: &[ResolvedNode]) -> Result<Count, AllocError>
    ensures { IfOk result (λ count. count ≡ measure (members condition.now)) }
{
    count_run(alloc, condition)
}

fn fits(select: &ResolvedSelect, count: Count) -> bool
    ensures { result ≡ fits_by select.now count }
{
    if count.parts == 0 {
        return true;
    }
    select.from.len() <= MAX_PART_TABLES
        && count.longest <= MAX_ATOMS
        && select.head.len() <= MAX_HEAD
}

fn total_of(alloc: Global, selects: &[ResolvedSelect]) -> Result<Total, AllocError>
    ensures parts { IfOk result
        (λ total. total.parts ≡ min (length (parts_of selects.now)) (suc most_parts)) }
    ensures fits { IfOk result
        (λ total. total.fits ≡ list_all faults.part_within (parts_of selects.now)) }
{
    let mut parts = 0;
    let mut all_fit = true;
    for select in selects {
        let count = counted(alloc, select.condition.as_slice())?;
        parts = count.parts.saturating_add(parts).min(PARTS);
        all_fit = all_fit && fits(select, count);
    }
    let fits = all_fit;
    Ok(Total { parts, fits })
}

/// The size of the selects' parts, which aren't built.
pub fn size_of(alloc: Global, selects: &[ResolvedSelect]) -> Result<Size, AllocError>
    ensures some { IfOk result (λ size. size.some ≡ not (faults.is_empty (parts_of selects.now))) }
    ensures within { IfOk result (λ size. size.within ≡ faults.within (parts_of selects.now)) }
{
    let total = total_of(alloc, selects)?;
    let some = total.parts > 0;
    let within = total.parts <= MAX_PARTS && total.fits;
    Ok(Size { some, within })
}
