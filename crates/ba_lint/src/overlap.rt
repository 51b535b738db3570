//! Views that another view shows already.

use crate::finding::Finding;
use crate::report::Report;
use crate::written::PolicyText;
use ba_direct::cover;
use ba_hints::{Term, view_name};
use ba_model::{Context, Duplicate, Kind, List, Parameter, Policy, Str, Value, View};
use std::alloc::{AllocError, Global};

// The least value of a parameter. (No policy is thought to compare with it and those behind it.)
const FIRST_NUMBER: i64 = -9_111_222_333_444_555_666;

// A value that differs from those of the other parameters.
fn value_of(alloc: Global, number: i64, kind: Kind) -> Result<Value, AllocError> {
    match kind {
        Kind::Int => Ok(Value::Int(FIRST_NUMBER.saturating_add(number))),
        Kind::Text => {
            let text = format!(in alloc; "\u{1}parameter {number}")?;
            Value::text(alloc, Str::from_string(text))
        }
    }
}

// Values for the parameters of which no two are equal. What a view covers under them it covers
// under any.
fn any_context(alloc: Global, params: &[Parameter]) -> Result<Context, AllocError> {
    let mut values = List::new(alloc);
    let mut number = 0i64;
    for param in params {
        values.push(value_of(alloc, number, param.kind)?)?;
        number = number.saturating_add(1);
    }
    Ok(Context { values })
}

// A list of that view alone.
fn only(alloc: Global, view: &View) -> Result<List<View>, AllocError> {
    let mut views = List::new(alloc);
    views.push(view.copy(alloc)?)?;
    Ok(views)
}

// The policy with that view alone.
fn with_only(alloc: Global, policy: &Policy, view: &View) -> Result<Policy, AllocError> {
    let views = only(alloc, view)?;
    let params = policy.params.copy(alloc)?;
    let schema = policy.schema.copy(alloc)?;
    Ok(Policy {
        schema,
        params,
        views,
        keys: List::new(alloc),
    })
}

// For each view the policy with that alone.
fn split_views(alloc: Global, policy: &Policy) -> Result<Vec<Policy>, AllocError> {
    let mut all = Vec::new(alloc);
    for view in policy.views.as_slice() {
        all.push(with_only(alloc, policy, view)?)?;
    }
    Ok(all)
}

/// A policy split into its views, under values of its parameters.
#[derive(Drop)]
struct Split<'a> {
    alloc: Global,
    policy: &'a Policy,
    each: Vec<Policy>,
    context: Context,
}

impl Split<'_> {
    // Whether a view covers the query of another, by their numbers.
    fn covers(&self, view: usize, other: usize) -> Result<bool, AllocError> {
        let (Some(policy), Some(other)) = (self.each.get(view), self.policy.views.find(other))
        else {
            return Ok(false);
        };
        let found = cover(self.alloc, policy, &self.context, &other.query)?;
        Ok(found.is_some())
    }

    // Whether a view needn't be there beside another: of two that show the same the first stays.
    fn is_needless(&self, view: usize, beside: usize) -> Result<bool, AllocError> {
        if view == beside || !self.covers(beside, view)? {
            return Ok(false);
        }
        if beside < view {
            return Ok(true);
        }
        let is_same = self.covers(view, beside)?;
        Ok(!is_same)
    }

    // The first view beside which a view needn't be there.
    fn shown_by(&self, view: usize) -> Result<Option<usize>, AllocError> {
        for beside in 0..self.each.len() {
            let is_needless = self.is_needless(view, beside)?;
            if is_needless {
                return Ok(Some(beside));
            }
        }
        Ok(None)
    }
}

/// Finds views that show nothing that another one doesn't show.
pub fn find_shown(
    report: &mut Report,
    text: &PolicyText<'_>,
    policy: &Policy,
) -> Result<(), AllocError> {
    let context = any_context(report.alloc, policy.params.as_slice())?;
    let each = split_views(report.alloc, policy)?;
    let all = Split {
        alloc: report.alloc,
        policy,
        each,
        context,
    };
    for number in 0..policy.views.len() {
        let found = all.shown_by(number)?;
        if let Some(other) = found {
            let view = view_name(policy, number);
            let other = view_name(policy, other);
            let finding = Finding::ShownBy { view, other };
            report.add(text.file, text.spot(Term::View, view), &finding)?;
        }
    }
    Ok(())
}
