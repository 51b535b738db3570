//! Problems that are written as short texts.
//!
//! A text is pieces with semicolons between them: `told` with a query, `gives` and a row of operands,
//! `assumed` with atoms, `variable` (a whole number), `goal` with a query, and those of its policy.
ghost use Rattle.std.specs.Prelude.{◌≡◌};
ghost use Rattle.ba_kernel.specs.Courses.{ProblemFits};
ghost use Rattle.ba_kernel.specs.Drafts.{IsChecked};

use super::policies::{policy, query};
use super::words::{Handle, atoms, named, operands, shared};
use ba_kernel::{Problem, ProblemDraft, ProblemEntry};
use ba_model::{Kind, List, Query};

fn entry(rt: &impl Handle, text: &str) -> ProblemEntry {
    let (asked, told) = text.split_once("gives").unwrap_or((text, ""));
    ProblemEntry {
        query: shared(rt, query(rt, asked)),
        row: operands(rt, told),
    }
}

fn add(rt: &impl Handle, draft: &mut ProblemDraft, piece: &str)
    ensures { draft.new.policy ≡ draft.old.policy }
{
    match named(piece) {
        ("told", text) => {
            let entry = entry(rt, text);
            draft.entries.push(entry).expect(rt, "memory");
        }
        ("assumed", text) => draft.assumed = atoms(rt, text),
        ("variable", _) => draft.vars.push(Kind::Int).expect(rt, "memory"),
        ("goal", text) => draft.goal = shared(rt, query(rt, text)),
        ("rule" | "view", _) => (),
        _ => panic!(rt; "no piece: {piece}"),
    }
}

pub fn draft(rt: &impl Handle, text: &str) -> ProblemDraft
    ensures { IsChecked result.policy }
{
    let parts = List::new(rt.alloc());
    let mut draft = ProblemDraft {
        policy: policy(rt, text),
        vars: List::new(rt.alloc()),
        assumed: List::new(rt.alloc()),
        entries: List::new(rt.alloc()),
        goal: shared(rt, Query { parts }),
    };
    for piece in text.split(';') {
        add(rt, &mut draft, piece);
    }
    draft
}

pub fn problem(rt: &impl Handle, text: &str) -> Problem
    ensures { ProblemFits result }
{
    Problem::new(rt.alloc(), draft(rt, text)).expect(rt, "a problem")
}
