//! Proofs that are replayed, and their templates.
//!
//! A proof is the text of a problem, `by`, and steps with commas between them. In the start of a
//! problem of one table `u.0` and `u.1` are the row of the goal on side One. The view's step makes an
//! equal row on side Two, fact 1, which the goal's step names.
ghost use Rattle.std.specs.Prelude.{IfOk};
ghost use Rattle.ba_kernel.specs.Courses.{ProblemFits};

use super::given::problem;
use super::steps::steps;
use super::words::Handle;
use ba_kernel::{Proved, ReplayFault, replay};
use ba_model::{Failure, MAX_STEPS};
use ba_template::{Template, each_var_stands};

/// What the steps come to.
pub fn replayed(rt: &impl Handle, text: &str) -> Result<Proved, ReplayFault>
    ensures { IfOk result (λ it. ProblemFits it.problem) }
{
    let (given, lines) = text.split_once("by ").unwrap_or((text, ""));
    let steps = steps(rt, lines);
    assert!(rt; steps.len() as u64 <= MAX_STEPS, "few steps");
    match replay(rt.alloc(), problem(rt, given), steps) {
        Ok(proved) => Ok(proved),
        Err(Failure::Fault(fault)) => Err(fault),
        Err(Failure::NoMemory) => panic!(rt; "memory"),
    }
}

pub fn template(rt: &impl Handle, text: &str) -> Template {
    let proved = replayed(rt, text).expect(rt, "a proof");
    assert!(rt;
        each_var_stands(proved.problem()),
        "variables stand: {text}"
    );
    Template::of(rt.alloc(), proved).expect(rt, "memory")
}
