//! Templates of proofs, worked out by hand.
ghost use Rattle.std.specs.Prelude.{◌≤◌, IfOk, length};
ghost use Rattle.ba_model.specs.Limits.{most_steps};
ghost use Rattle.ba_kernel.specs.Courses.{ProblemFits};
ghost use Rattle.ba_general.specs.Generals.{IsOfQuestion};
ghost use Rattle.ba_proof.specs.Checked.{IsPolicy};

use super::files::{POLICY, policy, policy_of};
use super::steps::steps;
use super::words::{Handle, atoms, bar};
use ba_general::{GeneralFault, generalise};
use ba_model::{Failure, Policy, Same, Shared};
use ba_proof::{Proof, check, read_proof};
use ba_template::Template;
use std::alloc::{AllocError, Global};
use std::test::Fail;

// ---- templates of files

/// The proof of the file of user 2 with these fields. A fault of it is told as want of memory.
#[tactic(auto, using(crate::proofs::QuestionLemmas::proof_is_of_question))]
fn read(
    alloc: Global,
    policy: &Shared<Policy>,
    question: &str,
    steps: &str,
) -> Result<Proof, AllocError>
    requires { IsPolicy policy.now }
    ensures fits { IfOk result (λ it. ProblemFits it.problem) }
    ensures question { IfOk result (λ it. IsOfQuestion it.problem) }
    ensures few { IfOk result (λ it. length it.steps ≤ most_steps) }
{
    let file = format!(in alloc;
        "{{\"context\":{{\"MyUId\":2}},{question},{steps},\"version\":1}}"
    )?;
    match read_proof(alloc, policy, file.as_bytes()) {
        Ok(proof) => Ok(proof),
        Err(_) => Err(AllocError),
    }
}

/// The template of the file's proof, or none where it is too wide.
fn template_of(
    alloc: Global,
    policy: &Shared<Policy>,
    question: &str,
    steps: &str,
) -> Result<Option<Template>, AllocError>
    requires { IsPolicy policy.now }
{
    let proof = read(alloc, policy, question, steps)?;
    let Ok(proved) = check(alloc, proof) else {
        return Err(AllocError);
    };
    match generalise(alloc, &proved) {
        Ok(template) => Ok(Some(template)),
        Err(Failure::Fault(GeneralFault::Wide)) => Ok(None),
        Err(Failure::NoMemory) => Err(AllocError),
    }
}

/// Whether the template has so many variables and entries, this condition and these steps.
fn is_template(rt: &impl Handle, template: &Template, wanted: &str) -> bool {
    let problem = template.problem();
    let (vars, entries) = (problem.vars.len(), problem.entries.len());
    let counts = format!(in rt.alloc(); "{vars} and {entries}").expect(rt, "memory");
    let taken = format!(in rt.alloc(); "{:?}", template.steps()).expect(rt, "memory");
    let steps = format!(in rt.alloc(); "{:?}", steps(rt, bar(wanted, 2))).expect(rt, "memory");
    counts.as_str() == bar(wanted, 0)
        && problem.assumed.same(&atoms(rt, bar(wanted, 1)))
        && taken == steps
}

/// Ends the process at the first case that isn't so. A case is the question's fields, the steps' field and
/// the template, which is told by its numbers of variables and entries, its condition and its steps; there
/// is an empty line between two.
fn check_all(rt: &impl Handle, policy: &str, cases: &str) {
    let policy = policy_of(rt.alloc(), policy).expect(rt, "a policy");
    for case in cases.split("\n\n") {
        let (question, rest) = case.split_once('\n').unwrap_or((case, ""));
        let (steps, wanted) = rest.split_once('\n').unwrap_or((rest, ""));
        let found = template_of(rt.alloc(), &policy, question, steps).expect(rt, "a proof");
        let found = found.expect(rt, "a template");
        assert!(rt; is_template(rt, &found, wanted), "{case}");
    }
}

/// A title after one's own attendance asks for that attendance; a false condition for two numbers
/// that differ.
const CONDITIONS: &str =
    r#""entries":[{"query":"SELECT * FROM Attendances WHERE UId = 2 AND EId = 5","row":[2,5,100]}],"goal":"SELECT Title FROM Events WHERE EId = 5"
"steps":[["entry",0,0],["view",0,2,0,[0,1]],["goal",0,0,[2]]]
6 and 1 | v.0 = v.2, v.1 = p.0 | entry 0 0, view 0 2 0 0 1, goal 0 0 2

"entries":[],"goal":"SELECT Title FROM Events WHERE 1 = 2"
"steps":[["absurd",0]]
2 and 0 | v.0 <> v.1 | absurd 0"#;

/// Links from the attendance, and an attendance at another event, which the proof doesn't need: the
/// facts and the entry that are named get lesser numbers.
const NEEDLESS: &str =
    r#""entries":[{"query":"SELECT * FROM Attendances WHERE UId = 2 AND EId = 5","row":[2,5,100]}],"goal":"SELECT Title FROM Events WHERE EId = 5"
"steps":[["entry",0,0],["link",0,0,1],["link",0,1,1],["view",0,2,0,[0,1]],["goal",0,0,[4]]]
6 and 1 | v.0 = v.2, v.1 = p.0 | entry 0 0, view 0 2 0 0 1, goal 0 0 2

"entries":[{"query":"SELECT * FROM Attendances WHERE UId = 2 AND EId = 6","row":[2,6,100]},{"query":"SELECT * FROM Attendances WHERE UId = 2 AND EId = 5","row":[2,5,100]}],"goal":"SELECT Title FROM Events WHERE EId = 5"
"steps":[["entry",0,0],["entry",0,1],["view",0,2,0,[0,2]],["goal",0,0,[3]]]
6 and 1 | v.0 = v.2, v.1 = p.0 | entry 0 0, view 0 2 0 0 1, goal 0 0 2"#;

const HALVES: &str = "CREATE VIEW V1 AS SELECT EId, Duration FROM Events WHERE Duration < 60;
CREATE VIEW V2 AS SELECT EId, Duration FROM Events WHERE Duration >= 60; PARAM MyUId INT;";

/// The literal of what is split is the question's, so it becomes the question's variable. Facts of a
/// step that is left out are missing on both branches of a split behind it.
const SPLITS: &str = r#""entries":[],"goal":"SELECT EId FROM Events WHERE Duration <> 60"
"steps":[["split",0,["<",["u",2],60]],["view",0,0,0,[0]],["goal",0,0,[1]],["view",1,1,0,[0]],["goal",1,0,[1]]]
1 and 0 | v.0 = 60 | split 0 u.2 < v.0, view 0 0 0 0, goal 0 0 1, view 1 1 0 0, goal 1 0 1

"entries":[{"query":"SELECT UId FROM Users WHERE UId = 2","row":[2]}],"goal":"SELECT EId FROM Events WHERE Duration <> 60"
"steps":[["entry",0,0],["split",0,["<",["u",2],60]],["view",0,0,0,[0]],["goal",0,0,[2]],["view",1,1,0,[0]],["goal",1,0,[2]]]
1 and 0 | v.0 = 60 | split 0 u.2 < v.0, view 0 0 0 0, goal 0 0 1, view 1 1 0 0, goal 1 0 1"#;

/// A text and numbers that the steps need not know.
const NO_ATOM: &str = r#""entries":[],"goal":"SELECT UId FROM Users WHERE Name = 'ann'"
"steps":[["view",0,0,0,[0]],["goal",0,0,[1]]]
1 and 0 | | view 0 0 0 0, goal 0 0 1"#;

/// A bound of a view that is a literal.
const SHORT: &str = "PARAM MyUId INT;
CREATE VIEW V1 AS SELECT EId, Duration FROM Events WHERE Duration < 60;";

const WITH_LITERAL: &str = r#""entries":[],"goal":"SELECT EId FROM Events WHERE Duration < 1"
"steps":[["view",0,0,0,[0]],["goal",0,0,[1]]]
1 and 0 | v.0 = 1 | view 0 0 0 0, goal 0 0 1"#;

/// A bound of a view that is a parameter.
const BOUND: &str = "PARAM MyUId INT;
CREATE VIEW V1 AS SELECT EId, Duration FROM Events WHERE Duration < ?MyUId;";

const WITH_PARAMETER: &str = r#""entries":[],"goal":"SELECT EId FROM Events WHERE Duration < 1"
"steps":[["view",0,0,0,[0]],["goal",0,0,[1]]]
1 and 0 | v.0 < p.0 | view 0 0 0 0, goal 0 0 1"#;

/// The titles of the events 3 and 4, after attendances at those from 1 on: of the two entries that are
/// needed each has a variable for the query's literal and one for its row.
const TWO: &str =
    r#""entries":[{"query":"SELECT EId FROM Attendances WHERE UId = 2","row":[1]},{"query":"SELECT EId FROM Attendances WHERE UId = 2","row":[2]},{"query":"SELECT EId FROM Attendances WHERE UId = 2","row":[3]},{"query":"SELECT EId FROM Attendances WHERE UId = 2","row":[4]}],"goal":"SELECT Title FROM Events WHERE EId = 3 UNION SELECT Title FROM Events WHERE EId = 4"
"steps":[["entry",0,2],["view",0,2,0,[0,1]],["goal",0,0,[2]],["entry",1,3],["view",1,2,0,[0,1]],["goal",1,1,[2]]]
6 and 2 | v.0 = v.3, v.1 = v.5, v.2 = v.4, v.2 = p.0 | entry 0 0, view 0 2 0 0 1, goal 0 0 2, entry 1 1, view 1 2 0 0 1, goal 1 1 2"#;

#[test]
fn templates_of_proofs(rt: HostRuntime) {
    check_all(&rt, POLICY, CONDITIONS);
    check_all(&rt, POLICY, NEEDLESS);
    check_all(&rt, POLICY, TWO);
    check_all(&rt, POLICY, NO_ATOM);
    check_all(&rt, HALVES, SPLITS);
    check_all(&rt, SHORT, WITH_LITERAL);
    check_all(&rt, BOUND, WITH_PARAMETER);
}

// ---- too wide

/// So many items with the separator between them, each with its number from 0 on for `#`.
fn joined(alloc: Global, item: &str, separator: &str, count: u32) -> Result<String, AllocError> {
    let mut text = String::new(alloc);
    for n in 0..count {
        if n > 0 {
            text.push_str(separator)?;
        }
        let number = format!(in alloc; "{n}")?;
        let one = item.replace(alloc, '#', number.as_str())?;
        text.push_str(one.as_str())?;
    }
    Ok(text)
}

/// Whether the question with these fields, which has a proof by these steps, has no template.
fn is_wide(alloc: Global, question: &str, steps: &str) -> Result<bool, AllocError> {
    let policy = policy(alloc)?;
    let template = template_of(alloc, &policy, question, steps)?;
    Ok(template.is_none())
}

/// The same of the titles of so many events, as one union, after as many attendances: each part's own
/// branch needs an attendance of its own.
fn is_wide_of_titles(alloc: Global, count: u32) -> Result<bool, AllocError> {
    let entry = r#"{"query":"SELECT EId FROM Attendances WHERE UId = 2","row":[#]}"#;
    let told = joined(alloc, entry, ",", count)?;
    let titles = joined(
        alloc,
        "SELECT Title FROM Events WHERE EId = #",
        " UNION ",
        count,
    )?;
    let steps = r##"["entry",#,#],["view",#,2,0,[0,1]],["goal",#,#,[2]]"##;
    let steps = joined(alloc, steps, ",", count)?;
    let question = format!(in alloc; "\"entries\":[{told}],\"goal\":\"{titles}\"")?;
    let steps = format!(in alloc; "\"steps\":[{steps}]")?;
    is_wide(alloc, question.as_str(), steps.as_str())
}

/// The same of a question with so many equal literals.
fn is_wide_of_literals(alloc: Global, count: u32) -> Result<bool, AllocError> {
    let literals = joined(alloc, "UId = 7", " AND ", count)?;
    let question = format!(in alloc;
        "\"entries\":[],\"goal\":\"SELECT UId FROM Users WHERE {literals}\""
    )?;
    let steps = r#""steps":[["view",0,0,0,[0]],["goal",0,0,[1]]]"#;
    is_wide(alloc, question.as_str(), steps)
}

/// Nine entries are too many, and with the parameter 65 operands, though 64 literals are not.
#[test]
fn wide_by_entries_and_by_operands(rt: HostRuntime) -> Result<(), Fail> {
    let by_entries = is_wide_of_titles(rt.alloc(), 9)?;
    assert!(rt; by_entries);
    let by_operands = is_wide_of_literals(rt.alloc(), 64)?;
    assert!(rt; by_operands);
    let ten = is_wide_of_literals(rt.alloc(), 10)?;
    assert!(rt; !ten);
    Ok(())
}
