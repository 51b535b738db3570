//! Policies.
//!
//! A policy is its parameters and how many parts each of its views has, as in `p Int q Text ; V 1 W 2`.

use super::cases::{Reading, Told, all_are_so};
use super::faults::write_policy_fault;
use super::standard::{kind_word, policy, schema};
use ba_model::{Failure, Parameter, Policy, Same, View};
use ba_policy::read_policy;
use ba_sql_query::read_query;
use std::alloc::{AllocError, Global};
use std::fmt::Write;
use std::test::Fail;

fn write_param(told: &mut String, param: &Parameter) -> Told {
    told.push_str(param.name.as_str())?;
    told.push_str(kind_word(param.kind))?;
    told.push_str(" ")
}

fn write_params(told: &mut String, params: &[Parameter]) -> Told {
    for param in params {
        write_param(told, param)?;
    }
    told.push_str(";")
}

fn write_view(told: &mut String, view: &View) -> Told {
    told.push_str(" ")?;
    told.push_str(view.name.as_str())?;
    let parts = view.query.parts.len();
    write!(told, " {parts}")
}

fn write_views(told: &mut String, views: &[View]) -> Told {
    for view in views {
        write_view(told, view)?;
    }
    Ok(())
}

fn write_policy(told: &mut String, policy: &Policy) -> Told {
    write_params(told, policy.params.as_slice())?;
    write_views(told, policy.views.as_slice())
}

struct Policies;

impl Reading for Policies {
    fn tell(&self, alloc: Global, text: &str, told: &mut String) -> Told {
        let schema = schema(alloc)?;
        match read_policy(alloc, &schema, text.as_bytes()) {
            Ok(policy) => write_policy(told, &policy),
            Err(Failure::NoMemory) => Err(AllocError),
            Err(Failure::Fault(fault)) => write_policy_fault(alloc, fault, told),
        }
    }
}

#[test]
fn queries_of_views(rt: HostRuntime) -> Result<(), Fail> {
    let policy = policy(rt.alloc())?;
    let text = "SELECT UId, EId, At FROM Attendances WHERE UId = ?MyUId";
    let asked = read_query(rt.alloc(), &policy.schema, &policy.params, text)?;
    let mut same = policy
        .views
        .as_slice()
        .iter()
        .map(|it| it.query.same(&asked));
    assert_eq!(rt; (same.next(), same.next()), (Some(false), Some(true)));
    Ok(())
}

/// Names may be any words. Each text has its fault before a later one.
const STATEMENTS: &str = r#"-- nothing => ;
param select text; create view select as SELECT Name FROM Users WHERE Name = ?select; => select Text ; select 1
CREATE VIEW p AS SELECT Name FROM Users; PARAM p INT; => p Int ; p 1
CREATE VIEW PARAM AS SELECT Name FROM Users; PARAM CREATE INT; CREATE VIEW v AS SELECT Name FROM Users; => CREATE Int ; PARAM 1 v 1
CREATE VIEW V AS SELECT Name FROM Users WHERE Name = ';'; => ; V 1
PARAM 'p => open_quote
PARAM p INT; PARAM p INT; PARAM p;
PARAM p INT; PARAM q INT; PARAM p TEXT; CREATE VIEW V AS ; => duplicate_param p
CREATE VIEW V AS ; PARAM p INT; PARAM p INT; => view V syntax
CREATE VIEW V AS SELECT Name FROM Users; CREATE VIEW V AS SELECT Nme FROM Users; => duplicate_view V
CREATE VIEW V AS SELECT Nme FROM Users; CREATE VIEW V AS SELECT Name FROM Users; => view V unknown_column
CREATE VIEW V AS SELECT Name FROM Users WHERE UId = ?p; PARAM p INT; => view V unknown_param
PARAM p TEXT; CREATE VIEW V AS SELECT Name FROM Users WHERE UId = ?p; => view V kind_differs
CREATE VIEW V AS SELECT COUNT(Name) FROM Users; => view V unsupported COUNT
;
PARAM p INT
PARAM p;
PARAM "p" INT;
PARAM p INTEGER;
PARAM ?p INT;
CREATE VIEW V AS SELECT Name FROM Users
CREATE VIEW "V" AS SELECT Name FROM Users;
CREATE TABLE V (a INT);
CREATE VIEW V AS SELECT Nme FROM Users; SELECT;
CREATE VIEW AS AS SELECT Name FROM Users;;"#;

const LIMITS: &str = r#"[[128 CREATE VIEW V# AS SELECT UId FROM Users;]] => ;[[128  V# 1]]
[[129 CREATE VIEW V# AS SELECT UId FROM Users;]] => {"fault":"limit","limit":128,"status":7,"what":"views"}~
[[16 PARAM p# INT;]] => [[16 p# Int ]];
[[17 PARAM p# INT;]][[129 CREATE VIEW V# AS SELECT UId FROM Users;]] => {"fault":"limit","limit":128,"status":7,"what":"views"}~
[[17 PARAM p# INT;]]CREATE VIEW W AS ; => view W syntax
[[16384 ---------------------------------------------------------------~]]  => {"fault":"limit","limit":1048576,"status":7,"what":"bytes"}~
[[20000 PARAM p# INT;]] => {"fault":"limit","limit":16,"status":7,"what":"params"}~"#;

#[test]
fn texts_of_policies(rt: HostRuntime) -> Result<(), Fail> {
    all_are_so(&rt, &Policies, STATEMENTS, "syntax")?;
    all_are_so(&rt, &Policies, LIMITS, "")
}
