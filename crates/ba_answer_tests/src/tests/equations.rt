//! Which policies and which questions use equations alone.

use super::given::{policy, query};
use super::proofs::TITLE;
use ba_policy::read_policy;

/// A view of the events below an hour.
const RANGE: &str = "CREATE VIEW V1 AS SELECT EId, Duration FROM Events WHERE Duration < 60;";

/// Three durations, of which two numbers can't be all.
const THREE: &str = "SELECT a.EId FROM Events a, Events b, Events c WHERE a.Duration >= 0
  AND a.Duration <= 1 AND b.Duration >= 0 AND b.Duration <= 1 AND c.Duration >= 0
  AND c.Duration <= 1 AND a.Duration <> b.Duration AND b.Duration <> c.Duration
  AND a.Duration <> c.Duration";

#[test]
fn equations_are_recognised(rt: HostRuntime) {
    let policy = policy(&rt);
    assert!(rt; policy.equations(), "the standard policy");
    let range = read_policy(rt.alloc(), &policy.schema, RANGE.as_bytes());
    assert!(rt; !range.expect(&rt, "a policy").equations(), "a view with <");
    assert!(rt;
        query(&rt, &policy, TITLE).equations(),
        "the title of an event"
    );
    assert!(rt;
        !query(&rt, &policy, THREE).equations(),
        "three inequalities"
    );
}
