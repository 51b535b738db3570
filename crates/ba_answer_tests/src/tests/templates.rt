//! Questions that are answered by a template.
ghost use Rattle.std.specs.Prelude.{◌≡◌, []};
ghost use Rattle.ba_model.specs.Fit.{IsQuery, PolicyFits, kinds_of};
ghost use Rattle.ba_model.specs.RuleFaults.{AreRules};
ghost use Rattle.ba_model.specs.SchemaFaults.{AreTables};

use super::Handle;
use super::given::{machine, policy, query};
use super::proofs::{OWN, TITLE, asked, first_title, open, told};
use ba_core::Ground;
use ba_model::{List, Policy, Query, Shared};
use ba_template::{Match, Template, each_var_stands};

/// The template of the title's proof after the own attendance. It has no variable.
fn title_template(
    rt: &impl Handle,
    policy: &Shared<Policy>,
    own: &Shared<Query>,
    title: &Shared<Query>,
) -> Shared<Template>
    requires policy { PolicyFits policy.now }
    requires tables { AreTables policy.now.schema.tables }
    requires rules { AreRules policy.now.schema }
    requires own { IsQuery policy.now.schema (kinds_of policy.now.params) [] own.now }
    requires title { IsQuery policy.now.schema (kinds_of policy.now.params) [] title.now }
{
    let proved = first_title(rt, policy, own, title);
    assert!(rt; each_var_stands(proved.problem()), "no variable");
    let template = Template::of(rt.alloc(), proved).expect(rt, "memory");
    Shared::new(rt.alloc(), template).expect(rt, "memory")
}

/// A match of the template of the number, with its entry at the first row of this entry of the trace.
fn by_template(rt: &impl Handle, n: u32, entry: u64) -> Ground {
    let places = vec![in rt.alloc(); (entry, 0)].expect(rt, "memory");
    let found = Match {
        values: List::new(rt.alloc()),
        places: List::from_vec(places),
    };
    Ground::Template(n, found)
}

/// A template serves once it is admitted, its own question, and where its entry stands in the trace.
#[test]
fn title_by_template(rt: HostRuntime) {
    let policy = policy(&rt);
    let own = query(&rt, &policy, OWN);
    let title = query(&rt, &policy, TITLE);
    let template = title_template(&rt, &policy, &own, &title);
    let mut core = machine(&rt, &policy);
    open(&rt, &mut core, &own);
    assert!(rt;
        asked(&rt, &mut core, &title, by_template(&rt, 0, 0)).as_str() == "NoTemplate",
        "none was admitted"
    );
    assert!(rt;
        core.admit(template).expect(&rt, "memory") == 0,
        "the first"
    );
    assert!(rt;
        asked(&rt, &mut core, &title, by_template(&rt, 0, 1)).as_str() == "Unfit",
        "no such entry"
    );
    assert!(rt;
        asked(&rt, &mut core, &own, by_template(&rt, 0, 0)).as_str() == "Unfit",
        "another question"
    );
    assert!(rt;
        asked(&rt, &mut core, &title, by_template(&rt, 0, 0)).as_str() == " plan",
        "the title"
    );
    assert!(rt; told(&core) == 2, "two entries");
}
