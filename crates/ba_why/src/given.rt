//! What the run read, its policy and its script, and in how many orders it searched.
ghost use Rattle.std.specs.Prelude.{◌≡◌, IfOk};
ghost use Rattle.ba_kernel.specs.Drafts.{IsChecked};
ghost use Rattle.ba_model.specs.RuleFaults.{AreRules};
ghost use Rattle.ba_model.specs.SchemaFaults.{AreTables};

use crate::words::Names;
use ba_kernel::laws::checked_links_fit;
use ba_model::{Context, Policy, Schema, Shared};
use ba_outside::Held;
use ba_policy::read_policy;
use ba_script::{Script, ScriptEntry, read_script};
use ba_sql_ddl::read_schema;
use std::alloc::{AllocError, Global};
use std::marker::Model;

/// A policy and a script for it. A contract sees the policy, which the type keeps to be a checked
/// one.
#[derive(Drop)]
pub struct Given {
    policy: Shared<Policy>,
    script: Script,
    orders: u32,
}

impl Model for Given {
    ghost use Rattle.ba_kernel.specs.Drafts.{IsChecked};
    ghost use Rattle.ba_model.specs.declared.policy.Policy.{Policy as Views};

    ghost Value = { Views };

    ghost view = { λ it. it.policy };

    ghost invariant = { λ it. IsChecked it.policy };
}

// The bytes that were read as the script, behind the schema and the policy.
fn script_in<'a>(kept: &'a [Held], names: &Names) -> &'a [u8] {
    for held in kept {
        if held.name.as_str() == names.script.as_str() {
            return &held.bytes;
        }
    }
    &[]
}

impl Given {
    /// What a run read, by what it kept of its files, if it read a schema and a policy.
    pub fn of_kept(
        alloc: Global,
        kept: &[Held],
        names: &Names,
    ) -> Result<Option<Given>, AllocError> {
        let [schema, policy, rest @ ..] = kept else {
            return Ok(None);
        };
        let script = script_in(rest, names);
        let given = Given::read(alloc, &schema.bytes, &policy.bytes, script, names.orders)?;
        Ok(Some(given))
    }

    /// What these bytes are, as the run read them, which searched in so many orders. They have
    /// readings, so that an error is want of memory.
    pub fn read(
        alloc: Global,
        schema: &[u8],
        policy: &[u8],
        script: &[u8],
        orders: u32,
    ) -> Result<Given, AllocError> {
        checked_links_fit();
        let schema = schema_of(alloc, schema)?;
        let Ok(policy) = read_policy(alloc, &schema, policy) else {
            return Err(AllocError);
        };
        let policy = Shared::new(alloc, policy)?;
        let Ok(script) = read_script(alloc, &policy.params, &policy.keys, script) else {
            return Err(AllocError);
        };
        Ok(Given {
            policy,
            script,
            orders,
        })
    }

    /// The policy.
    pub fn policy(&self) -> &Shared<Policy>
        ensures is { result.now ≡ self.now }
        ensures checked { IsChecked result.now }
    {
        &self.policy
    }

    /// Whether each proof was searched for in two orders side by side.
    pub fn has_two_orders(&self) -> bool {
        self.orders == 2
    }

    /// The script.
    pub fn script(&self) -> &Script {
        &self.script
    }

    /// The context of a request that asks at a place of the script.
    pub fn context_at(&self, request: u32, at: usize) -> Option<&Context> {
        for place in (0..at).rev() {
            if let Some(
                ScriptEntry::Begin {
                    request: begun,
                    context,
                    ..
                },
            ) = self.script.entries.find(place)
                && *begun == request
            {
                return Some(context);
            }
        }
        None
    }
}

fn schema_of(alloc: Global, bytes: &[u8]) -> Result<Shared<Schema>, AllocError>
    ensures tables { IfOk result (λ schema. AreTables schema.tables) }
    ensures rules { IfOk result AreRules }
{
    match read_schema(alloc, bytes) {
        Ok(schema) => Shared::new(alloc, schema),
        Err(_) => Err(AllocError),
    }
}
