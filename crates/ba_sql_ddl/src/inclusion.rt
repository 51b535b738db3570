//! What inclusion rules mean over the tables.
ghost use Rattle.std.specs.Prelude.{◌≡◌, ◌≤◌, length, map};
ghost use Rattle.ba_model.specs.Limits.{most_rules};
ghost use Rattle.ba_model.specs.Readings.{Gives, widened};
ghost use Rattle.ba_sql_ddl.specs.Inclusions as meaning;
ghost use Rattle.ba_sql_ddl.specs.Written.{seen};
ghost use Rattle.ba_sql_ddl.specs.declared.fault.DdlFault.TheVariants as faults;

use crate::fault::DdlFault;
use crate::statement::Inclusion;
use ba_model::{Counted, Failure, List, MAX_RULES, Query, Rule, Schema, heads_match};
use ba_sql_query::{ReadQueryFault, read_words};
use std::alloc::Global;

/// Whether the heads of two queries have the same kinds.
#[tactic(auto, unfolding(crate::specs::Inclusions::heads_match))]
fn same_heads(schema: &Schema, left: &Query, right: &Query) -> bool
    ensures { result ≡ meaning.heads_match schema.now left.now right.now }
{
    match (left.parts.find(0), right.parts.find(0)) {
        (Some(part), Some(other)) => heads_match(
            schema,
            &[],
            &[],
            part.from.as_slice(),
            part.head.as_slice(),
            other.from.as_slice(),
            other.head.as_slice(),
        ),
        _ => false,
    }
}

/// The rule that the words of its queries mean, which see no parameters.
#[tactic(auto, unfolding(crate::specs::Inclusions::rule_of))]
fn rule_of(
    alloc: Global,
    schema: &Schema,
    text: &Inclusion<'_>,
) -> Result<Rule, Failure<ReadQueryFault>>
    ensures { Gives result (meaning.rule_of schema.now (seen text.now)) }
{
    let params = List::new(alloc);
    let left = read_words(alloc, schema, &params, text.left)?;
    let right = read_words(alloc, schema, &params, text.right)?;
    if !same_heads(schema, &left, &right) {
        return Err(Failure::Fault(ReadQueryFault::HeadDiffers));
    }
    Ok(Rule { left, right })
}

/// The same, its fault with the rule's number.
fn numbered_rule(
    alloc: Global,
    schema: &Schema,
    number: u32,
    text: &Inclusion<'_>,
) -> Result<Rule, Failure<DdlFault>>
    ensures { Gives result
        (widened (faults.Rule number) (meaning.rule_of schema.now (seen text.now))) }
{
    match rule_of(alloc, schema, text) {
        Ok(rule) => Ok(rule),
        Err(Failure::NoMemory) => Err(Failure::NoMemory),
        Err(Failure::Fault(fault)) => Err(Failure::Fault(DdlFault::Rule(number, fault))),
    }
}

/// The rules, in order, of which there aren't too many.
fn rules_from(
    alloc: Global,
    schema: &Schema,
    texts: &[Inclusion<'_>],
) -> Result<List<Rule>, Failure<DdlFault>>
    requires { length texts.now ≤ most_rules }
    ensures { Gives result (meaning.rules_from schema.now 0 (map seen texts.now)) }
{
    let mut rules = List::new(alloc);
    for text in texts {
        let number = rules.len() as u32;
        let rule = numbered_rule(alloc, schema, number, text)?;
        rules.push(rule)?;
    }
    Ok(rules)
}

#[tactic(auto, unfolding(crate::specs::Inclusions::rules_of))]
fn rules_of(
    alloc: Global,
    schema: &Schema,
    texts: &[Inclusion<'_>],
) -> Result<List<Rule>, Failure<DdlFault>>
    ensures { Gives result (meaning.rules_of schema.now (map seen texts.now)) }
{
    if texts.len() > MAX_RULES {
        return Err(Failure::Fault(DdlFault::TooMany {
            what: Counted::Rules,
            limit: MAX_RULES as u64,
        }));
    }
    rules_from(alloc, schema, texts)
}

/// The schema of the tables with the rules, each read over the tables; or the first fault of rules.
#[tactic(auto, unfolding(crate::specs::Inclusions::with_rules))]
pub fn with_rules(
    alloc: Global,
    schema: Schema,
    texts: &[Inclusion<'_>],
) -> Result<Schema, Failure<DdlFault>>
    ensures { Gives result (meaning.with_rules schema (map seen texts.now)) }
{
    let rules = rules_of(alloc, &schema, texts)?;
    Ok(Schema {
        tables: schema.tables,
        rules,
    })
}
