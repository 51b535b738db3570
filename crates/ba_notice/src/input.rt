//! Files that have no reading, and sets of tables that break a rule.
ghost use Rattle.std.specs.Prelude.{IfOk, IfSome};
ghost use Rattle.ba_model.specs.RuleFaults.{AreRules};

use crate::files::{Found, read_again};
use crate::proof::field_text;
use crate::template::line_hint;
use ba_hints::{
    Hint, key_hint, link_hint, policy_hint, rows_hint, rule_hint, schema_hint, script_hint,
};
use ba_model::{Counted, Failure, Policy, Row, Schema, Shared, Table};
use ba_policy::read_policy;
use ba_sql_ddl::read_schema;
use ba_wire::{Reason, TemplateFault};
use std::alloc::{AllocError, Global};
use std::rt::Files;

/// What a file is read as, or what its rows break.
#[derive(Clone, Copy)]
pub enum Part {
    Schema,
    Policy,
    Rows,
    Key { key: u32, first: u64, second: u64 },
    Link { link: u32, row: u64 },
    Script,
    Proof,
}

impl Part {
    /// What the last of the names asked for, of which there are so many, was read as, where it was refused for a reason.
    pub fn of_reason(asked: usize, reason: &Reason) -> Part {
        match reason {
            _ if asked == 1 => Part::Schema,
            _ if asked == 2 => Part::Policy,
            Reason::Key { key, first, second } => Part::Key {
                key: *key,
                first: *first,
                second: *second,
            },
            Reason::Link { link, row } => Part::Link {
                link: *link,
                row: *row,
            },
            Reason::Line { .. } => Part::Script,
            Reason::Json | Reason::Field { .. } => Part::Proof,
            _ => Part::Rows,
        }
    }

    /// The same, where it has too many of something.
    pub fn of_count(asked: usize, what: Counted) -> Part {
        match what {
            _ if asked == 1 => Part::Schema,
            _ if asked == 2 => Part::Policy,
            Counted::Rows => Part::Rows,
            _ => Part::Script,
        }
    }
}

/// The names of files that were read, and where they stand.
#[derive(Drop)]
pub struct Reads<'a, R> {
    pub rt: &'a R,
    pub prefix: &'a str,
    pub asked: &'a [String],
}

impl<R: Files + AllocGlobal> Reads<'_, R> {
    /// The name asked for last.
    pub fn last(&self) -> &str {
        match self.asked.last() {
            Some(name) => name.as_str(),
            None => "",
        }
    }

    // The bytes of a file, if it can be read again.
    fn bytes(&self, name: &str) -> Result<Option<Vec<u8>>, AllocError> {
        let found = read_again(self.rt, self.prefix, name)?;
        match found {
            Found::Bytes(bytes) => Ok(Some(bytes)),
            _ => Ok(None),
        }
    }

    // The schema, if it can be read again.
    fn schema(&self) -> Result<Option<Shared<Schema>>, AllocError>
        ensures { IfOk result (λ found. IfSome found AreRules) }
    {
        let alloc = self.rt.alloc();
        let Some(name) = self.asked.first() else {
            return Ok(None);
        };
        let Some(bytes) = self.bytes(name.as_str())? else {
            return Ok(None);
        };
        match read_schema(alloc, &bytes) {
            Ok(schema) => Ok(Some(Shared::new(alloc, schema)?)),
            Err(Failure::NoMemory) => Err(AllocError),
            Err(Failure::Fault(_)) => Ok(None),
        }
    }

    // The policy, if it can be read again.
    fn policy(&self, schema: &Shared<Schema>) -> Result<Option<Policy>, AllocError> {
        let Some(name) = self.asked.get(1) else {
            return Ok(None);
        };
        let Some(bytes) = self.bytes(name.as_str())? else {
            return Ok(None);
        };
        match read_policy(self.rt.alloc(), schema, &bytes) {
            Ok(policy) => Ok(Some(policy)),
            Err(Failure::NoMemory) => Err(AllocError),
            Err(Failure::Fault(_)) => Ok(None),
        }
    }

    // A hint on a file behind the schema and the policy.
    fn later_hint(
        &self,
        schema: &Shared<Schema>,
        part: Part,
        file: &str,
        bytes: &[u8],
    ) -> Result<Option<Hint>, AllocError> {
        let alloc = self.rt.alloc();
        if matches!(&part, Part::Script) {
            return match self.policy(schema)? {
                Some(policy) => script_hint(alloc, &policy.params, &policy.keys, bytes),
                None => Ok(None),
            };
        }
        let Some(table) = table_of(schema, file) else {
            return Ok(None);
        };
        match part {
            Part::Key { key, first, second } => {
                key_hint(alloc, table, bytes, key, first, second)
            }
            Part::Link { link, row } => link_hint(alloc, schema, table, bytes, link, row),
            _ => rows_hint(alloc, table, bytes),
        }
    }

    // A hint on a file.
    fn hint(&self, part: Part, file: &str, bytes: &[u8]) -> Result<Option<Hint>, AllocError> {
        let alloc = self.rt.alloc();
        if matches!(&part, Part::Schema) {
            return schema_hint(alloc, bytes);
        }
        let Some(schema) = self.schema()? else {
            return Ok(None);
        };
        match part {
            Part::Policy => policy_hint(alloc, &schema, bytes),
            _ => self.later_hint(&schema, part, file, bytes),
        }
    }

    /// What is told of a file that was refused.
    pub fn file_text(&self, part: Part, file: &str) -> Result<String, AllocError> {
        let alloc = self.rt.alloc();
        let bytes = self.bytes(file)?;
        let hint = match &bytes {
            Some(bytes) => self.hint(part, file, bytes)?,
            None => None,
        };
        match (&bytes, &hint) {
            (Some(bytes), Some(hint)) => hint.line(alloc, file, bytes),
            _ => {
                let hint = Hint::plain(
                    alloc,
                    "what was read of it can't be read again to tell more",
                )?;
                hint.line(alloc, file, &[])
            }
        }
    }

    /// What is told of a set of tables of which a row breaks the rule of a number.
    pub fn rule_text(&self, set: &str, rule: u32, row: &Row) -> Result<String, AllocError> {
        let alloc = self.rt.alloc();
        let hint = match self.schema()? {
            Some(schema) => rule_hint(alloc, &schema, rule, row)?,
            None => None,
        };
        match hint {
            Some(hint) => hint.line(alloc, set, &[]),
            None => {
                let text = format!(in alloc; "rule {rule} is broken")?;
                let hint = Hint::plain(alloc, text.as_str())?;
                hint.line(alloc, set, &[])
            }
        }
    }

    /// What is told of a template file of which a line is none.
    pub fn template_text(
        &self,
        file: &str,
        line: u64,
        reason: &TemplateFault,
    ) -> Result<String, AllocError> {
        let alloc = self.rt.alloc();
        let bytes = self.bytes(file)?;
        let found = match &bytes {
            Some(bytes) => Some(bytes.as_slice()),
            None => None,
        };
        let hint = line_hint(alloc, found, line, reason)?;
        hint.line(alloc, file, &[])
    }

    /// What is told of a proof's file that is none.
    pub fn proof_text(&self, file: &str, reason: &Reason) -> Result<String, AllocError> {
        let text = match reason {
            Reason::Field { name } => field_text(name.as_str()),
            _ => "it is no JSON object",
        };
        let hint = Hint::plain(self.rt.alloc(), text)?;
        hint.line(self.rt.alloc(), file, &[])
    }
}

// The table whose rows a file holds: the one of the longest name that fits.
fn table_of<'a>(schema: &'a Schema, file: &str) -> Option<&'a Table> {
    let set = file.strip_suffix(".csv")?;
    let mut found: Option<&'a Table> = None;
    for table in schema.tables.as_slice() {
        let name = table.name.as_str();
        let is_longer = match found {
            Some(it) => it.name.len() < name.len(),
            None => true,
        };
        if is_longer
            && let Some(front) = set.strip_suffix(name)
            && front.ends_with("/")
        {
            found = Some(table);
        }
    }
    found
}
