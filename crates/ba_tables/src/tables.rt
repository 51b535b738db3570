//! The rows of all tables of a schema.
ghost use Rattle.std.specs.Prelude.{◌≡◌, IfOk, length};
ghost use Rattle.ba_model.specs.Conform.{Conforms};
ghost use Rattle.ba_model.specs.Readings.{Gives};
ghost use Rattle.ba_tables.specs.Checked.{checked, first_fault};
ghost use Rattle.ba_tables.specs.TableSet.{RowsFit};

use crate::broken::{TablesFault, broken_by};
use crate::rules::broken_rule;
use ba_index::Indexed;
use ba_model::{Duplicate, Failure, RowSet, Schema, Shared};
use std::alloc::{AllocError, Global};
use std::marker::Model;

/// A schema, held in common with the policy, and a database that conforms to it, with an order of rows for each key.
#[derive(Debug, Drop)]
pub struct Tables {
    schema: Shared<Schema>,
    rows: Indexed,
}

impl Model for Tables {
    ghost use Rattle.ba_model.specs.Conform.{Conforms};
    ghost use Rattle.ba_tables.specs.TableSet.{TableSet};

    ghost Value = { TableSet };

    ghost view = { λ it. record { schema = it.schema; rows = it.rows } };

    ghost invariant = { λ it. Conforms it.schema it.rows };
}

/// The first broken key or link, or after them all the first broken rule.
#[tactic(auto, unfolding(crate::specs::Checked::first_fault))]
fn first_fault(
    alloc: Global,
    schema: &Schema,
    rows: &Indexed,
) -> Result<Option<TablesFault>, AllocError>
    requires { length rows.now.tables ≡ length schema.now.tables }
    ensures { IfOk result (λ found. found ≡ first_fault schema.now rows.now) }
{
    let broken = broken_by(alloc, &schema.tables, rows.rows(), rows.orders())?;
    match broken {
        Some(fault) => Ok(Some(fault)),
        None => broken_rule(alloc, &schema.rules, rows),
    }
}

impl Tables {
    /// Rows of the schema's tables where no key, no link and no rule is broken, else the first that is.
    ///
    /// A key is a UNIQUE constraint and a link a FOREIGN KEY with MATCH SIMPLE of the SQL standard:
    /// NULL on a key's columns breaks nothing, and NULL in a link's columns needs no target. Two equal
    /// rows break a key. A rule is an inclusion dependency (Casanova, Fagin and Papadimitriou 1982)
    /// between queries: it is broken by a row of its left query that isn't a row of its right query,
    /// where NULL is the same as NULL. The rows are dropped with an error.
    ///
    /// Each key takes one sort of row numbers, n log n for the n rows of its table, and its order
    /// stays. Where no key is broken and each link leads to a key and isn't broken, a link takes a
    /// look-up in that order for each row, and no value is copied. Where none is broken, a rule takes
    /// the time and the memory of its two queries' answers by these orders, one rule after the other.
    pub fn check(
        alloc: Global,
        schema: &Shared<Schema>,
        rows: RowSet,
    ) -> Result<Tables, Failure<TablesFault>>
        requires { RowsFit schema.now rows }
        ensures { Gives result (checked schema.now rows) }
    {
        let rows = Indexed::new(alloc, &schema.tables, rows)?;
        if let Some(fault) = first_fault(alloc, schema, &rows)? {
            return Err(Failure::Fault(fault));
        }
        let schema = schema.copy(alloc)?;
        Ok(Tables { schema, rows })
    }

    /// The schema to which the rows conform.
    pub fn schema(&self) -> &Schema
        ensures is { result.now ≡ self.now.schema }
        ensures conform { Conforms result.now self.now.rows }
    {
        &self.schema
    }

    /// For each table its rows, in the order in which they were given.
    pub fn rows(&self) -> &RowSet
        ensures is { result.now ≡ self.now.rows }
        ensures conform { Conforms self.now.schema result.now }
    {
        self.rows.rows()
    }

    /// The rows with the order of each key.
    pub fn indexed(&self) -> &Indexed
        ensures is { result.now ≡ self.now.rows }
        ensures conform { Conforms self.now.schema result.now }
    {
        &self.rows
    }
}
