//! The database that questions are sent to.

use ba_model::{Duplicate, Str};
use std::alloc::{AllocError, Global};

/// A kind of database, by whose tokens a text is printed.
#[derive(Clone, Copy, Debug, PartialEq, Eq)]
pub enum Database {
    /// PostgreSQL.
    PostgreSql,
    /// SQLite.
    Sqlite,
    /// MySQL and MariaDB.
    MySql,
}

/// The database that questions are sent to.
#[derive(Debug, Drop)]
pub struct Target {
    pub database: Database,
    /// In what the tables stand: a schema of PostgreSQL, a database of MySQL, `main` or an attached
    /// file of SQLite. Where there is none, the database finds them by their names alone.
    pub namespace: Option<Str>,
}

impl Duplicate for Target {
    fn copy(&self, alloc: Global) -> Result<Target, AllocError> {
        let namespace = match &self.namespace {
            Some(name) => Some(name.copy(alloc)?),
            None => None,
        };
        Ok(Target {
            database: self.database,
            namespace,
        })
    }
}
