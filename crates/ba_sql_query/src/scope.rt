//! What the names of a select are looked for in.
ghost use Rattle.std.specs.Prelude.{◌≡◌, IfOk};

use crate::sources::Sources;
use crate::tables::Tables;
use ba_model::Schema;
use ba_sql_syntax::Source;
use std::alloc::{AllocError, Global};

/// A schema, a select's sources, and the numbers of their tables. It is made once for a select, so that no name is looked for in each
/// source.
#[derive(Drop)]
pub struct Scope<'a> {
    pub schema: &'a Schema,
    pub sources: Sources<'a>,
    pub from: Tables<'a>,
}

impl<'a> Scope<'a> {
    /// The scope of the names beside these sources. `from` numbers their tables.
    pub fn new(
        alloc: Global,
        schema: &'a Schema,
        sources: &'a [Source],
        from: &'a [u32],
    ) -> Result<Scope<'a>, AllocError>
        ensures schema { IfOk result (λ it. it.schema.now ≡ schema.now) }
        ensures sources { IfOk result (λ it. it.sources ≡ sources.now) }
        ensures from { IfOk result (λ it. it.from ≡ from.now) }
    {
        let sources = Sources::new(alloc, sources)?;
        let from = Tables::new(alloc, from)?;
        Ok(Scope {
            schema,
            sources,
            from,
        })
    }
}
