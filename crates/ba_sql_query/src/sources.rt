//! The sources of a select, by what they are called.
ghost use Rattle.std.specs.Prelude.{◌≡◌, IfOk};
ghost use Rattle.ba_sql_query.specs.Names.{called, source_of};
ghost use Rattle.ba_sql_query.specs.Spots.{Tells};

use crate::fault::ReadQueryFault;
use crate::spot::{Spot, only_at, seen};
use ba_model::Str;
use ba_sql_syntax::Source;
use std::alloc::{AllocError, Global};
use std::collections::BTreeMap;
use std::marker::Model;

/// The sources of a select, which a contract sees as their list.
#[derive(Drop)]
pub struct Sources<'a> {
    all: &'a [Source],
    spots: BTreeMap<&'a str, Spot>,
}

impl<'a> Model for Sources<'a> {
    ghost use Rattle.std.specs.Prelude.{List};
    ghost use Rattle.ba_sql_syntax.specs.declared.written.Source.{Source};
    ghost use Rattle.ba_sql_query.specs.Spots.{Tells};

    ghost Value = { List Source };

    ghost view = { λ it. it.all.now };

    ghost invariant = { λ it. Tells it.spots it.all.now };
}

impl<'a> Sources<'a> {
    pub fn new(alloc: Global, sources: &'a [Source]) -> Result<Sources<'a>, AllocError>
        ensures { IfOk result (λ it. it ≡ sources.now) }
    {
        let spots = spots_of(alloc, sources)?;
        Ok(Sources {
            all: sources,
            spots,
        })
    }

    /// The place of the only source that is called so.
    #[tactic(auto, unfolding(crate::specs::Names::source_of))]
    pub fn source_of(&self, name: &Str) -> Result<u32, ReadQueryFault>
        ensures { result ≡ source_of self.now name.now }
    {
        only_at(
            ReadQueryFault::UnknownTable,
            self.spots.get(name.as_str()).copied(),
        )
    }
}

fn called(source: &Source) -> &Str
    ensures { result.now ≡ called source.now }
{
    match &source.alias {
        Some(alias) => alias,
        None => &source.table,
    }
}

// The spot of each name that calls a source.
fn spots_of<'a>(alloc: Global, sources: &'a [Source]) -> Result<BTreeMap<&'a str, Spot>, AllocError>
    ensures { IfOk result (λ spots. Tells spots sources.now) }
{
    let mut spots = BTreeMap::new(alloc);
    for (place, source) in sources.iter().enumerate() {
        let name = called(source).as_str();
        let spot = seen(spots.get(name).copied(), place);
        spots.insert(name, spot)?;
    }
    Ok(spots)
}
