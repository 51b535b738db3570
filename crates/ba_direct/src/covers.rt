ghost use Rattle.std.specs.Prelude.{◌≡◌, IfOk};

use ba_model::{Duplicate, List};
use std::alloc::{AllocError, Global};

/// A view of one part that covers a part of a query, and the pairing: for each table of the view's part its place among
/// the tables of the query's part.
#[derive(Debug, Drop)]
pub struct PartCover {
    /// The view's number in the policy.
    pub view: usize,
    pub places: List<usize>,
}

/// For each part of a query, in order, a view that covers it.
#[derive(Debug, Drop)]
pub struct Cover {
    pub parts: List<PartCover>,
}

impl Duplicate for PartCover {
    fn copy(&self, alloc: Global) -> Result<PartCover, AllocError> {
        let places = self.places.as_slice().to_vec(alloc)?;
        Ok(PartCover {
            view: self.view,
            places: List::from_vec(places),
        })
    }
}

impl Duplicate for Cover {
    fn copy(&self, alloc: Global) -> Result<Cover, AllocError> {
        Ok(Cover {
            parts: self.parts.copy(alloc)?,
        })
    }
}
