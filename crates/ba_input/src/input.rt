//! What a run is given.

use ba_model::{List, Policy, Shared};
use ba_script::Script;
use ba_tables::Tables;
use ba_template::Template;

/// What a run is given.
#[derive(Drop)]
pub struct Input {
    pub policy: Shared<Policy>,
    pub tables: Shared<Tables>,
    pub script: Script,
    /// The table set of each publish line, in their order.
    pub published: List<Shared<Tables>>,
    /// How many workers serve the script, each a lane of its lines.
    pub workers: u32,
    /// How many steps the search for a question's proof may take.
    pub budget: u32,
    /// The templates of the file that the words name, in its order: with these the shelves begin. None
    /// where no file is named.
    pub loaded: List<Shared<Template>>,
    /// In how many orders of its due steps a proof is searched for, side by side: in one or in two.
    pub orders: u32,
}
