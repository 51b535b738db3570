//! Decision templates that threads share: shelves, each a value with a history under a turn of its own.
#![tactic(auto)]

mod cache;
mod call;
mod calls;
mod key;
mod passes;
mod rows;
mod shelf;

pub use cache::{Cache, CachePass};
pub use call::{Admit, Found, Kept, ShelfCall};
pub use shelf::Shelf;
