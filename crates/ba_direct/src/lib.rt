//! Direct cover: a query that single views of the policy answer, part by part.
#![tactic(auto)]

mod covers;
pub mod laws;
mod pairing;
mod search;
mod test;

pub use covers::{Cover, PartCover};
pub use search::{cover, is_cover};
