//! The search for a proof in two orders of its due steps, side by side.
#![tactic(auto)]

mod both;
mod copies;

pub use both::{Both, settle_both};
