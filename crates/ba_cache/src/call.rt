//! What is told of a call on a shelf.
use ba_model::{List, Shared};
use ba_template::{Shape, Template};
use std::snapshot::Snapshot;

/// A template of a shelf, with the number that it was given there.
#[derive(Drop)]
pub struct Kept {
    pub id: u32,
    pub template: Shared<Template>,
}

/// What a look gives: the templates of its shape, the oldest first, or none.
#[derive(Drop)]
pub struct Found {
    pub templates: List<Kept>,
}

/// What becomes of a template that a shelf is given.
#[derive(Clone, Copy, Debug, Drop, PartialEq, Eq)]
pub enum Admit {
    /// It is on the shelf now, under this number.
    Added(u32),
    /// An equal one stood there under this number.
    Known(u32),
}

/// A call with its answer. Shapes and templates stand in contracts alone: an entry holds none.
#[derive(Drop)]
pub enum ShelfCall {
    /// A look at the shape found these.
    Look(Snapshot<Shape>, Snapshot<List<Kept>>),
    Admit(Snapshot<Template>, Admit),
    /// A call was refused for want of memory.
    Refused,
}
