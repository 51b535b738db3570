//! Branches: what a case of a proof knows of two databases, in symbols.
//!
//! A branch has facts on two sides, which are rows of terms, and knows things of the terms: which
//! are equal, which are less than others, which differ and which aren't NULL. [`Branch`]
//! tells of an atom whether that shows it or refutes it, and which mappings of a query's part to
//! its facts are live (Blockaid, OSDI 2022, decides the same questions by an SMT solver).
#![tactic(auto)]

mod alike;
mod branch;
mod copies;
mod found;
mod groups;
mod knowledge;
pub mod laws;
mod lessons;
mod marking;
mod marks;
mod matches;
mod names;
mod number;
mod rises;
mod same;
mod shared_order;
mod shown;
mod term;
mod walk;
mod web;

pub use branch::Branch;
pub use knowledge::Knowledge;
pub use matches::numbers_of;
pub use number::{number_after, number_of};
pub use term::{Fact, Lesson, Mapping, Side, Sort, Term, TermAtom, TermRef};
pub use walk::{Offered, Visit, Walk, Wanted};
