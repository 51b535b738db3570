//! Decision templates: proofs of questions made general, which serve every question that they match.
#![tactic(auto)]

mod found;
pub mod laws;
mod same;
mod shapes;
mod standing;
mod template;

pub use found::Match;
pub use shapes::{Shape, ShapeAtom, ShapeOperand, ShapePart};
pub use standing::each_var_stands;
pub use template::Template;
