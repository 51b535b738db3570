//! Shapes as keys of a map.
ghost use Rattle.std.specs.Prelude.{◌≡◌, IfOk, fold};
ghost use Rattle.std.specs.Cmp.{partial_equiv_from_equiv};
ghost use Rattle.ba_cache.specs.Keys.{part_input, same_shape, shape_equiv, shape_input, shape_respects};

use ba_model::{Duplicate, Same};
use ba_template::{Shape, ShapePart};
use std::alloc::{AllocError, Global};
use std::hash::{Hash, Hasher};
use std::marker::Model;

/// A shape under which a shelf keeps templates.
#[derive(Drop)]
pub(crate) struct Key {
    shape: Shape,
}

impl Model for Key {
    ghost use Rattle.ba_template.specs.declared.shapes.Shape.{Shape as Form};

    ghost Value = { Form };

    ghost view = { λ it. it.shape };
}

impl Key {
    pub(crate) fn of(alloc: Global, shape: &Shape) -> Result<Key, AllocError>
        ensures { IfOk result (λ it. it ≡ shape.now) }
    {
        Ok(Key {
            shape: shape.copy(alloc)?,
        })
    }
}

impl PartialEq for Key {
    ghost eq = { same_shape };

    ghost laws = { partial_equiv_from_equiv shape_equiv };

    fn eq(&self, other: &Key) -> bool {
        self.shape.same(&other.shape)
    }
}

impl Eq for Key {
    ghost laws = { shape_equiv };
}

impl Hash for Key {
    ghost hash_input = { shape_input };

    ghost respects_eq = { shape_respects };

    fn hash<H: Hasher>(&self, state: &mut H) {
        for part in self.shape.parts.as_slice() {
            feed(part, state);
        }
    }
}

// A part's tables, and how many atoms and operands of the head it has.
fn feed<H: Hasher>(part: &ShapePart, state: &mut H)
    ensures { state.new ≡ fold H.write state.old (part_input part.now) }
{
    part.from.as_slice().hash(state);
    state.write_usize(part.conds.len());
    state.write_usize(part.head.len());
}
