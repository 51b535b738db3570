//! Calls on a cache: a look and an admit, each in one turn of the shelf of its shard.
ghost use Rattle.std.specs.Prelude.{◌<◌, All, IfOk, map};
ghost use Rattle.ba_template.specs.Shapes.{shard_of};
ghost use Rattle.ba_turn.specs.History.{entry_of};
ghost use Rattle.ba_turn.specs.Passes.{IsFree, MakesCall, known_by};
ghost use Rattle.ba_cache.specs.Passes.{AreFree, CallsOn, IsLegal, known_on};
ghost use Rattle.ba_cache.specs.Reads.{admitted, looked};
ghost use Rattle.ba_cache.specs.Rows.{IsSound, shape_of_template};

use crate::cache::{Cache, CachePass};
use crate::call::{Admit, Found, ShelfCall};
use crate::shelf::Shelf;
use ba_model::Shared;
use ba_template::{Shape, Template};
use ba_turn::{Pass, Turn};
use std::alloc::AllocError;
use std::sync::Wait;

impl Cache {
    /// A look on the shelf of the shape's shard, as `Shelf` makes it: it waits for its turn there, and costs the pass one call of its
    /// allowance on that shelf, where memory is refused too. The history that the pass has then seen is legal, begins with all that it
    /// had seen, and ends with this call. Each template that is given is strongly compliant in all instances that meet its condition.
    pub fn look<R: Wait>(
        &self,
        rt: &R,
        pass: &mut CachePass,
        shape: &Shape,
    ) -> Result<Found, AllocError>
        requires free { AreFree self.now pass.old }
        requires left { 0 < (known_on pass.old (shard_of shape.now)).left }
        ensures free { AreFree self.now pass.new }
        ensures call { CallsOn (shard_of shape.now) pass.old pass.new (looked shape.now result) }
        ensures sound { IfOk result (λ it. All IsSound it.templates) }
    {
        let shard = shape.shard() as usize;
        look(rt, &self.turns[shard], &mut pass.passes[shard], shape)
    }

    /// An admit on the shelf of the shard of the template's shape, as `Shelf` makes it. What is said of waiting, of the allowance and
    /// of the history at `look` holds here too.
    pub fn admit<R: Wait>(
        &self,
        rt: &R,
        pass: &mut CachePass,
        template: Shared<Template>,
    ) -> Result<Admit, AllocError>
        requires free { AreFree self.now pass.old }
        requires left { 0 < (known_on pass.old (shard_of (shape_of_template template))).left }
        ensures free { AreFree self.now pass.new }
        ensures call { CallsOn (shard_of (shape_of_template template)) pass.old pass.new (admitted template result) }
    {
        let shard = template.shape().shard() as usize;
        admit(rt, &self.turns[shard], &mut pass.passes[shard], template)
    }
}

/// A look in one turn.
fn look<R: Wait>(
    rt: &R,
    turn: &Turn<Shelf>,
    pass: &mut Pass<Shelf, ShelfCall>,
    shape: &Shape,
) -> Result<Found, AllocError>
    requires free { IsFree turn.now pass.old }
    requires left { 0 < (known_by pass.old).left }
    ensures free { IsFree turn.now pass.new }
    ensures made { MakesCall (known_by pass.old) (known_by pass.new) (looked shape.now result) }
    ensures legal { IsLegal (map entry_of (known_by pass.new).seen) }
    ensures sound { IfOk result (λ it. All IsSound it.templates) }
{
    let mut held = turn.take(rt, pass);
    let found = held.value().look(shape);
    turn.put(pass, held);
    found
}

/// An admit in one turn.
fn admit<R: Wait>(
    rt: &R,
    turn: &Turn<Shelf>,
    pass: &mut Pass<Shelf, ShelfCall>,
    template: Shared<Template>,
) -> Result<Admit, AllocError>
    requires free { IsFree turn.now pass.old }
    requires left { 0 < (known_by pass.old).left }
    ensures free { IsFree turn.now pass.new }
    ensures made { MakesCall (known_by pass.old) (known_by pass.new) (admitted template result) }
    ensures legal { IsLegal (map entry_of (known_by pass.new).seen) }
{
    let mut held = turn.take(rt, pass);
    let answer = held.value().admit(template);
    turn.put(pass, held);
    answer
}
