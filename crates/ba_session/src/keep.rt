//! The template of a proof.
ghost use Rattle.std.specs.Prelude.{List};
ghost use Rattle.ba_cache.specs.Rows.{shape_of_template};
ghost use Rattle.ba_cache.specs.declared.call.ShelfCall.{ShelfCall};
ghost use Rattle.ba_general.specs.Generals.{IsOfQuestion};
ghost use Rattle.ba_session.specs.Asking.{IsKept};
ghost use Rattle.ba_session.specs.Judging.{IsAdmitted, IsByProof};
ghost use Rattle.ba_session.specs.Passing.{AreOf, HasRoom, Makes, on_shelf};
ghost use Rattle.ba_template.specs.Shapes.{shard_of};

use crate::reply::{By, Keeping};
use crate::service::{Passes, Service};
use ba_general::generalise;
use ba_kernel::Proved;
use ba_model::{Failure, Shared};
use ba_template::Template;
use ba_template::laws::instance_has_shape;
use std::alloc::Global;
use std::sync::Wait;

/// The proof as evidence: its template is made and admitted.
pub(crate) fn prove<R: Wait>(
    rt: &R,
    alloc: Global,
    service: &Service,
    passes: &mut Passes,
    proved: Proved,
) -> By
    requires question { IsOfQuestion proved.problem }
    requires of { AreOf service.now passes.old }
    requires room { HasRoom 1 passes.old }
    ensures of { AreOf service.now passes.new }
    ensures proves { (calls : List ShelfCall) × IsByProof proved calls result
        × Makes (on_shelf proved.problem.goal calls) passes.old passes.new }
{
    let keeping = keep(rt, alloc, service, passes, &proved);
    By::Proof(proved.into_steps(), keeping)
}

/// Makes the proof's template and admits it to the shelf of its question's shard.
fn keep<R: Wait>(
    rt: &R,
    alloc: Global,
    service: &Service,
    passes: &mut Passes,
    proved: &Proved,
) -> Keeping
    requires question { IsOfQuestion proved.now.problem }
    requires of { AreOf service.now passes.old }
    requires room { HasRoom 1 passes.old }
    ensures of { AreOf service.now passes.new }
    ensures kept { (calls : List ShelfCall) × IsKept proved.now result calls
        × Makes (on_shelf proved.now.problem.goal calls) passes.old passes.new }
{
    instance_has_shape();
    match generalise(alloc, proved) {
        Ok(template) => admit(rt, alloc, service, passes, template),
        Err(Failure::Fault(_)) => Keeping::Wide,
        Err(Failure::NoMemory) => Keeping::NoMemory,
    }
}

/// Admits the template to the shelf of its shape's shard.
fn admit<R: Wait>(
    rt: &R,
    alloc: Global,
    service: &Service,
    passes: &mut Passes,
    template: Template,
) -> Keeping
    requires of { AreOf service.now passes.old }
    requires room { HasRoom 1 passes.old }
    ensures of { AreOf service.now passes.new }
    ensures admits { (calls : List ShelfCall) × IsAdmitted template result calls
        × Makes (record { shard = shard_of (shape_of_template template); calls = calls }) passes.old
        passes.new }
{
    let Ok(template) = Shared::new(alloc, template) else {
        return Keeping::NoMemory;
    };
    match service.cache.admit(rt, &mut passes.cache, template) {
        Ok(answer) => Keeping::Stored(answer),
        Err(_) => Keeping::NoMemory,
    }
}
