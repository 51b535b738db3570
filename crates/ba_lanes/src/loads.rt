//! The templates that the shelves have before the first line is served.
ghost use Rattle.std.specs.Prelude.{◌+◌, List, OnOk, length};
ghost use Rattle.ba_session.specs.Passing.{AreOf, IsOpened};
ghost use Rattle.ba_lanes.specs.Legal.{Load};
ghost use Rattle.ba_lanes.specs.Serving.{HaveDealt, shelf_calls, version_calls};

use ba_input::Input;
use ba_model::Duplicate;
use ba_session::{Passes, Service};
use std::alloc::{AllocError, Global};
use std::sync::Wait;

/// Admits the input's templates in their order, each to the shelf of its shape's shard, with the
/// opening passes of a new service.
pub(crate) fn load<R: Wait>(
    rt: &R,
    alloc: Global,
    input: &Input,
    service: &Service,
    passes: &mut Passes,
) -> Result<(), AllocError>
    requires of { AreOf service.now passes.old }
    requires opened { IsOpened (version_calls input.now.script.entries)
        (shelf_calls input.now.script.entries + length input.now.loaded) passes.old }
    ensures of { AreOf service.now passes.new }
    ensures dealt { OnOk result ((loads : List Load) × HaveDealt input.now loads 0 passes.new) }
{
    for loaded in input.loaded.as_slice() {
        let template = loaded.copy(alloc)?;
        service.load(rt, passes, template)?;
    }
    Ok(())
}
