//! The script that a seed draws.
ghost use Rattle.std.specs.Prelude.{◌≡◌, IfOk};
ghost use Rattle.ba_workload.specs.Script.{script};

use crate::choice::choose;
use crate::draws::Draws;
use crate::request::add_request;
use ba_model::List;
use ba_script::Script;
use std::alloc::{AllocError, Global};

/// The script of so many requests that the seed draws.
pub(crate) fn draw_script(alloc: Global, seed: u64, requests: u32) -> Result<Script, AllocError>
    ensures { IfOk result (λ it. it ≡ script seed requests) }
{
    let mut draws = Draws { state: seed };
    let mut entries = List::new(alloc);
    for number in 0..requests {
        let choice = choose(&mut draws);
        add_request(alloc, &mut entries, number, &choice)?;
    }
    Ok(Script { entries })
}
