//! Reads a workload.
ghost use Rattle.std.specs.Prelude.{◌≡◌, ◌<◌, ◌≤◌, IfOk};
ghost use Rattle.ba_input.specs.Inputs.{IsInput};
ghost use Rattle.ba_model.specs.Limits.{most_workers};
ghost use Rattle.ba_outside.specs.Seen.{FilesSeen};
ghost use Rattle.ba_plan.specs.Follows.{Follows};
ghost use Rattle.ba_input.specs.Tasks.{IsTask};
ghost use Rattle.ba_input.specs.Reading.{workload_plan, workload_reading};
ghost use Rattle.ba_input.specs.Stops.{given_stop};

use crate::input::Input;
use crate::refusal::fault_of;
use crate::run_input::{Named, read_named};
use crate::task::{Task, Told};
use ba_command::ORDERS;
use ba_model::{BUDGET, Str};
use ba_outside::SureFiles;
use ba_plan::Stop;
use ba_wire::Fault;
use ba_workload::laws::files_hold_their_bytes;
use ba_workload::{
    POLICY_FILE, SCHEMA_FILE, SCRIPT_FILE, TABLE_SET, workload_files, workload_text,
};
use std::alloc::Global;

// What stops a reading of files that are given: what is told of it is a refusal.
fn given_stop(stop: Stop<Fault>) -> Stop<Fault>
    ensures { result ≡ given_stop stop }
{
    match fault_of(stop) {
        Some(fault) => Stop::Refused(fault),
        None => Stop::NoMemory,
    }
}

// The input that the workload's files come to.
fn workload_input(
    alloc: Global,
    seed: u64,
    requests: u32,
    workers: u32,
) -> Result<Input, Stop<Fault>>
    requires workers { (0 < workers) × (workers ≤ most_workers) }
    ensures follows { (s : FilesSeen) → Follows (workload_reading seed requests workers) s s result }
    ensures input { IfOk result IsInput }
{
    files_hold_their_bytes();
    let held = workload_files(alloc, seed, requests)?;
    let mut files = SureFiles::new(alloc, held);
    let named = Named {
        schema: SCHEMA_FILE,
        policy: POLICY_FILE,
        tables: TABLE_SET,
        script: SCRIPT_FILE,
        workers,
        budget: BUDGET,
        orders: ORDERS,
    };
    match read_named(alloc, &mut files, &named) {
        Ok(input) => Ok(input),
        Err(stop) => Err(given_stop(stop)),
    }
}

/// What is done with a workload: its script is printed, or run.
pub(crate) fn read_workload(
    alloc: Global,
    seed: u64,
    requests: u32,
    workers: u32,
    print: bool,
) -> Result<Task, Stop<Fault>>
    requires workers { (0 < workers) × (workers ≤ most_workers) }
    ensures follows { (s : FilesSeen) → Follows (workload_plan seed requests workers print) s s result }
    ensures task { IfOk result IsTask }
{
    if print {
        let text = workload_text(alloc, seed, requests)?;
        Ok(Task::Print(Str::from_string(text)))
    } else {
        let input = workload_input(alloc, seed, requests, workers)?;
        Ok(Task::Run(input, Told::Summary))
    }
}
