// One thread for each job.
ghost use Rattle.std.specs.Prelude.{◌≡◌, ℕ, ◌<◌, ◌^◌, vec_len, slice_index_or};

use crate::Job;
use ba_outside::Gate;
use std::thread;
use std::thread::Threads;

/// Does the work of all jobs, each in a thread of its own, and joins them all. A job's number is its place, from 0 on.
/// The jobs come back in order, each as `work` with its number leaves it. Where a thread isn't started, the caller does that
/// job's work; so the jobs must not wait for one another.
pub fn fan_out<J: Job + Send, G: Gate + Sync, R: Threads + Sync>(
    rt: &R,
    mut jobs: Vec<J>,
    gate: &G,
) -> Vec<J>
    requires count { vec_len jobs < 2 ^ 32 }
    requires ready { (i : ℕ) (d : J) → i < vec_len jobs → J.ready (slice_index_or jobs.items i d) i }
    ensures len { vec_len result ≡ vec_len jobs }
    ensures done { (i : ℕ) (d : J) → i < vec_len jobs
        → J.done (slice_index_or jobs.items i d) i (slice_index_or result.items i d) }
{
    if jobs.is_empty() {
        return jobs;
    }
    let threads = jobs.len();
    thread::for_each_mut(
        rt,
        jobs.as_mut_slice(),
        threads,
        &|place, job| job.work(place as u32, gate),
    );
    jobs
}
