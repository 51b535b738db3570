// Where a worker may be held.

/// A place that each worker passes before it does the next piece of its work. A gate may hold a
/// worker for a while; it changes nothing that the worker does.
pub trait Gate {
    /// Lets the job of that number go on to its piece of work number `point`. A worker calls it
    /// before each line, with its job's number and its count of earlier lines, both from 0.
    fn pass(&self, job: u32, point: u32);
}
