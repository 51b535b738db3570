//! Open requests by their numbers.
ghost use Rattle.std.specs.Prelude.{◌≡◌, ◌≢◌, ℕ, ◌++◌, ◌∷◌, [], Some, None, IfNone, IfOk, OnOk, OnErr};
ghost use Rattle.std.specs.BTreeMap.{IsUnchanged, get};
ghost use Rattle.std.specs.Ordering.{nat_cmp};
ghost use Rattle.ba_core.specs.declared.opened.Opened.{Opened};

use crate::opened::{Answered, Opened};
use ba_comply::TraceEntry;
use ba_model::{Duplicate, List, Query, Row, Shared};
use std::alloc::{AllocError, Global};
use std::collections::BTreeMap;

/// The request is open under the number. After an error, which is want of memory, nothing has changed.
pub(crate) fn put(
    requests: &mut BTreeMap<u32, Opened>,
    k: u32,
    it: Opened,
) -> Result<(), AllocError>
    ensures here { OnOk result (get nat_cmp requests.new k ≡ Some it) }
    ensures others { OnOk result ((j : ℕ) →
        j ≢ k → get nat_cmp requests.new j ≡ get nat_cmp requests.old j) }
    ensures err { OnErr result (IsUnchanged requests.old requests.new) }
{
    requests.insert(k, it)?;
    Ok(())
}

/// Takes out the request of the number, if it is open.
pub(crate) fn close(requests: &mut BTreeMap<u32, Opened>, k: u32) -> Option<Opened>
    ensures was { result ≡ get nat_cmp requests.old k }
    ensures here { get nat_cmp requests.new k ≡ None }
    ensures others { (j : ℕ) → j ≢ k → get nat_cmp requests.new j ≡ get nat_cmp requests.old j }
    ensures none { IfNone result (IsUnchanged requests.old requests.new) }
{
    requests.remove(&k)
}

/// Adds the entry to the trace of the request, if it is open. After an error, which is want of memory, nothing has changed.
fn tell(requests: &mut BTreeMap<u32, Opened>, k: u32, entry: TraceEntry) -> Result<(), AllocError>
    ensures here { OnOk result ((asker : Opened) → get nat_cmp requests.old k ≡ Some asker →
        get nat_cmp requests.new k ≡ Some (record asker { trace = asker.trace ++ entry ∷ [] })) }
    ensures others { OnOk result ((j : ℕ) →
        j ≢ k → get nat_cmp requests.new j ≡ get nat_cmp requests.old j) }
    ensures err { OnErr result (IsUnchanged requests.old requests.new) }
{
    match requests.get_mut(&k) {
        Some(asker) => {
            asker.trace.push(entry)?;
            Ok(())
        }
        None => Ok(()),
    }
}

/// Adds an answer to the log, and to the trace of the request, if it is open. After an error, which is want of memory, nothing has
/// changed.
pub(crate) fn keep(
    alloc: Global,
    requests: &mut BTreeMap<u32, Opened>,
    log: &mut Vec<Answered>,
    k: u32,
    query: Shared<Query>,
    rows: &Shared<List<Row>>,
) -> Result<(), AllocError>
    ensures here { OnOk result ((asker : Opened) → get nat_cmp requests.old k ≡ Some asker →
        get nat_cmp requests.new k ≡ Some (record asker {
          trace = asker.trace ++ record { query = query; rows = rows.now } ∷ [];
        })) }
    ensures others { OnOk result ((j : ℕ) →
        j ≢ k → get nat_cmp requests.new j ≡ get nat_cmp requests.old j) }
    ensures log { OnOk result (log.new.items
        ≡ log.old.items ++ record { request = k; query = query; rows = rows.now } ∷ []) }
    ensures err { OnErr result (IsUnchanged requests.old requests.new) }
    ensures log_err { OnErr result (log.new.items ≡ log.old.items) }
{
    let entry = entry_of(alloc, &query, rows)?;
    let rows = rows.copy(alloc)?;
    log.push(Answered {
        request: k,
        query,
        rows,
    })?;
    let told = tell(requests, k, entry);
    if told.is_err() {
        log.pop();
    }
    told
}

fn entry_of(
    alloc: Global,
    query: &Shared<Query>,
    rows: &Shared<List<Row>>,
) -> Result<TraceEntry, AllocError>
    ensures { IfOk result (λ it. it ≡ record { query = query.now; rows = rows.now }) }
{
    let query = query.copy(alloc)?;
    let rows = rows.copy(alloc)?;
    Ok(TraceEntry { query, rows })
}
