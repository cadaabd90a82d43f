//! The records of all nodes in one order.
ghost use Rattle.std.specs.Prelude.{◌≡◌, ◌≤◌, ℕ, [], IfOk, length, map, slice_index_or};
ghost use Rattle.lc_rest.specs.Merge.{logs_of, merged_after, times};

use lc_record::Record;
use std::alloc::{AllocError, Global};

/// The records in the order of these turns of their nodes. It takes memory for one reference a record, and for a count
/// of each node.
pub fn in_order<'a>(
    alloc: Global,
    logs: &'a [Vec<Record>],
    order: &[usize],
) -> Result<Vec<&'a Record>, AllocError>
    requires { (node : ℕ) → times node order.now ≤ length (slice_index_or (logs_of logs.now) node []) }
    ensures { IfOk result (λ records. map (λ r. r.now) records.items ≡ merged_after (logs_of logs.now) [] order.now) }
{
    let mut done = Vec::from_elem(alloc, 0, logs.len())?;
    let mut records = Vec::with_capacity(alloc, order.len())?;
    for node in order {
        records.push(&logs[*node][done[*node]])?;
        done[*node] += 1;
    }
    Ok(records)
}
