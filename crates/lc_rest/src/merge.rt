//! The order in which the records of all nodes follow one another.
ghost use Rattle.std.specs.Prelude.{◌≡◌, ◌↔◌, ◌+◌, ◌<◌, ◌≤◌, ℕ, IsTrue, IfErr, IfNone, IfOk, IfSome, [], List, length};
ghost use Rattle.std.specs.Prelude.{All, slice_index_or};
ghost use Rattle.std.specs.List.{list_all};
ghost use Rattle.lc_record.specs.declared.record.Lock.{Lock as TheLock};
ghost use Rattle.lc_rest.specs.Adopted.{IsNext};
ghost use Rattle.lc_rest.specs.Merge.{AreKnown, AreTurns, IsStuck, after_turns, counted_by, is_next_lock, logs_of};
ghost use Rattle.lc_rest.specs.Merge.{MayTurn, no_record, number_at, times};

use lc_record::{Lock, Record};
use std::alloc::{AllocError, Global};

// The number of a segment.
fn number_at(numbers: &[u64], segment: u32) -> u64
    ensures { result ≡ number_at numbers.now segment }
{
    if segment == 0 {
        return 0;
    }
    numbers.get(segment as usize - 1).copied().unwrap_or(0)
}

// Whether each of the locks has the next number.
fn are_next(numbers: &[u64], locks: &[Lock]) -> bool
    ensures { result ≡ list_all (is_next_lock (number_at numbers.now)) locks.now }
{
    locks.iter().all(
        |lock: &Lock| -> bool
            ensures { result ≡ is_next_lock (number_at numbers.entry.now) lock.now }
        { lock.seq > 0 && lock.seq - 1 == number_at(numbers, lock.segment) },
    )
}

// Whether the log has a record after so many, and that has the next numbers.
fn may_turn(log: &[Record], done: usize, numbers: &[u64]) -> bool
    ensures { IsTrue result ↔ ((done < length log.now)
        × IsNext (number_at numbers.now) (slice_index_or log.now done no_record)) }
{
    done < log.len() && are_next(numbers, log[done].locks.as_slice())
}

// Counts the locks of a record.
fn count(numbers: &mut [u64], whole: &Record)
    requires known { All (λ (lock : TheLock). (1 ≤ lock.segment) × (lock.segment ≤ length numbers.old))
        whole.now.locks }
    ensures { numbers.new ≡ counted_by whole.now.locks numbers.old }
{
    for lock in whole.locks.as_slice() {
        numbers[lock.segment as usize - 1] = lock.seq;
    }
}

// The least node whose next record has the next numbers.
fn find_turn(logs: &[Vec<Record>], done: &[usize], numbers: &[u64]) -> Option<usize>
    requires { length done.now ≡ length logs.now }
    ensures some { IfSome result (MayTurn (logs_of logs.now) done.now numbers.now) }
    ensures least { IfSome result (λ node. (other : ℕ) → other < node
        → MayTurn (logs_of logs.now) done.now numbers.now other → ⊥) }
    ensures none { IfNone result ((node : ℕ) → MayTurn (logs_of logs.now) done.now numbers.now node → ⊥) }
{
    for node in 0..logs.len() {
        if may_turn(logs[node].as_slice(), done[node], numbers) {
            return Some(node);
        }
    }
    None
}

// The least node that has a record left.
fn find_left(logs: &[Vec<Record>], done: &[usize]) -> Option<usize>
    requires { length done.now ≡ length logs.now }
    ensures left { IfSome result (λ node. slice_index_or done.now node 0
        < length (slice_index_or (logs_of logs.now) node [])) }
    ensures least { IfSome result (λ node. (other : ℕ) → other < node
        → length (slice_index_or (logs_of logs.now) other []) ≤ slice_index_or done.now other 0) }
    ensures none { IfNone result ((node : ℕ) → node < length logs.now
        → length (slice_index_or (logs_of logs.now) node []) ≤ slice_index_or done.now node 0) }
{
    for node in 0..logs.len() {
        if done[node] < logs[node].len() {
            return Some(node);
        }
    }
    None
}

// How many records all logs have.
fn count_records(logs: &[Vec<Record>]) -> usize {
    let mut count = 0usize;
    for log in logs {
        count = count.saturating_add(log.len());
    }
    count
}

/// The order in which the records of all nodes follow one another, each with the next numbers of its segments, from the
/// numbers that these have before them on: the nodes, each as often as its turn comes. Where at some turn no node's
/// next record has the next numbers, the least node that has a record left. Segment 1 stands first among the numbers,
/// node 0 among the logs. The numbers become those after the last turn. It takes memory for a count of each node and
/// for the order, before the first turn. This project's own.
pub fn merge_records(
    alloc: Global,
    numbers: &mut [u64],
    logs: &[Vec<Record>],
) -> Result<Result<Vec<usize>, usize>, AllocError>
    requires known { AreKnown (length numbers.old) (logs_of logs.now) }
    ensures follow { IfOk result (λ merged. IfOk merged (λ order.
        AreTurns (logs_of logs.now) numbers.old [] order.items)) }
    ensures last { IfOk result (λ merged. IfOk merged (λ order. numbers.new
        ≡ after_turns (logs_of logs.now) numbers.old [] order.items)) }
    ensures all { IfOk result (λ merged. IfOk merged (λ order. (node : ℕ) → node < length logs.now
        → times node order.items ≡ length (slice_index_or (logs_of logs.now) node []))) }
    ensures none { IfOk result (λ merged. IfOk merged (λ order. (node : ℕ) → length logs.now ≤ node
        → times node order.items ≡ 0)) }
    ensures stuck { IfOk result (λ merged. IfErr merged (λ node. (turns : List ℕ)
        × IsStuck (logs_of logs.now) numbers.old turns node
        × (numbers.new ≡ after_turns (logs_of logs.now) numbers.old [] turns))) }
{
    let mut done = Vec::from_elem(alloc, 0, logs.len())?;
    let mut order = Vec::with_capacity(alloc, count_records(logs))?;
    while let Some(node) = find_turn(logs, done.as_slice(), numbers) {
        count(numbers, &logs[node][done[node]]);
        done[node] += 1;
        order.push(node)?;
    }
    match find_left(logs, done.as_slice()) {
        Some(node) => Ok(Err(node)),
        None => Ok(Ok(order)),
    }
}
