//! Which records have a spelling.
ghost use Rattle.std.specs.Prelude.{◌≡◌, ◌+◌, ◌≤◌, ◌↔◌, IsTrue, length};
ghost use Rattle.std.specs.List.{AllByRecursion};
ghost use Rattle.lc_record.specs.Words.{AreBytes};
ghost use Rattle.lc_record.specs.Record.{HoldsBytes, IsCanonical, IsRange};
ghost use Rattle.lc_record.specs.Reading.{Passes, ascend, follow, is_lock, start};

use crate::limits::{MAX_LOCKS, MAX_NODE, MAX_OFFSET, MAX_RANGES, MAX_SEGMENT, MAX_SEQ};
use crate::{Lock, RangeData, Record};

/// Whether a record may have this lock.
pub fn is_lock(lock: &Lock) -> bool
    ensures { result ≡ is_lock lock.now }
{
    lock.segment >= 1 && lock.segment <= MAX_SEGMENT && lock.seq >= 1 && lock.seq <= MAX_SEQ
}

// Whether these are locks that a record may have, ascending by segment.
fn ascend(locks: &[Lock]) -> bool
    ensures { result ≡ ascend 0 locks.now }
{
    let mut before = 0;
    for lock in locks {
        if !is_lock(lock) || lock.segment <= before {
            return false;
        }
        before = lock.segment;
    }
    true
}

fn is_range(range: &RangeData) -> bool
    ensures { IsTrue result ↔ IsRange range.now }
{
    let bytes = range.bytes.as_slice();
    are_bytes(bytes);
    let end = range.offset as u64 + bytes.len() as u64;
    !bytes.is_empty() && end <= MAX_OFFSET
}

fn are_ranges(ranges: &[RangeData]) -> bool
    ensures { IsTrue result ↔ AllByRecursion IsRange ranges.now }
{
    for range in ranges {
        if !is_range(range) {
            return false;
        }
    }
    true
}

// Whether the ranges ascend, and are of the segments of these locks, which ascend.
fn follow(locks: &[Lock], ranges: &[RangeData]) -> bool
    ensures { result ≡ follow (start locks.now) ranges.now }
{
    let mut segment = 0;
    let mut end = MAX_OFFSET;
    let mut rest = locks;
    for range in ranges {
        if range.segment != segment {
            let [lock, behind @ ..] = rest else {
                return false;
            };
            if lock.segment != range.segment {
                return false;
            }
            rest = behind;
        } else if u64::from(range.offset) <= end {
            return false;
        }
        segment = range.segment;
        end = u64::from(range.offset) + range.bytes.as_slice().len() as u64;
    }
    rest.is_empty()
}

fn passes(node: u16, locks: &[Lock], ranges: &[RangeData]) -> bool
    ensures { IsTrue result ↔ Passes node locks.now ranges.now }
{
    node <= MAX_NODE
        && !locks.is_empty()
        && locks.len() <= MAX_LOCKS
        && !ranges.is_empty()
        && ranges.len() <= MAX_RANGES
        && ascend(locks)
        && are_ranges(ranges)
        && follow(locks, ranges)
}

/// Whether the record has a spelling.
pub fn is_canonical(record: &Record) -> bool
    ensures { IsTrue result ↔ IsCanonical «record».now }
{
    passes(
        record.node,
        record.locks.as_slice(),
        record.ranges.as_slice(),
    )
}

/// The bytes of the ranges are bytes: a slice tells of its own.
pub fn hold_bytes(ranges: &[RangeData])
    ensures { AllByRecursion HoldsBytes ranges.now }
{
    for range in ranges {
        are_bytes(range.bytes.as_slice());
    }
}

fn are_bytes(bytes: &[u8])
    ensures { AreBytes bytes.now }
{}
