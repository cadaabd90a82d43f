//! What a record says of one segment.
ghost use Rattle.std.specs.Prelude.{◌≡◌, ◌==◌, ◌↔◌, IfOk, IsSome, OnErr, filter};
ghost use Rattle.lc_record.specs.Record.{Writes};

use crate::{Items, RangeData, Record};
use std::alloc::{AllocError, Global};

/// One segment's part of a record: the number that the record has among those of the segment, and its ranges there.
/// A peer applies parts in the order of their numbers (log-based coherency: Feeley et al., OSDI 1994).
#[derive(Drop)]
pub struct Part {
    /// The segment, from 1.
    pub segment: u32,
    /// Its number, from 1 to 2^60.
    pub seq: u64,
    /// The new bytes, ascending by offset.
    pub ranges: Items<RangeData>,
}

impl Part {
    ghost use Rattle.lc_record.specs.Part.{number_in, part_of};

    /// A copy of the part of a record that is of this segment; None where the record has no lock on it. It takes memory
    /// only where the record has a lock on the segment, and a range there.
    pub fn of(alloc: Global, record: &Record, segment: u32) -> Result<Option<Part>, AllocError>
        ensures part { IfOk result (λ part. part ≡ part_of segment «record».now) }
        ensures none { (result ≡ Ok None) ↔ (number_in segment «record».now.locks ≡ None) }
        ensures memory { OnErr result (IsSome (number_in segment «record».now.locks)
            × Writes segment «record».now.ranges) }
    {
        let Some(seq) = Part::number_in(record, segment) else {
            return Ok(None);
        };
        let ranges = ranges_of(alloc, record.ranges.as_slice(), segment)?;
        Ok(Some(Part {
            segment,
            seq,
            ranges: Items::new(ranges),
        }))
    }

    /// The number of a record among those of this segment, if it has a lock on it.
    pub fn number_in(record: &Record, segment: u32) -> Option<u64>
        ensures { result ≡ number_in segment «record».now.locks }
    {
        for lock in record.locks.as_slice() {
            if lock.segment == segment {
                return Some(lock.seq);
            }
        }
        None
    }
}

// Copies of the ranges of a segment.
fn ranges_of(
    alloc: Global,
    ranges: &[RangeData],
    segment: u32,
) -> Result<Vec<RangeData>, AllocError>
    ensures copies { IfOk result (λ copies. copies.items ≡ filter (λ range. range.segment == segment) ranges.now) }
    ensures memory { OnErr result (Writes segment ranges.now) }
{
    let mut copies = Vec::new(alloc);
    for range in ranges {
        if range.segment == segment {
            copies.push(copy_of(alloc, range)?)?;
        }
    }
    Ok(copies)
}

fn copy_of(alloc: Global, range: &RangeData) -> Result<RangeData, AllocError>
    ensures { IfOk result (λ copy. copy ≡ range.now) }
{
    let bytes = Vec::from_slice(alloc, range.bytes.as_slice())?;
    Ok(RangeData {
        segment: range.segment,
        offset: range.offset,
        bytes: Items::new(bytes),
    })
}
