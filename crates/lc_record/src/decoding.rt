//! Reading a record from words.
ghost use Rattle.std.specs.Prelude.{IfOk, OnErr, OnOk, IfSome, IfNone, Some, ◌≡◌, ◌==◌, ◌++◌, [], ◌∷◌, List, ℕ, filter};
ghost use Rattle.lc_record.specs.Codec.{BeginsWith, BeginsNoRecord};
ghost use Rattle.lc_record.specs.Reading.{Gives, items_at, range_of, ranges_at, record_at};
ghost use Rattle.lc_record.specs.declared.record.RangeData.{RangeData as Written};
ghost use Rattle.lc_record.specs.declared.record.Record.{Record as Spelled};

use crate::data::read_data;
use crate::parts::{Head, RangeWords, front_of, len_of, range_of};
use crate::{Items, RangeData, Record};
use std::alloc::{AllocError, Global};

/// The record at the front of these words, and how many it takes; None exactly where they begin with no record. It
/// takes memory only where they begin with one.
pub fn decode(alloc: Global, words: &[u64]) -> Result<Option<(Record, usize)>, AllocError>
    ensures found { IfOk result (λ found. IfSome found (λ x. BeginsWith words.now x.0 x.1)) }
    ensures none { IfOk result (λ found. IfNone found (BeginsNoRecord words.now)) }
    ensures memory { OnErr result ((r : Spelled) × (len : ℕ) × BeginsWith words.now r len) }
{
    let Some(len) = len_of(words) else {
        return Ok(None);
    };
    let Some(record) = read_record(alloc, words)? else {
        return Ok(None);
    };
    Ok(Some((record, len)))
}

/// How many words the record at the front takes, as `decode` finds it, without memory.
pub fn check(words: &[u64]) -> Option<usize>
    ensures found { IfSome result (λ len. (r : Spelled) × BeginsWith words.now r len) }
    ensures none { IfNone result (BeginsNoRecord words.now) }
{
    len_of(words)
}

#[tactic(auto, unfolding(crate::specs::Reading::record_at))]
fn read_record(alloc: Global, words: &[u64]) -> Result<Option<Record>, AllocError>
    ensures { IfOk result (λ found. found ≡ record_at words.now) }
{
    let Some(front) = front_of(words) else {
        return Ok(None);
    };
    let (head, locks, rest) = front;
    let Some(ranges) = read_ranges(alloc, head, rest)? else {
        return Ok(None);
    };
    let locks = locks.collect(alloc)?;
    Ok(Some(Record {
        node: head.node,
        locks: Items::new(locks),
        ranges: Items::new(ranges),
    }))
}

fn read_ranges(
    alloc: Global,
    head: Head,
    words: &[u64],
) -> Result<Option<Vec<RangeData>>, AllocError>
    ensures { IfOk result (λ found. Gives (λ v. v.items) found (items_at head.version head.ranges words.now)) }
{
    let mut ranges = Vec::with_capacity(alloc, head.ranges as usize)?;
    let mut rest = words;
    for _ in 0..head.ranges {
        let Some((range, behind)) = range_of(head.version, rest) else {
            return Ok(None);
        };
        ranges.push(read_range(alloc, range)?)?;
        rest = behind;
    }
    Ok(Some(ranges))
}

/// Of the ranges that stand here, those of a segment.
pub fn read_ranges_of(
    alloc: Global,
    head: Head,
    words: &[u64],
    segment: u32,
) -> Result<Vec<RangeData>, AllocError>
    ensures { IfOk result (λ copies. (ranges : List Written) (rest : List ℕ)
        → ranges_at head.version head.ranges words.now ≡ Some (ranges, rest)
        → copies.items ≡ filter (λ range. range.segment == segment) ranges) }
{
    let mut copies = Vec::new(alloc);
    let mut rest = words;
    for _ in 0..head.ranges {
        let Some((range, behind)) = range_of(head.version, rest) else {
            return Ok(copies);
        };
        add_where_of(alloc, range, segment, &mut copies)?;
        rest = behind;
    }
    Ok(copies)
}

// Adds a range where it is of the segment.
fn add_where_of(
    alloc: Global,
    range: RangeWords<'_>,
    segment: u32,
    copies: &mut Vec<RangeData>,
) -> Result<(), AllocError>
    ensures { OnOk result (copies.new.items
        ≡ copies.old.items ++ filter (λ its. its.segment == segment)
        (range_of range.entry.span range.entry.data.now ∷ [])) }
{
    if range.span.segment == segment {
        copies.push(read_range(alloc, range)?)?;
    }
    Ok(())
}

fn read_range(alloc: Global, range: RangeWords<'_>) -> Result<RangeData, AllocError>
    ensures { IfOk result (λ r. r ≡ range_of range.entry.span range.entry.data.now) }
{
    Ok(RangeData {
        segment: range.span.segment,
        offset: range.span.offset,
        bytes: Items::new(read_data(alloc, range.span.len as usize, range.data)?),
    })
}
