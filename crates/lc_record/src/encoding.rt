//! Writing a record as words.
ghost use Rattle.std.specs.Prelude.{◌≡◌, ◌-◌, ◌^◌, ◌≤◌, length, min, IfOk, IfErr};
ghost use Rattle.lc_record.specs.Layout.{capped};
ghost use Rattle.lc_record.specs.Record.{record_layout, record_len, spelling, IsRecord};
ghost use Rattle.lc_record.specs.Codec.{IsRefused};

use crate::canonical::{hold_bytes, is_canonical};
use crate::limits::MAX_WORDS;
use crate::{Layout, Record, RecordFault, Spelling};
use std::alloc::{AllocError, Global};

/// How many words a record takes, or the greatest number where there are more.
pub fn encoded_words(record: &Record) -> usize
    ensures { result ≡ min (record_len «record».now) (2 ^ 64 - 1) }
{
    layout_of(record).words()
}

/// The one spelling of a record. It looks for NotCanonical, then TooLong, then NoMemory: it takes memory only for a
/// record that has a spelling, and all of it at once.
pub fn encode(alloc: Global, record: &Record) -> Result<Vec<u64>, RecordFault>
    ensures spelled { IfOk result (λ words. IsRecord «record».now words.items) }
    ensures refused { IfErr result (λ fault. IsRefused «record».now fault) }
{
    if !is_canonical(record) {
        hold_bytes(record.ranges.as_slice());
        return Err(RecordFault::NotCanonical);
    }
    let layout = layout_of(record);
    let words = layout.words();
    if words > MAX_WORDS {
        return Err(RecordFault::TooLong { words });
    }
    spell(alloc, record, &layout).map_err(|_| RecordFault::NoMemory)
}

fn layout_of(record: &Record) -> Layout
    ensures { result ≡ capped (record_layout «record».now) }
{
    let mut layout = Layout::new();
    for _lock in record.locks.as_slice() {
        layout.add_lock();
    }
    for range in record.ranges.as_slice() {
        layout.add_range(range.offset, range.bytes.as_slice().len());
    }
    layout
}

fn spell(alloc: Global, record: &Record, layout: &Layout) -> Result<Vec<u64>, AllocError>
    requires laid { layout.now ≡ record_layout «record».now }
    requires short { record_len «record».now ≤ 4096 }
    ensures { IfOk result (λ words. words.items ≡ spelling «record».now) }
{
    let mut spelling = Spelling::new(alloc, record.node, layout)?;
    for lock in record.locks.as_slice() {
        spelling.add_lock(*lock);
    }
    for range in record.ranges.as_slice() {
        spelling.add_range(range.segment, range.offset, range.bytes.as_slice());
    }
    Ok(spelling.finish())
}
