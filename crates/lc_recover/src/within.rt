//! Whether the records lie within the segments.
ghost use Rattle.std.specs.Prelude.{◌≡◌, ◌≢◌, ◌≤◌, ◌<◌, ◌+◌, ◌*◌, [], All, Contains, IfErr, OnOk, MatchBool, List};
ghost use Rattle.std.specs.Prelude.{length, map};
ghost use Rattle.lc_record.specs.Content.{segment_of};
ghost use Rattle.lc_record.specs.GrammarVersion.{end_of};
ghost use Rattle.lc_record.specs.Record.{IsCanonical, span_of};
ghost use Rattle.lc_record.specs.declared.record.Record.{Record};
ghost use Rattle.lc_record.specs.declared.record.Lock.{Lock};
ghost use Rattle.lc_record.specs.declared.record.RangeData.{RangeData};
ghost use Rattle.lc_log.specs.InPlace.{records_in};
ghost use Rattle.lc_model.specs.Merge.{AreOwn, AreWithin, IsOutside};
ghost use Rattle.lc_recover.specs.Fault.{IsRefusal};
ghost use Rattle.lc_recover.specs.Pages.{kept_pages};
ghost use Rattle.lc_recover.specs.Reading.{store_of};
ghost use Rattle.lc_recover.specs.declared.fault.RecoverFault.TheVariants.{NoMemory};

use crate::RecoverFault;
use crate::page_count::{PAGE_LEN, page_count};
use crate::record_cursor::records_of;
use crate::segment_pages::SegmentPages;
use lc_record::{Items, View};

/// Refuses the first log with a record that has a lock on a segment that the store does not have, or a range that ends
/// past its segment.
pub(crate) fn within(logs: &[Items<u64>], segments: &[SegmentPages]) -> Result<(), RecoverFault>
    requires few_logs { length logs.now ≤ 8 }
    requires few_pages { All (λ (s : SegmentPages). length s.texts ≤ 1024) segments.now }
    ensures refused { IfErr result (λ fault. AreOwn (store_of logs.now segments.now)
        → IsRefusal (store_of logs.now segments.now) fault) }
    ensures named { IfErr result (λ fault. fault ≢ NoMemory) }
    ensures within { OnOk result (AreWithin (store_of logs.now segments.now)) }
{
    for (area, log) in logs.iter().enumerate() {
        if !lie_within(log.as_slice(), segments) {
            return Err(RecoverFault::OutOfSegment { area: area as u32 });
        }
    }
    Ok(())
}

fn lie_within(words: &[u64], segments: &[SegmentPages]) -> bool
    requires { All (λ (s : SegmentPages). length s.texts ≤ 1024) segments.now }
    ensures { MatchBool result (All (λ r. IsOutside (store_of [] segments.now) r → ⊥) (records_in words.now))
        ((r : Record) × Contains (records_in words.now) r × IsOutside (store_of [] segments.now) r) }
{
    for (_, view) in records_of(words) {
        if !lies_within(&view, segments) {
            return false;
        }
    }
    true
}

fn lies_within(view: &View<'_>, segments: &[SegmentPages]) -> bool
    requires canonical { IsCanonical view.now }
    requires few_pages { All (λ (s : SegmentPages). length s.texts ≤ 1024) segments.now }
    ensures { MatchBool result (IsOutside (store_of [] segments.now) view.now → ⊥)
        (IsOutside (store_of [] segments.now) view.now) }
{
    locks_within(view, segments.len()) && ranges_within(view, segments)
}

fn locks_within(view: &View<'_>, segments: usize) -> bool
    ensures { MatchBool result (All (λ lock. lock.segment ≤ segments) view.now.locks)
        ((lock : Lock) × Contains view.now.locks lock × (segments < lock.segment)) }
{
    for index in 0..view.lock_count() {
        if let Some(lock) = view.lock(index) {
            if lock.segment as usize > segments {
                return false;
            }
        }
    }
    true
}

fn ranges_within(view: &View<'_>, segments: &[SegmentPages]) -> bool
    requires canonical { IsCanonical view.now }
    requires few_pages { All (λ (s : SegmentPages). length s.texts ≤ 1024) segments.now }
    ensures { MatchBool result
        (All (λ range. end_of (span_of range) ≤ length (segment_of range.segment (map kept_pages segments.now)) * 256)
        view.now.ranges)
        ((range : RangeData) × Contains view.now.ranges range
        × (length (segment_of range.segment (map kept_pages segments.now)) * 256 < end_of (span_of range))) }
{
    for placed in view.spans() {
        let span = placed.span;
        if u64::from(span.offset) + span.len
            > page_count(segments, span.segment) as u64 * PAGE_LEN
        {
            return false;
        }
    }
    true
}
