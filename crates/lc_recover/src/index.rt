//! The index of the changes: which ranges are to be put on which pages.
ghost use Rattle.std.specs.Prelude.{◌≡◌, ◌⊎◌, ℕ, ◌+◌, ◌*◌, ◌<◌, ◌≤◌, [], ◌∷◌, ◌++◌, List, All, Contains, IfOk, OnErr};
ghost use Rattle.std.specs.Prelude.{length, map};
ghost use Rattle.lc_record.specs.Newest.{number_or_zero};
ghost use Rattle.lc_record.specs.Record.{IsCanonical};
ghost use Rattle.lc_page.specs.PageVector.{entry_at};
ghost use Rattle.lc_recover.specs.Pages.{kept_pages};
ghost use Rattle.lc_recover.specs.StoreContents.{IsIndex};
ghost use Rattle.lc_recover.specs.Reading.{store_of};
ghost use Rattle.lc_recover.specs.declared.redo_range.RedoRange.{RedoRange};
ghost use Rattle.lc_recover.specs.Changes.{Adds, AreOf, Covers, HasOf, IsOf, IsOnRange, PlacedRecord, SomeIsOf};
ghost use Rattle.lc_recover.specs.Changes.{Touches, on_page, seat, seats_from, seats_of};

use crate::page_count::{PAGE_LEN, pages_of};
use crate::record_cursor::records_of;
use crate::redo_range::RedoRange;
use crate::segment_pages::SegmentPages;
use lc_page::PageVector;
use lc_record::{Items, Span, View};
use std::alloc::{AllocError, Global};

/// The ranges of records that are newer than pages that they have bytes on, ascending by segment, page and number. Each
/// record is read once; then the changes are sorted. Memory is wanted only where there is a change.
pub(crate) fn index(
    alloc: Global,
    logs: &[Items<u64>],
    segments: &[SegmentPages],
) -> Result<Vec<RedoRange>, AllocError>
    requires { All (λ (s : SegmentPages). length s.texts ≤ 1024) segments.now }
    ensures index { IfOk result (λ changes. IsIndex logs.now (store_of logs.now segments.now) changes.items) }
    ensures memory { OnErr result (SomeIsOf (map kept_pages segments.now) (seats_from 0 logs.now)) }
{
    let mut changes = changes_of(alloc, logs, segments)?;
    changes.sort_unstable();
    changes.dedup();
    Ok(changes)
}

fn changes_of(
    alloc: Global,
    logs: &[Items<u64>],
    segments: &[SegmentPages],
) -> Result<Vec<RedoRange>, AllocError>
    requires { All (λ (s : SegmentPages). length s.texts ≤ 1024) segments.now }
    ensures changes { IfOk result (λ changes.
        AreOf (map kept_pages segments.now) (seats_from 0 logs.now) changes.items) }
    ensures memory { OnErr result (SomeIsOf (map kept_pages segments.now) (seats_from 0 logs.now)) }
{
    let mut changes = Vec::new(alloc);
    for (log, words) in logs.iter().enumerate() {
        add_log(&mut changes, log, words.as_slice(), segments)?;
    }
    Ok(changes)
}

fn add_log(
    changes: &mut Vec<RedoRange>,
    log: usize,
    words: &[u64],
    segments: &[SegmentPages],
) -> Result<(), AllocError>
    requires { All (λ (s : SegmentPages). length s.texts ≤ 1024) segments.now }
    ensures changes { IfOk result (λ _. (seats : List PlacedRecord)
        → AreOf (map kept_pages segments.now) seats changes.old.items
        → AreOf (map kept_pages segments.now) (seats ++ seats_of log words.now) changes.new.items) }
    ensures memory { OnErr result (SomeIsOf (map kept_pages segments.now) (seats_of log words.now)) }
{
    for (place, view) in records_of(words) {
        add_record(changes, log, place, &view, segments)?;
    }
    Ok(())
}

fn add_record(
    changes: &mut Vec<RedoRange>,
    log: usize,
    place: usize,
    view: &View<'_>,
    segments: &[SegmentPages],
) -> Result<(), AllocError>
    requires canonical { IsCanonical view.now }
    requires few_pages { All (λ (s : SegmentPages). length s.texts ≤ 1024) segments.now }
    ensures adds { IfOk result (λ _. Adds
        (IsOf (map kept_pages segments.now) (seat log place view.now)) changes.old.items changes.new.items) }
    ensures covers { IfOk result (λ _. Covers (map kept_pages segments.now)
        (seat log place view.now) changes.new.items) }
    ensures memory { OnErr result (HasOf (map kept_pages segments.now) (seat log place view.now)) }
{
    for placed in view.spans() {
        let span = placed.span;
        let Some(pages) = pages_of(segments, span.segment) else {
            continue;
        };
        let change = RedoRange {
            segment: span.segment,
            page: 0,
            seq: number(view, span.segment),
            log,
            place,
            words: placed.place,
            offset: span.offset,
            len: span.len,
        };
        add_range(changes, change, span, &pages.texts)?;
    }
    Ok(())
}

// The number of the lock on a segment, 0 without one.
fn number(view: &View<'_>, segment: u32) -> u64
    ensures { result ≡ number_or_zero segment view.now.locks }
{
    for index in 0..view.lock_count() {
        if let Some(lock) = view.lock(index) {
            if lock.segment == segment {
                return lock.seq;
            }
        }
    }
    0
}

// A change for each page that the range has a byte on and whose sequence is below the number.
fn add_range(
    changes: &mut Vec<RedoRange>,
    change: RedoRange,
    span: Span,
    texts: &PageVector,
) -> Result<(), AllocError>
    requires { span.offset + span.len ≤ 262144 }
    ensures adds { IfOk result (λ _. Adds (IsOnRange change span texts.now) changes.old.items changes.new.items) }
    ensures covers { IfOk result (λ _. (page : ℕ) → page < length texts.now → Touches span page →
        (entry_at texts.now page).stable < change.seq → Contains changes.new.items (on_page change page)) }
    ensures memory { OnErr result ((c : RedoRange) × IsOnRange change span texts.now c) }
{
    for page in first_page(span)..behind_page(span) {
        if (page as usize) < texts.len() && texts.stable(page) < change.seq {
            add(changes, RedoRange { page, ..change })?;
        }
    }
    Ok(())
}

fn first_page(span: Span) -> u32
    ensures { (result * 256 ≤ span.offset) × (span.offset < (result + 1) * 256) }
{
    span.offset / PAGE_LEN as u32
}

// The page after the last that the range has a byte on.
fn behind_page(span: Span) -> u32
    requires { span.offset + span.len ≤ 262144 }
    ensures { (span.offset + span.len ≤ result * 256) × (result * 256 < span.offset + span.len + 256) }
{
    (u64::from(span.offset) + span.len).div_ceil(PAGE_LEN) as u32
}

// Adds a change.
fn add(changes: &mut Vec<RedoRange>, change: RedoRange) -> Result<(), AllocError>
    ensures adds { IfOk result (λ _. Adds (λ c. c ≡ change) changes.old.items changes.new.items) }
    ensures there { IfOk result (λ _. Contains changes.new.items change) }
{
    changes.push(change)?;
    Ok(())
}
