//! The replay of a segment: all records, in their order, on the bytes that its pages hold, each page at its moment.
ghost use Rattle.std.specs.List.{list_any};
ghost use Rattle.std.specs.Prelude.{◌≡◌, ◌↔◌, ◌==◌, ◌+◌, ◌*◌, ◌<◌, ◌≤◌, ◌^◌, ℕ, IsTrue, false, length, map};
ghost use Rattle.lc_page.specs.Page.{page_in};
ghost use Rattle.lc_record.specs.Content.{put};
ghost use Rattle.lc_rest.specs.Turns.{has_lock};
ghost use Rattle.lc_rest.specs.Replay.{AreBytes, AreMet, IsDue, IsReplay, IsUnmet, bytes_after, laid_on, lesser};
ghost use Rattle.lc_rest.specs.Replay.{part_at, range_on};

use lc_page::{PAGE_BYTES, page_bytes, read_page};
use lc_record::{Lock, RangeData, Record};

// Lays bytes over others from an offset on, as far as these reach.
fn lay(image: &mut [u8], offset: u32, bytes: &[u8])
    ensures { image.new ≡ put offset bytes.now image.old }
{
    let start = image.len().min(offset as usize);
    let len = bytes.len().min(image.len() - start);
    image[start..start + len].copy_from_slice(&bytes[..len]);
}

// Lays a range over the bytes of a segment, where it is of that segment.
fn lay_range(segment: u32, range: &RangeData, bytes: &mut [u8])
    ensures { bytes.new ≡ range_on segment range.now bytes.old }
{
    if range.segment == segment {
        lay(bytes, range.offset, range.bytes.as_slice());
    }
}

/// Lays the record's ranges of the segment over its bytes.
pub(crate) fn lay_on(segment: u32, whole: &Record, bytes: &mut [u8])
    ensures { bytes.new ≡ laid_on segment whole.now.ranges bytes.old }
{
    for range in whole.ranges.as_slice() {
        lay_range(segment, range, bytes);
    }
}

// Whether one of the locks is on the segment.
fn is_locked(segment: u32, locks: &[Lock]) -> bool
    ensures { result ≡ list_any (λ lock. lock.segment == segment) locks.now }
{
    locks.iter().any(|lock| lock.segment == segment)
}

/// Whether the record has a lock on the segment.
pub(crate) fn has_lock(segment: u32, whole: &Record) -> bool
    ensures { result ≡ has_lock segment whole.now }
{
    is_locked(segment, whole.locks.as_slice())
}

// The lesser of a sequence above a number and one that was found.
fn lesser(due: Option<u64>, number: u64, seq: u64) -> Option<u64>
    ensures { result ≡ lesser due number seq }
{
    if seq <= number {
        return due;
    }
    match due {
        Some(least) => Some(least.min(seq)),
        None => Some(seq),
    }
}

// The least sequence above a number that a page has.
fn next_due(area: &[u8], pages: u32, number: u64) -> Option<u64>
    requires { 2 * 272 * pages ≤ length area.now }
    ensures { IsDue area.now pages number result }
{
    let mut due: Option<u64> = None;
    for page in 0..pages {
        due = lesser(due, number, read_page(area, page).seq);
    }
    due
}

// Whether the page, if it has this sequence, is its part of the bytes.
fn is_met(area: &[u8], page: u32, number: u64, bytes: &[u8]) -> bool
    requires area { 2 * 272 * (page + 1) ≤ length area.now }
    requires bytes { page * 256 + 256 ≤ length bytes.now }
    ensures { IsTrue result ↔ ((page_in area.now page).sequence ≡ number
        → (page_in area.now page).content ≡ part_at page bytes.now) }
{
    if read_page(area, page).seq != number {
        return true;
    }
    let start = page as usize * PAGE_BYTES;
    page_bytes(area, page) == &bytes[start..start + PAGE_BYTES]
}

// Whether each page with this sequence is its part of the bytes.
fn are_met(area: &[u8], pages: u32, number: u64, bytes: &[u8]) -> bool
    requires area { 2 * 272 * pages ≤ length area.now }
    requires bytes { length bytes.now ≡ pages * 256 }
    ensures met { IsTrue result → AreMet area.now pages number bytes.now }
    ensures unmet { result ≡ false → IsUnmet area.now pages number bytes.now }
{
    for page in 0..pages {
        if !is_met(area, page, number, bytes) {
            return false;
        }
    }
    true
}

/// Puts all records, in their order, on the bytes that the pages of a segment hold, whose number was `first` before
/// them. It says whether each page is what the records up to its sequence make of these bytes, and whether the number
/// after all of them is `last`. Each record with a lock on the segment counts one. The area has two slots of 272 bytes
/// a page. It takes no memory. This project's own.
pub fn replay_segment(
    segment: u32,
    first: u64,
    last: u64,
    records: &[&Record],
    area: &[u8],
    pages: u32,
    bytes: &mut [u8],
) -> bool
    requires area { 2 * 272 * pages ≤ length area.now }
    requires bytes { AreBytes area.now pages bytes.old }
    requires small { first + length records.now < 2 ^ 64 }
    ensures bytes { bytes.new ≡ bytes_after segment (map (λ r. r.now) records.now) bytes.old }
    ensures replay { IsTrue result ↔ IsReplay segment first last
        (map (λ r. r.now) records.now) bytes.old area.now pages }
    ensures within { IsTrue result → (page : ℕ) → page < pages → (page_in area.now page).sequence ≤ last }
{
    let mut number = first;
    let mut due = next_due(area, pages, number);
    let mut agrees = true;
    for whole in records {
        lay_on(segment, whole, bytes);
        if has_lock(segment, whole) {
            number += 1;
            if due == Some(number) {
                agrees = agrees && are_met(area, pages, number, bytes);
                due = next_due(area, pages, number);
            }
        }
    }
    agrees && due.is_none() && number == last
}
