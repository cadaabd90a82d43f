//! The tests of a segment's token, its records and its pages.
ghost use Rattle.std.specs.Prelude.{◌≡◌, ◌↔◌, ◌+◌, ◌-◌, ◌*◌, ◌^◌, ◌<◌, ◌≤◌, ℕ, [], All, IfNone, IfSome, IsTrue, length};
ghost use Rattle.std.specs.Prelude.{nat_lt, slice_index_or};
ghost use Rattle.lc_record.specs.Part.{number_in};
ghost use Rattle.lc_record.specs.declared.record.RangeData.{RangeData as TheRange};
ghost use Rattle.lc_page.specs.Page.{page_in};
ghost use Rattle.lc_rest.specs.Merge.{logs_of, no_record, record_at};
ghost use Rattle.lc_rest.specs.TokenTest.{IsKeptPage, IsKeptRange, IsKeptRecord, IsKeptToken, IsLeastWaiting};
ghost use Rattle.lc_rest.specs.TokenTest.{IsLowered, IsOnItsSide, IsReadPage, count_log, count_on};

use crate::replay::has_lock;
use crate::{Holder, SegmentRead};
use lc_page::{PAGE_BYTES, PageText, Slot, read_page};
use lc_record::{MAX_SEQ, PAGE, RangeData, Record};

// Whether the page is touched under this number, and has it where it is clean.
fn keeps_page(read: &SegmentRead<'_>, number: u64, page: u32) -> bool
    requires area { 2 * 272 * (page + 1) ≤ length read.now.area.now }
    requires page { page < length read.now.token.now.pages }
    ensures { IsTrue result ↔ IsKeptPage number read.now.token.now.clean read.now.area.now read.now.token.now.pages
        page }
{
    number <= read.token.pages().touched(page)
        && (number > read.token.clean() || number <= read_page(read.area, page).seq)
}

// Whether it is so with each page on which the range has a byte.
fn keeps_range(read: &SegmentRead<'_>, number: u64, range: &RangeData) -> bool
    requires area { 2 * 272 * read.now.pages ≤ length read.now.area.now }
    requires pages { read.now.pages ≤ length read.now.token.now.pages }
    ensures { IsTrue result ↔ IsKeptRange number read.now.token.now.clean read.now.pages read.now.area.now
        read.now.token.now.pages range.now }
{
    let first = range.offset / PAGE;
    for page in first..read.pages {
        if page as usize * PAGE_BYTES >= range.offset as usize + range.bytes.as_slice().len() {
            break;
        }
        if !keeps_page(read, number, page) {
            return false;
        }
    }
    true
}

// Whether it is so with the range, if it is of the segment.
fn keeps_own_range(read: &SegmentRead<'_>, number: u64, range: &RangeData) -> bool
    requires area { 2 * 272 * read.now.pages ≤ length read.now.area.now }
    requires pages { read.now.pages ≤ length read.now.token.now.pages }
    ensures { IsTrue result ↔ (range.now.segment ≡ read.now.segment
        → IsKeptRange number read.now.token.now.clean read.now.pages read.now.area.now read.now.token.now.pages
        range.now) }
{
    range.segment != read.segment || keeps_range(read, number, range)
}

// Whether it is so with the ranges of the segment.
fn keeps_ranges(read: &SegmentRead<'_>, number: u64, whole: &Record) -> bool
    requires area { 2 * 272 * read.now.pages ≤ length read.now.area.now }
    requires pages { read.now.pages ≤ length read.now.token.now.pages }
    ensures { IsTrue result ↔ All (λ (range : TheRange). range.segment ≡ read.now.segment
        → IsKeptRange number read.now.token.now.clean read.now.pages read.now.area.now read.now.token.now.pages range)
        whole.now.ranges }
{
    for range in whole.ranges.as_slice() {
        if !keeps_own_range(read, number, range) {
            return false;
        }
    }
    true
}

/// The number of the record's lock on the segment, if it has one.
pub(crate) fn number_in(segment: u32, whole: &Record) -> Option<u64>
    ensures { result ≡ number_in segment whole.now.locks }
{
    for lock in whole.locks.as_slice() {
        if lock.segment == segment {
            return Some(lock.seq);
        }
    }
    None
}

// Whether a record with this number is on the right side of the least number that is not stable, and at home if it is
// not stable.
fn keeps_number(least: u64, holder: Holder, stable: bool, node: u16, number: u64) -> bool
    ensures { IsTrue result ↔ IsOnItsSide least holder stable node number }
{
    if stable {
        return number < least;
    }
    least <= number && holder == Holder::Here(node)
}

// Whether the record, if it is of the segment, is so, and on pages that are touched, and have it where it is clean.
fn keeps_record(read: &SegmentRead<'_>, least: u64, stable: bool, whole: &Record) -> bool
    requires area { 2 * 272 * read.now.pages ≤ length read.now.area.now }
    requires pages { read.now.pages ≤ length read.now.token.now.pages }
    ensures { IsTrue result ↔ IsKeptRecord read.now.segment least read.now.token.now.clean read.now.pages
        read.now.holder read.now.area.now read.now.token.now.pages stable whole.now }
{
    let Some(number) = number_in(read.segment, whole) else {
        return true;
    };
    keeps_number(least, read.holder, stable, whole.node, number)
        && keeps_ranges(read, number, whole)
}

// Whether it is so with all records of a log, of which so many are stable.
fn keeps_log(read: &SegmentRead<'_>, least: u64, stable: usize, log: &[Record]) -> bool
    requires area { 2 * 272 * read.now.pages ≤ length read.now.area.now }
    requires pages { read.now.pages ≤ length read.now.token.now.pages }
    ensures { IsTrue result ↔ ((k : ℕ) → k < length log.now
        → IsKeptRecord read.now.segment least read.now.token.now.clean read.now.pages read.now.holder read.now.area.now
        read.now.token.now.pages (nat_lt k stable) (slice_index_or log.now k no_record)) }
{
    for k in 0..log.len() {
        if !keeps_record(read, least, k < stable, &log[k]) {
            return false;
        }
    }
    true
}

// Whether it is so with the records of all logs.
fn keeps_logs(read: &SegmentRead<'_>, least: u64, stable: &[usize], logs: &[Vec<Record>]) -> bool
    requires area { 2 * 272 * read.now.pages ≤ length read.now.area.now }
    requires pages { read.now.pages ≤ length read.now.token.now.pages }
    requires count { length stable.now ≡ length logs.now }
    ensures { IsTrue result ↔ ((n k : ℕ) → n < length (logs_of logs.now)
        → k < length (slice_index_or (logs_of logs.now) n [])
        → IsKeptRecord read.now.segment least read.now.token.now.clean read.now.pages read.now.holder read.now.area.now
        read.now.token.now.pages (nat_lt k (slice_index_or stable.now n 0)) (record_at (logs_of logs.now) n k)) }
{
    for node in 0..logs.len() {
        if !keeps_log(read, least, stable[node], logs[node].as_slice()) {
            return false;
        }
    }
    true
}

// The lesser of a number and the least of the segment in the records of the log from this place on.
fn lowered(segment: u32, most: u64, log: &[Record], from: usize) -> u64
    ensures { IsLowered segment log.now from (length log.now) most result }
{
    let mut least = most;
    for place in from..log.len() {
        if let Some(number) = number_in(segment, &log[place]) {
            least = least.min(number);
        }
    }
    least
}

// The least number of a record of the segment that is not stable, or the one above the token's where that is less.
fn least_waiting(segment: u32, seq: u64, logs: &[Vec<Record>], stable: &[usize]) -> u64
    requires small { seq < 2 ^ 64 - 1 }
    requires count { length stable.now ≡ length logs.now }
    ensures { IsLeastWaiting segment seq (logs_of logs.now) stable.now result }
{
    let mut least = seq + 1;
    for node in 0..logs.len() {
        least = lowered(segment, least, logs[node].as_slice(), stable[node]);
    }
    least
}

/// How many records of the log are of the segment.
pub(crate) fn count_log(segment: u32, log: &[Record]) -> usize
    ensures { result ≡ count_log segment log.now }
{
    log.iter().filter(|whole| has_lock(segment, whole)).count()
}

/// The number that a segment has before all its records in these logs, where the last of them has this number; None
/// where there are more records than that. It takes no memory.
pub fn first_number(segment: u32, seq: u64, logs: &[Vec<Record>]) -> Option<u64>
    ensures some { IfSome result (λ first. first + count_on segment (logs_of logs.now) ≡ seq) }
    ensures none { IfNone result (seq < count_on segment (logs_of logs.now)) }
{
    let mut first = seq;
    for log in logs {
        first = first.checked_sub(count_log(segment, log.as_slice()) as u64)?;
    }
    Some(first)
}

// Whether some page has come to the number.
fn is_reached(read: &SegmentRead<'_>, number: u64) -> bool
    requires { 2 * 272 * read.now.pages ≤ length read.now.area.now }
    ensures { IsTrue result ↔ ((page : ℕ) × (page < read.now.pages)
        × (number ≤ (page_in read.now.area.now page).sequence)) }
{
    for page in 0..read.pages {
        if number <= read_page(read.area, page).seq {
            return true;
        }
    }
    false
}

// Whether the two are the same slot, or neither is one.
fn is_same_slot(one: Option<Slot>, other: Option<Slot>) -> bool
    ensures { IsTrue result ↔ (one ≡ other) }
{
    one.map(Slot::number) == other.map(Slot::number)
}

// Whether the two say the same of a page.
fn is_same_text(one: &PageText, other: &PageText) -> bool
    ensures { IsTrue result ↔ (one.now ≡ other.now) }
{
    one.seq == other.seq && is_same_slot(one.slot, other.slot) && one.gates == other.gates
}

// Whether what the token says of the page is what the area says, and the page is below the number.
fn is_read(read: &SegmentRead<'_>, page: u32, least: u64) -> bool
    requires area { 2 * 272 * (page + 1) ≤ length read.now.area.now }
    requires page { page < length read.now.token.now.pages }
    ensures { IsTrue result ↔ IsReadPage least read.now.area.now read.now.token.now.pages page }
{
    let text = read_page(read.area, page);
    text.seq < least && is_same_text(&read.token.pages().entry(page).text(), &text)
}

// Whether it is so with all pages.
fn are_read(read: &SegmentRead<'_>, least: u64) -> bool
    requires area { 2 * 272 * read.now.pages ≤ length read.now.area.now }
    requires pages { read.now.pages ≤ length read.now.token.now.pages }
    ensures { IsTrue result ↔ ((page : ℕ) → page < read.now.pages
        → IsReadPage least read.now.area.now read.now.token.now.pages page) }
{
    for page in 0..read.pages {
        if !is_read(read, page, least) {
            return false;
        }
    }
    true
}

/// Whether a segment's token agrees with its records, of which so many of each node are stable, and with its area. Its
/// number is at most `MAX_SEQ` and its clean number at most that, and what it says of each page is what the area says.
/// Its records are as many as end at its number, and some page has come to the number before them. A record that is not
/// stable is of the node where the token is, and all that are stable and all pages are below it. Each record is on
/// pages that are touched, and, where it is clean, have it. The area has two slots of 272 bytes a page. It takes no
/// memory. This project's own.
pub fn keeps_token(read: &SegmentRead<'_>, stable: &[usize], logs: &[Vec<Record>]) -> bool
    requires area { 2 * 272 * read.now.pages ≤ length read.now.area.now }
    requires count { length stable.now ≡ length logs.now }
    ensures { IsTrue result ↔ IsKeptToken read.now.segment read.now.pages read.now.token.now read.now.holder
        (logs_of logs.now) stable.now read.now.area.now }
{
    let token = read.token;
    let (seq, clean) = (token.seq(), token.clean());
    if seq > MAX_SEQ || clean > seq || token.pages().len() < read.pages as usize {
        return false;
    }
    let Some(first) = first_number(read.segment, seq, logs) else {
        return false;
    };
    let least = least_waiting(read.segment, seq, logs, stable);
    is_reached(read, first) && are_read(read, least) && keeps_logs(read, least, stable, logs)
}
