//! Where the parts of a record stand in its words.
ghost use Rattle.std.specs.Prelude.{◌≡◌, ◌*◌, ◌/◌, ◌%◌, ◌^◌, ◌≤◌, ℕ, IfSome, List, Some, length, slice_get};
ghost use Rattle.lc_record.specs.declared.record.RangeData.{RangeData};
ghost use Rattle.lc_record.specs.LockWords.{locks_in};
ghost use Rattle.lc_record.specs.Reading.{Gives, apart_at, front, front_at, has_room, head_at, is_closed, is_first};
ghost use Rattle.lc_record.specs.Reading.{is_second, len_at, packed_at, place_at, range_at, range_of, ranges_at, start};
ghost use Rattle.lc_record.specs.Reading.{walked};

use crate::GrammarVersion;
use crate::data::{data_len, is_padded};
use crate::fields::{
    gate, length, lock_count, node, range_count, range_offset, range_segment, version,
};
use crate::limits::{
    GATE_OPEN, MAX_LOCKS, MAX_NODE, MAX_OFFSET, MAX_RANGES, MAX_WORDS, SECOND_END,
};
use crate::lock_words::{LockWords, locks_of};
use crate::range_cursor::{start, step};
use crate::span::Span;

/// What the first two words say.
#[derive(Clone, Copy)]
pub struct Head {
    pub version: GrammarVersion,
    pub node: u16,
    pub locks: u16,
    pub ranges: u16,
    pub len: u32,
}

/// A range, with its bytes as words.
#[derive(Clone, Copy)]
pub struct RangeWords<'a> {
    pub span: Span,
    pub data: &'a [u64],
}

fn is_first(first: u64) -> bool
    ensures { result ≡ is_first first }
{
    gate(first) == GATE_OPEN
        && range_count(first) >= 1
        && range_count(first) as usize <= MAX_RANGES
        && length(first) as usize <= MAX_WORDS
}

fn is_second(second: u64) -> bool
    ensures { result ≡ is_second second }
{
    second < SECOND_END
        && node(second) <= MAX_NODE
        && lock_count(second) >= 1
        && lock_count(second) as usize <= MAX_LOCKS
}

/// What the first two words say, and the words after them.
#[tactic(auto, unfolding(crate::specs::Reading::head_at))]
pub fn head_of(words: &[u64]) -> Option<(Head, &[u64])>
    ensures { Gives (λ x. (x.0, x.1.now)) result (head_at words.now) }
{
    let [first, second, rest @ ..] = words else {
        return None;
    };
    let version = GrammarVersion::of_number(version(*first))?;
    if !is_first(*first) || !is_second(*second) {
        return None;
    }
    let head = Head {
        version,
        node: node(*second),
        locks: lock_count(*second),
        ranges: range_count(*first),
        len: length(*first),
    };
    Some((head, rest))
}

/// What stands before the ranges, and the words after it.
#[tactic(auto, unfolding(crate::specs::Reading::front_at))]
pub fn front_of(words: &[u64]) -> Option<(Head, LockWords<'_>, &[u64])>
    ensures { Gives (λ x. front x.0 (locks_in x.1.words.now) x.2.now) result (front_at words.now) }
{
    let (head, rest) = head_of(words)?;
    let (locks, rest) = locks_of(head.locks, rest)?;
    if !locks.ascend() {
        return None;
    }
    Some((head, locks, rest))
}

#[tactic(auto, unfolding(crate::specs::Reading::packed_at))]
fn packed_of(words: &[u64]) -> Option<(Span, &[u64])>
    ensures { Gives (λ x. (x.0, x.1.now)) result (packed_at words.now) }
{
    let [place, len, rest @ ..] = words else {
        return None;
    };
    let span = Span {
        segment: range_segment(*place),
        offset: range_offset(*place),
        len: *len,
    };
    Some((span, rest))
}

#[tactic(auto, unfolding(crate::specs::Reading::apart_at))]
fn apart_of(words: &[u64]) -> Option<(Span, &[u64])>
    ensures { Gives (λ x. (x.0, x.1.now)) result (apart_at words.now) }
{
    let [segment, offset, len, rest @ ..] = words else {
        return None;
    };
    if *segment > u64::from(u32::MAX) || *offset > u64::from(u32::MAX) {
        return None;
    }
    let span = Span {
        segment: *segment as u32,
        offset: *offset as u32,
        len: *len,
    };
    Some((span, rest))
}

/// Where the range at the front stands, and the words after that.
pub fn place_of(version: GrammarVersion, words: &[u64]) -> Option<(Span, &[u64])>
    ensures { Gives (λ x. (x.0, x.1.now)) result (place_at version words.now) }
{
    match version {
        GrammarVersion::First => packed_of(words),
        GrammarVersion::Second => apart_of(words),
    }
}

fn has_room(span: Span, rest: &[u64]) -> bool
    ensures { result ≡ has_room span rest.now }
{
    span.len >= 1
        && span.len <= MAX_OFFSET
        && u64::from(span.offset) + span.len <= MAX_OFFSET
        && data_len(span.len as usize) <= rest.len()
}

/// The range at the front, and the words after it.
#[tactic(auto, unfolding(crate::specs::Reading::range_at))]
pub fn range_of(version: GrammarVersion, words: &[u64]) -> Option<(RangeWords<'_>, &[u64])>
    ensures read { Gives (λ x. (range_of x.0.span x.0.data.now, x.1.now)) result (range_at version words.now) }
    ensures short { IfSome result (λ x. x.0.span.len ≤ 262144) }
    ensures whole { IfSome result (λ x. x.0.span.len ≤ 8 * length x.0.data.now) }
{
    let (span, rest) = place_of(version, words)?;
    if !has_room(span, rest) {
        return None;
    }
    let len = span.len as usize;
    let (data, behind) = rest.split_at(data_len(len));
    if !is_padded(len, data) {
        return None;
    }
    Some((RangeWords { span, data }, behind))
}

/// Of the ranges that stand here, the one at this index.
pub fn nth_range(head: Head, index: usize, words: &[u64]) -> Option<RangeWords<'_>>
    ensures read { (ranges : List RangeData) (rest : List ℕ)
        → ranges_at head.version head.ranges words.now ≡ Some (ranges, rest)
        → Gives (λ x. range_of x.span x.data.now) result (slice_get ranges index) }
    ensures short { IfSome result (λ x. x.span.len ≤ 262144) }
    ensures whole { IfSome result (λ x. x.span.len ≤ 8 * length x.data.now) }
{
    if index >= head.ranges as usize {
        return None;
    }
    let mut rest = words;
    for _ in 0..index {
        let (_, behind) = range_of(head.version, rest)?;
        rest = behind;
    }
    let (range, _) = range_of(head.version, rest)?;
    Some(range)
}

// The words after the ranges, which follow on these locks and are of the version that the head has.
fn behind_ranges<'a>(head: Head, locks: LockWords<'_>, words: &'a [u64]) -> Option<&'a [u64]>
    ensures { Gives (λ rest. rest.now) result
        (walked head.version (start (locks_in locks.entry.words.now)) (ranges_at head.version head.ranges words.now)) }
{
    let mut walk = start(locks);
    let mut needed = GrammarVersion::First;
    let mut rest = words;
    for _ in 0..head.ranges {
        let (range, behind) = range_of(head.version, rest)?;
        walk = step(walk, range.span)?;
        needed = needed.later(GrammarVersion::ending_at(walk.end));
        rest = behind;
    }
    if !walk.locks.is_empty() {
        return None;
    }
    if needed.number() != head.version.number() {
        return None;
    }
    Some(rest)
}

fn is_closed(len: u32, words: &[u64], rest: &[u64]) -> bool
    ensures { result ≡ is_closed len words.now rest.now }
{
    let [last, behind @ ..] = rest else {
        return false;
    };
    *last == u64::from(len) && words.len() == behind.len() + len as usize
}

/// How many words the record at the front takes, or None exactly where there is none.
#[tactic(auto, unfolding(crate::specs::Reading::len_at))]
pub fn len_of(words: &[u64]) -> Option<usize>
    ensures { Gives (λ len. len) result (len_at words.now) }
{
    let (head, locks, rest) = front_of(words)?;
    let behind = behind_ranges(head, locks, rest)?;
    if !is_closed(head.len, words, behind) {
        return None;
    }
    Some(head.len as usize)
}
