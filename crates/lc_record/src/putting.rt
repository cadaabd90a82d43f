//! Puts the bytes of ranges over others.
ghost use Rattle.std.specs.Prelude.{◌≡◌, ◌+◌, ◌*◌, ◌<◌, ◌≤◌, ℕ, List, Some, length, slice_get, take};
ghost use Rattle.std.specs.Option.{option_or};
ghost use Rattle.lc_record.specs.declared.record.RangeData.{RangeData};
ghost use Rattle.lc_record.specs.Words.{bytes_of};
ghost use Rattle.lc_record.specs.Newest.{byte_from, byte_of};
ghost use Rattle.lc_record.specs.Reading.{ranges_at};

use crate::limits::WORD;
use crate::parts::{Head, range_of};

// Puts so many of the bytes of these words over others, from a place of them on and as far as both reach: a word at a
// time.
fn put_data(words: &[u64], len: usize, skipped: usize, bytes: &mut [u8])
    requires { len ≤ 8 * length words.now }
    ensures len { length bytes.new ≡ length bytes.old }
    ensures put { (k : ℕ) → k < length bytes.old
        → slice_get bytes.new k ≡ option_or (slice_get (take len (bytes_of words.now)) (skipped + k))
        (slice_get bytes.old k) }
{
    let count = len.saturating_sub(skipped).min(bytes.len());
    let mut done = 0;
    while done < count {
        let place = skipped + done;
        let word = words[place / WORD].to_le_bytes();
        let at = place % WORD;
        let part = (WORD - at).min(count - done);
        bytes[done..done + part].copy_from_slice(&word[at..at + part]);
        done += part;
    }
}

/// Puts so many bytes of these words, which stand at a place of a segment, over those that begin at an offset of it, as
/// far as there are words and both reach. It takes no memory.
pub fn put_words(words: &[u64], start: usize, len: usize, offset: usize, bytes: &mut [u8])
    ensures len { length bytes.new ≡ length bytes.old }
    ensures put { (k : ℕ) → k < length bytes.old
        → slice_get bytes.new k ≡ option_or (byte_from start (take len (bytes_of words.now)) (offset + k))
        (slice_get bytes.old k) }
{
    let count = len.min(words.len() * WORD);
    let skipped = offset.saturating_sub(start);
    let front = start.saturating_sub(offset);
    if front < bytes.len() {
        put_data(words, count, skipped, &mut bytes[front..]);
    }
}

/// Puts the bytes of the ranges that stand here over those that begin at an offset of a segment.
pub fn put_ranges(head: Head, words: &[u64], segment: u32, offset: usize, bytes: &mut [u8])
    ensures len { length bytes.new ≡ length bytes.old }
    ensures put { (ranges : List RangeData) (rest : List ℕ)
        → ranges_at head.version head.ranges words.now ≡ Some (ranges, rest)
        → (k : ℕ) → k < length bytes.old
        → slice_get bytes.new k ≡ option_or (byte_of segment (offset + k) ranges) (slice_get bytes.old k) }
{
    let mut rest = words;
    for _ in 0..head.ranges {
        let Some((range, behind)) = range_of(head.version, rest) else {
            return;
        };
        if range.span.segment == segment {
            let span = range.span;
            put_words(
                range.data,
                span.offset as usize,
                span.len as usize,
                offset,
                bytes,
            );
        }
        rest = behind;
    }
}
