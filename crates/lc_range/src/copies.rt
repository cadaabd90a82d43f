//! Bytes of ranges, taken from an image one after another and put back.
ghost use Rattle.std.specs.Prelude.{◌≡◌, ◌⊎◌, ◌+◌, ◌-◌, ◌^◌, ◌<◌, ◌≤◌, [], ◌∷◌, ◌++◌, ℕ, length, slice_index};
ghost use Rattle.std.specs.Prelude.{unwrap_or, OnOk, OnErr};
ghost use Rattle.lc_range.specs.RangeSet.{total_len};
ghost use Rattle.lc_range.specs.Copies.{AreCopies, AreSome, copies_of, first_ranges, is_last_continued, with_range};
ghost use Rattle.lc_range.specs.Undo.{LiesBelow, kept};

use crate::Range;
use smallvec::SmallVec;
use std::alloc::AllocError;

/// Adds the bytes of a range, in its order. Where it continues the last range, that grows by it. Where there is no
/// memory, the lists are as before.
pub fn add(
    ranges: &mut SmallVec<Range, 8>,
    bytes: &mut SmallVec<u8, 64>,
    range: Range,
    copy: &[u8],
) -> Result<(), AllocError>
    requires { range.offset + range.len < 2 ^ 32 }
    ensures ranges { OnOk result (ranges.new.items ≡ with_range ranges.old.items range) }
    ensures bytes { OnOk result (bytes.new.items ≡ bytes.old.items ++ copy.now) }
    ensures err { OnErr result ((ranges.new.items ≡ ranges.old.items) × (bytes.new.items ≡ bytes.old.items)) }
    ensures memory { OnErr result ((ranges.old.capacity < length (with_range ranges.old.items range))
        ⊎ (bytes.old.capacity < length bytes.old.items + length copy.now)) }
    ensures ranges_capacity { ranges.old.capacity ≤ ranges.new.capacity }
    ensures bytes_capacity { bytes.old.capacity ≤ bytes.new.capacity }
{
    if is_last_continued(ranges.as_slice(), &range) {
        bytes.extend_from_slice(copy)?;
        let last = ranges.len() - 1;
        ranges[last].len += range.len;
        return Ok(());
    }
    ranges.reserve(1)?;
    bytes.extend_from_slice(copy)?;
    ranges.push_reserved(range);
    Ok(())
}

// Whether a range continues the last of these.
fn is_last_continued(ranges: &[Range], range: &Range) -> bool
    ensures { result ≡ is_last_continued ranges.now range.now }
{
    match ranges.last() {
        Some(last) => last.is_continued(range),
        None => false,
    }
}

/// Cuts ranges of so many bytes back to those of the first `len`.
pub fn cut_back(ranges: &mut SmallVec<Range, 8>, bytes: usize, len: usize)
    requires some { AreSome ranges.old.items }
    requires bytes { bytes ≡ total_len ranges.old.items }
    ensures items { ranges.new.items ≡ first_ranges len ranges.old.items }
    ensures capacity { ranges.new.capacity ≡ ranges.old.capacity }
{
    let mut end = bytes;
    while len < end {
        let last = ranges.len() - 1;
        let start = end - ranges[last].len as usize;
        if start < len {
            ranges[last].len = (len - start) as u32;
            return;
        }
        ranges.truncate(last);
        end = start;
    }
}

/// Puts back the copies of a segment, the last of them first.
pub fn put_back(ranges: &[Range], bytes: &[u8], segment: u32, image: &mut [u8])
    requires copies { AreCopies ranges.now bytes.now }
    requires within { LiesBelow (copies_of ranges.now bytes.now) segment (length image.old) }
    ensures len { length image.new ≡ length image.old }
    ensures bytes { (k : ℕ) → slice_index image.new k
        ≡ unwrap_or (kept (copies_of ranges.now bytes.now) segment k) (slice_index image.old k) }
{
    if let [only] = ranges {
        put_only(*only, bytes, segment, image);
        return;
    }
    let mut start = bytes.len();
    for i in (0..ranges.len()).rev() {
        let range = ranges[i];
        let end = start;
        start = end - range.len as usize;
        if range.segment == segment {
            lay(image, range.offset as usize, &bytes[start..end]);
        }
    }
}

// Puts back the only copy, if it is of the segment.
fn put_only(range: Range, bytes: &[u8], segment: u32, image: &mut [u8])
    requires copies { AreCopies (range ∷ []) bytes.now }
    requires within { LiesBelow (copies_of (range ∷ []) bytes.now) segment (length image.old) }
    ensures len { length image.new ≡ length image.old }
    ensures bytes { (k : ℕ) → slice_index image.new k
        ≡ unwrap_or (kept (copies_of (range ∷ []) bytes.now) segment k) (slice_index image.old k) }
{
    if range.segment == segment {
        lay(image, range.offset as usize, bytes);
    }
}

// Lays bytes over those of an image from a position on.
fn lay(image: &mut [u8], at: usize, bytes: &[u8])
    requires { at + length bytes.now ≤ length image.old }
    ensures len { length image.new ≡ length image.old }
    ensures within { (k : ℕ) → at ≤ k → k < at + length bytes.now
        → slice_index image.new k ≡ slice_index bytes.now (k - at) }
    ensures before { (k : ℕ) → k < at → slice_index image.new k ≡ slice_index image.old k }
    ensures behind { (k : ℕ) → at + length bytes.now ≤ k → slice_index image.new k ≡ slice_index image.old k }
{
    image[at..at + bytes.len()].copy_from_slice(bytes);
}
