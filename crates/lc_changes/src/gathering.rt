//! The bytes that are gathered.
ghost use Rattle.std.specs.Prelude.{◌≡◌, ◌+◌, ◌<◌, ◌≤◌, ◌++◌, length, take, vec_len, OnErr, OnOk};
ghost use Rattle.lc_range.specs.RangeSet.{EndWithin};
ghost use Rattle.lc_changes.specs.Gathering.{bytes_at, part_at};

use lc_range::Range;
use std::alloc::AllocError;

/// Adds the bytes that a segment's image has at its ranges of these, one range after another. Where there is no memory,
/// some may have been added.
pub(crate) fn add_bytes(
    values: &mut Vec<u8>,
    ranges: &[Range],
    segment: u32,
    image: &[u8],
) -> Result<(), AllocError>
    requires { EndWithin ranges.now (length image.now) }
    ensures ok { OnOk result (values.new.items ≡ values.old.items ++ bytes_at segment image.now ranges.now) }
    ensures front { take (vec_len values.old) values.new.items ≡ values.old.items }
    ensures memory { OnErr result (0 < length (bytes_at segment image.now ranges.now)) }
{
    for range in ranges {
        values.extend_from_slice(part_at(segment, image, range))?;
    }
    Ok(())
}

// The bytes that a segment's image has at a range, if the range is of the segment.
fn part_at<'a>(segment: u32, image: &'a [u8], range: &Range) -> &'a [u8]
    requires { range.now.offset + range.now.len ≤ length image.now }
    ensures { result.now ≡ part_at segment image.now range.now }
{
    let start = range.offset as usize;
    let len = range.len as usize;
    if range.segment == segment {
        &image[start..start + len]
    } else {
        &[]
    }
}
