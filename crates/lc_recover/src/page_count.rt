//! The pages of a segment by its number.
ghost use Rattle.std.specs.Prelude.{◌≡◌, [], IfSome, IfNone, map, length};
ghost use Rattle.lc_record.specs.Content.{segment_of};
ghost use Rattle.lc_recover.specs.Pages.{kept_pages};

use crate::segment_pages::SegmentPages;

/// How many bytes a page has.
pub(crate) const PAGE_LEN: u64 = 256;

/// The pages of a segment, from 1; None exactly where there is no such segment.
pub(crate) fn pages_of(segments: &[SegmentPages], segment: u32) -> Option<&SegmentPages>
    ensures some { IfSome result (λ pages. segment_of segment (map kept_pages segments.now) ≡ kept_pages pages.now) }
    ensures none { IfNone result (segment_of segment (map kept_pages segments.now) ≡ []) }
{
    let place = (segment as usize).checked_sub(1)?;
    segments.get(place)
}

/// How many pages a segment has, 0 where there is no such segment.
pub(crate) fn page_count(segments: &[SegmentPages], segment: u32) -> usize
    ensures { result ≡ length (segment_of segment (map kept_pages segments.now)) }
{
    match pages_of(segments, segment) {
        Some(pages) => pages.texts.len(),
        None => 0,
    }
}
