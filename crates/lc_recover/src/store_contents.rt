//! What was read of the areas of a store, as words and pages.
use crate::segment_pages::SegmentPages;
use lc_record::Items;

/// What was read of the areas of a store, in their order: the words of each log, and the pages of each segment.
#[derive(Drop)]
pub(crate) struct StoreContents {
    pub(crate) logs: Vec<Items<u64>>,
    pub(crate) segments: Vec<SegmentPages>,
}
