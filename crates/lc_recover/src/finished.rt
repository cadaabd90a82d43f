//! What a recovery has made of a store's segments.
use crate::segment_pages::SegmentPages;

/// What a recovery has made of a store's segments: their pages and numbers.
#[derive(Drop)]
pub(crate) struct Finished {
    pub(crate) segments: Vec<SegmentPages>,
    pub(crate) numbers: Vec<u64>,
    /// How many pages were written.
    pub(crate) written: u64,
}
