//! What a node of a cluster at rest has of the segments.
use lc_tx::Image;

/// A node's image of each segment, from segment 1 on, with the number up to which it has applied the segment's records.
#[derive(Drop)]
pub struct NodeImages {
    pub(crate) images: Vec<Image>,
    pub(crate) applied: Vec<u64>,
}
