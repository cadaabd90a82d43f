//! What is handed over of a cluster at rest.
use crate::node_part::NodePart;
use crate::segment_part::SegmentPart;
use lc_disk::Area;
use lc_record::Geometry;

/// What is handed over of a cluster at rest: of its nodes, from node 0 on, and of its segments, from segment 1 on.
#[derive(Drop)]
pub struct Parts<D: Area> {
    pub geometry: Geometry,
    pub nodes: Vec<NodePart<D>>,
    pub segments: Vec<SegmentPart<D>>,
}
