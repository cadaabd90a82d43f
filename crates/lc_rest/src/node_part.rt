//! What is handed over of a node of a cluster at rest.
use lc_disk::Area;
use lc_log::Idle;
use lc_token::KnownClean;
use lc_tx::Image;

/// What is handed over of a node: its log, its round, and how clean it has seen the segments. The words of its records:
/// those of the rounds that have ended since it was opened, those that its log has, and those that are staged after
/// them. And its image of each segment, from segment 1 on, with the number up to which it has applied the segment's
/// records.
#[derive(Drop)]
pub struct NodePart<D: Area> {
    pub log: Idle<D>,
    pub round: u64,
    pub ended: Vec<u64>,
    pub stable: Vec<u64>,
    pub staged: Vec<u64>,
    pub known: KnownClean,
    pub images: Vec<Image>,
    pub applied: Vec<u64>,
}
