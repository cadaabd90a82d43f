//! What is handed over of a segment of a cluster at rest.
use crate::holder::Holder;
use lc_disk::Area;
use lc_token::Token;

/// What is handed over of a segment: its token, the area of its pages, and where the token is.
#[derive(Drop)]
pub struct SegmentPart<D: Area> {
    pub token: Token,
    pub area: D,
    pub holder: Holder,
}
