//! What the segments of a store are made of.
ghost use Rattle.std.specs.Prelude.{◌≡◌, vec_len};
ghost use Rattle.lc_desk.specs.Pieces.{AreLong};

use crate::segment_piece::SegmentPiece;
use lc_record::Geometry;

/// What the segments of a store of this geometry are made of, from segment 1 on.
#[derive(Drop)]
pub struct SegmentPieces {
    pub geometry: Geometry,
    pub pieces: Vec<SegmentPiece>,
    ghost count: { vec_len pieces ≡ geometry.segments },
    ghost long: { AreLong geometry pieces.items },
}
