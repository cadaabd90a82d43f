//! What is read of the parts of a cluster at rest.
ghost use Rattle.std.specs.Prelude.{◌≡◌, vec_len};
ghost use Rattle.lc_reading.specs.ReadAreas.{AreAreas, AreStarts};

use lc_record::{Geometry, Record};
use lc_rest::Holder;
use lc_token::Token;

/// What is read of the parts of a cluster at rest, but for its images. Of each node, from node 0 on, it has the
/// records, in the order of its log, and how many of them are stable. Of each segment, from segment 1 on, it has the
/// token and where that is, what its area holds, and the bytes of its pages.
#[derive(Drop)]
pub struct ReadParts {
    pub geometry: Geometry,
    pub logs: Vec<Vec<Record>>,
    pub counts: Vec<usize>,
    pub tokens: Vec<Token>,
    pub holders: Vec<Holder>,
    pub areas: Vec<Vec<u8>>,
    pub bytes: Vec<Vec<u8>>,
    ghost all_logs: { vec_len logs ≡ geometry.nodes },
    ghost all_counts: { vec_len counts ≡ geometry.nodes },
    ghost all_tokens: { vec_len tokens ≡ geometry.segments },
    ghost all_holders: { vec_len holders ≡ geometry.segments },
    ghost all_areas: { vec_len areas ≡ geometry.segments },
    ghost all_bytes: { vec_len bytes ≡ geometry.segments },
    ghost long: { AreAreas geometry areas.items },
    ghost starts: { AreStarts geometry areas.items bytes.items },
}
