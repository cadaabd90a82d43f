//! What is read of a segment.
use crate::Holder;
use lc_token::Token;

/// What is read of a segment of a cluster at rest.
#[derive(Drop)]
pub struct SegmentRead<'a> {
    /// The segment, from 1.
    pub segment: u32,
    /// Its token.
    pub token: &'a Token,
    /// Where its token is.
    pub holder: Holder,
    /// The bytes of its area.
    pub area: &'a [u8],
    /// How many pages it has.
    pub pages: u32,
}
