//! Where a range and its bytes stand.
use crate::Span;

/// The span of a range in its segment, and where its bytes stand in the words of its record.
#[derive(Clone, Copy, PartialEq, Eq)]
pub struct PlacedSpan {
    /// Where the range stands in its segment, and how many bytes it has.
    pub span: Span,
    /// The place of the first word of its bytes, counted in words from the front of the record.
    pub place: usize,
}
