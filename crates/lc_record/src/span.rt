//! Where a range stands.

/// Where a range stands in its segment, and how many bytes it has.
#[derive(Clone, Copy, PartialEq, Eq)]
pub struct Span {
    /// The segment, from 1.
    pub segment: u32,
    /// Where it begins in the segment, in bytes.
    pub offset: u32,
    /// How many bytes it has.
    pub len: u64,
}
