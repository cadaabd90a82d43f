//! What a record says: who committed it, under which locks, and the new bytes of which ranges.
use crate::Items;

/// The commit of one transaction (RVM: new values only).
#[derive(Drop)]
pub struct Record {
    /// The node that committed it, from 0.
    pub node: u16,
    /// A lock for each segment that was written, ascending by segment.
    pub locks: Items<Lock>,
    /// The new bytes, ascending by segment and offset.
    pub ranges: Items<RangeData>,
}

/// A segment's lock, with the number that the commit has among those of the segment
/// (log-based coherency: Feeley et al., OSDI 1994).
#[derive(Clone, Copy, PartialEq, Eq)]
pub struct Lock {
    /// The segment, from 1.
    pub segment: u32,
    /// Its number, from 1 to 2^60.
    pub seq: u64,
}

/// The new bytes of one range of a segment.
#[derive(Drop)]
pub struct RangeData {
    /// The segment, from 1.
    pub segment: u32,
    /// Where the range begins in the segment, in bytes.
    pub offset: u32,
    /// Its bytes, at least one.
    pub bytes: Items<u8>,
}
