//! Why a log is not reset.
use thiserror::Error;

/// A record of the log has this number of the segment, which is above what is known to be on the segment's pages.
#[derive(Clone, Copy, Debug, PartialEq, Eq, Error)]
#[error("record {seq} of segment {segment} is not known to be on its pages")]
pub struct Unclean {
    /// The segment, from 1.
    pub segment: u32,
    /// The record's number of the segment.
    pub seq: u64,
}
