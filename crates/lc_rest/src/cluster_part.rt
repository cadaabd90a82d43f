//! The parts of a cluster.
use thiserror::Error;

/// A part of a cluster at rest, whose nodes are numbered from 0 and whose segments from 1.
#[derive(Clone, Copy, Debug, PartialEq, Eq, Error)]
pub enum ClusterPart {
    /// What the threads of this node are doing.
    #[error("a seat of node {0}")]
    Seat(u16),
    /// The log and the records of this node.
    #[error("the log of node {0}")]
    Log(u16),
    /// The token of this segment and its pages.
    #[error("the token of segment {0}")]
    Token(u32),
    /// The images of this segment.
    #[error("the image of segment {0}")]
    Image(u32),
}
