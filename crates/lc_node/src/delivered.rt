//! What became of a record at the segments of a node.
use lc_token::Received;

/// What became of a record that a peer published, at the segments of a node on which it has locks.
#[derive(Clone, Copy, PartialEq, Eq)]
pub(crate) struct Delivered {
    /// What became of it at the least of them; `Ignored` where there is none.
    pub(crate) first: Received,
    /// Whether the token of one of them, which waited, has arrived.
    pub(crate) arrived: bool,
}
