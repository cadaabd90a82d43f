//! What a pump did.
/// What became of the next message from a peer.
#[derive(Clone, Copy, Debug, PartialEq, Eq)]
pub enum Pumped {
    /// A record was applied at the least segment on which it has a lock: all up to this number are applied there now.
    /// Whether a token that waited, of a segment on which it has a lock, has arrived with it.
    Applied { applied: u64, arrived: bool },
    /// A record was held back at the least of its segments, until the numbers before its own have come.
    HeldBack,
    /// A record was known at the least of its segments.
    Ignored,
    /// A token has arrived.
    Arrived,
    /// A token waits, until the node has applied all that it has seen.
    Waiting,
    /// No message had come.
    Empty,
}
