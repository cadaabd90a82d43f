//! How far a flush is.
/// How far the flush of a node's log is after one of its four device calls.
#[derive(Clone, Copy, PartialEq, Eq)]
pub enum FlushProgress {
    /// So many of its calls are made, 1 to 3.
    Stepped(u64),
    /// All are made: the first so many records that the node reserved since the last recovery are stable.
    Acked(u64),
    /// There was nothing to flush.
    Nothing,
}
