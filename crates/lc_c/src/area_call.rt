//! What was called on an area.

/// A call that changes what an area holds, or what of it is stable.
#[derive(Clone, Copy, PartialEq, Eq)]
pub(crate) enum AreaCall {
    /// So many bytes were laid over those from a position on.
    Write { at: usize, len: usize },
    /// All was made stable.
    Sync,
}
