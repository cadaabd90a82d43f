//! How a segment is locked.

/// How a transaction locks a segment.
#[derive(Clone, Copy)]
pub(crate) enum LockMode {
    /// For writing, alone.
    Exclusive,
    /// For reading, beside others.
    Shared,
}
