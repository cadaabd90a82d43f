//! How much of a log is taken.

/// How many records a log has, and how many words they take, from its front on.
#[derive(Clone, Copy, Debug, PartialEq, Eq)]
pub struct LogExtent {
    /// How many records there are.
    pub records: usize,
    /// How many words they take.
    pub words: usize,
}
