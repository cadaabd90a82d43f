//! What became of a record that was received.

/// What became of a record that was received.
#[derive(Clone, Copy, PartialEq, Eq)]
pub enum Received {
    /// It had the next number, and its part is due, with those that were kept and follow on it; all up to this number
    /// are applied.
    Applied(u64),
    /// A number before its own is missing, and its part is kept until that comes.
    HeldBack,
    /// Its number was applied, or is kept.
    Ignored,
}
