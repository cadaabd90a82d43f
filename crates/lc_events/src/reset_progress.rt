//! How far a reset is.
/// How far the reset of a node's log is after one of its four steps.
#[derive(Clone, Copy, PartialEq, Eq)]
pub enum ResetProgress {
    /// So many of its steps are done, 1 to 3.
    Stepped(u64),
    /// All are done: the log is empty, and a new round begins.
    Reset,
    /// The log was empty.
    Nothing,
}
