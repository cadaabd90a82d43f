//! How far a recovery has come.

/// How far a recovery has come.
#[derive(Clone, Copy, PartialEq, Eq)]
pub enum Progress {
    /// This many steps of the recovery are done, and there is another.
    Stepped(u64),
    /// All is done.
    Recovered,
}
