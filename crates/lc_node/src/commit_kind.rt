//! How a transaction ends.
use lc_stage::Receipt;

/// Whether a transaction waits until its record is stable.
#[derive(Clone, Copy, Debug, PartialEq, Eq)]
pub enum Mode {
    /// It does not wait.
    Lazy,
    /// It does, and gets its receipt.
    Flush,
}

/// What became of a transaction.
#[derive(Clone, Copy, Debug)]
pub enum Commit {
    /// Nothing was set, so there is no record.
    Empty,
    /// Its record is closed, and is stable once a flush has made it so.
    Lazy,
    /// Its record is stable, and this is its receipt.
    Flushed(Receipt),
}
