//! Who is told how far a recovery is, and what a run leaves.

/// Is told how far a recovery is, and what a run after it leaves.
pub trait Teller {
    /// So many of its steps are done.
    fn stepped(&self, steps: u64);

    /// It is over, or has failed.
    fn finished(&self);

    /// A run on the store is over: so many of its commits are not flushed, and so many transactions are open. They are
    /// lost.
    fn left(&self, commits: u64, transactions: u64);
}

/// Says nothing.
#[derive(Drop)]
pub struct Silent;

impl Teller for Silent {
    fn stepped(&self, _steps: u64) {}

    fn finished(&self) {}

    fn left(&self, _commits: u64, _transactions: u64) {}
}
