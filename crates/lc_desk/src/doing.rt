//! How far a thread's transaction is.
/// How far a thread's transaction is.
#[derive(Clone, Copy)]
pub enum Doing {
    /// There is none.
    Nothing,
    /// It is open.
    Open,
    /// It has its place in the log, and is not closed.
    Reserved {
        /// Which of the node's records since the last recovery is its, from 0.
        number: u64,
    },
}
