//! Whether a node's log still serves.
use lc_disk::Area;
use lc_log::{Failed, NodeLog};

/// A node's log at rest, or what a failed call left of it.
#[derive(Drop)]
pub(crate) enum LogState<D: Area> {
    /// It serves.
    Idle(NodeLog<D>),
    /// A call on the pages of a segment failed: only a recovery opens it again.
    Stopped(NodeLog<D>),
    /// A call of it failed: only a recovery opens it again.
    Halted(Failed<D>),
    /// It is taken out, while a call is made.
    Taken,
}
