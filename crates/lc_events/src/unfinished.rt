//! What a stop of a store would lose.
ghost use Rattle.std.specs.Prelude.{◌≡◌};
ghost use Rattle.lc_events.specs.Unfinished.{unfinished_at};

use crate::running::Running;
use lc_disk::Area;

/// What a stop of a store now would lose, over all its nodes; both are zero while it is down.
#[derive(Clone, Copy, Debug, PartialEq, Eq)]
pub struct Unfinished {
    /// The commits that are closed and not acknowledged; 2^64 - 1 where there are more.
    pub commits: u64,
    /// The transactions that are begun, and neither aborted nor closed: open, or reserved.
    pub transactions: u64,
}

impl<D: Area + Drop> Running<D> {
    /// What a stop would lose.
    pub fn unfinished(&self) -> Unfinished
        ensures { result ≡ unfinished_at D.Area self.now.nodes.items }
    {
        let mut commits: u64 = 0;
        let mut transactions: u64 = 0;
        for node in &self.nodes {
            commits = commits.saturating_add(node.journal.unacknowledged());
            transactions += node.desk.begun();
        }
        Unfinished {
            commits,
            transactions,
        }
    }
}
