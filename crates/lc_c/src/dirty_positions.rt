//! Which positions of an area are dirty, for contracts alone.
ghost use Rattle.lc_disk.specs.Area.{BecomeDirty, IsClean};

use std::snapshot::Snapshot;

/// The positions that a stop may change. No byte is kept for them, and none is ever looked up: each write knows which
/// were dirty before it.
#[derive(Drop)]
pub(crate) struct DirtyPositions {
    at: Snapshot<usize>,
    len: Snapshot<usize>,
    before: Option<Snapshot<DirtyPositions>>,
}

impl DirtyPositions {
    ghost use Rattle.lc_c.specs.DirtyPositions.{is_dirty};

    /// None.
    pub(crate) fn none() -> DirtyPositions
        ensures { IsClean (is_dirty result) }
    {
        DirtyPositions {
            at: Snapshot::of(&0),
            len: Snapshot::of(&0),
            before: None,
        }
    }

    /// Adds so many from a position on.
    pub(crate) fn add(&mut self, at: usize, len: usize)
        ensures { BecomeDirty at len (is_dirty self.old) (is_dirty self.new) }
    {
        let before = Snapshot::of(self);
        self.at = Snapshot::of(&at);
        self.len = Snapshot::of(&len);
        self.before = Some(before);
    }
}
