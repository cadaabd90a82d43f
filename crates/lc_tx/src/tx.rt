//! One transaction.
ghost use Rattle.std.specs.Prelude.{◌≡◌};
ghost use Rattle.lc_tx.specs.Tx.{IsIdle};

use crate::locking::remove_all;
use lc_range::{RangeSet, Undo};
use smallvec::SmallVec;
use std::alloc::Global;

/// A transaction in restore mode: the segments that it locked for writing and those that it locked for reading, the
/// positions that it has set, and their old bytes. Its writes stand in the images at once. Idea: RVM (Satyanarayanan et
/// al., TOCS 1994).
#[derive(Drop)]
pub struct Tx {
    pub(crate) thread: u16,
    pub(crate) locked: SmallVec<u32, 16>,
    pub(crate) reading: SmallVec<u32, 16>,
    pub(crate) set: RangeSet,
    pub(crate) undo: Undo,
}

impl Tx {
    /// A transaction that is idle: it holds no lock, has set nothing and keeps nothing, until `begin_again`. It takes
    /// no memory.
    pub fn idle(alloc: Global) -> Self
        ensures { IsIdle result }
    {
        Tx {
            thread: 0,
            locked: SmallVec::new(alloc),
            reading: SmallVec::new(alloc),
            set: RangeSet::new(alloc),
            undo: Undo::new(alloc),
        }
    }

    /// Forgets its locks, what it set and what it keeps, and keeps its thread and the memory of all these lists.
    pub(crate) fn clear(&mut self)
        ensures idle { IsIdle self.new }
        ensures thread { self.new.thread ≡ self.old.thread }
    {
        remove_all(&mut self.locked);
        remove_all(&mut self.reading);
        self.set.clear();
        self.undo.clear();
    }
}
