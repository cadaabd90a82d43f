//! What was read of the first areas of a store.
ghost use Rattle.std.specs.Prelude.{◌≡◌, ◌+◌, ◌≤◌, [], length};

use crate::lock_number::LockNumber;
use crate::store_contents::StoreContents;
use std::alloc::Global;

/// What was read of the first areas of a store, and the numbers that the merge looks for refusals in.
#[derive(Drop)]
pub(crate) struct ReadAreas {
    pub(crate) kept: StoreContents,
    /// The numbers of all records, in any order.
    pub(crate) locks: Vec<LockNumber>,
    /// The greatest sequence of each segment's pages.
    pub(crate) numbers: Vec<u64>,
}

impl ReadAreas {
    ghost use Rattle.lc_recover.specs.KeptAreas.{read_count};

    /// No area is read. It takes no memory.
    pub(crate) fn new(alloc: Global) -> ReadAreas
        ensures logs { result.kept.logs.items ≡ [] }
        ensures segments { result.kept.segments.items ≡ [] }
        ensures locks { result.locks.items ≡ [] }
        ensures numbers { result.numbers.items ≡ [] }
    {
        ReadAreas {
            kept: StoreContents {
                logs: Vec::new(alloc),
                segments: Vec::new(alloc),
            },
            locks: Vec::new(alloc),
            numbers: Vec::new(alloc),
        }
    }

    /// How many areas are read.
    pub(crate) fn count(&self) -> usize
        requires { read_count self.now ≤ 24 }
        ensures { result ≡ read_count self.now }
    {
        self.kept.logs.len() + self.kept.segments.len()
    }
}
