//! What a node has of a segment, copied.
ghost use Rattle.std.specs.Prelude.{◌≡◌, IfOk, IsSome};
ghost use Rattle.lc_applied.specs.AppliedParts.{laid_parts};

use crate::seg_side::SegSide;
use lc_disk::Area;
use std::alloc::{AllocError, Global};

/// What a node had of a segment at one moment.
#[derive(Drop)]
pub struct Snapshot {
    /// The number of the segment's last record that the bytes have.
    pub number: u64,
    /// The segment's bytes.
    pub bytes: Vec<u8>,
}

impl<D: Area + Drop> SegSide<D> {
    /// A copy of what is here of the segment.
    pub fn snapshot(&self, alloc: Global) -> Result<Snapshot, AllocError>
        requires here { IsSome self.now.image }
        ensures number { IfOk result (λ copy. copy.number ≡ self.now.backlog.applied) }
        ensures bytes { IfOk result (λ copy. copy.bytes.items ≡ laid_parts self.now.applied self.now.base) }
    {
        let Some(image) = &self.image else {
            unreachable!()
        };
        let bytes = Vec::from_slice(alloc, image.bytes())?;
        let number = self.hold_back.applied();
        Ok(Snapshot { number, bytes })
    }
}
