//! A segment of a recovered store as it comes up at a node, before it stands behind its lock.
ghost use Rattle.std.specs.Prelude.{◌≡◌, IsSome};
ghost use Rattle.lc_lock.specs.Loans.{key_of};

use crate::vacant::Vacant;
use lc_disk::Area;
use lc_lock::TicketLock;
use lc_segments::BoxedSide;

/// A segment as it comes up, and the lock that waits for it. It is never dropped: it ends in `lock_all` or in
/// `discard_segments`.
pub(crate) struct FreshSegment<D: Area + Drop> {
    pub(crate) side: BoxedSide<D>,
    pub(crate) lock: Vacant<BoxedSide<D>, u32>,
    ghost fits: { (side.segment ≡ key_of lock.lock) × IsSome side.image },
}

impl<D: Area + Drop> FreshSegment<D> {
    /// The segment behind its lock. It takes no memory.
    pub(crate) fn come_up(self) -> TicketLock<BoxedSide<D>, u32>
        ensures { key_of result ≡ key_of self.lock.lock }
    {
        let FreshSegment { side, lock } = self;
        lock.fill(side)
    }

    // The segment does not come up.
    fn discard(self) {
        let FreshSegment { side: _side, lock } = self;
        lock.discard();
    }
}

/// No segment comes up.
pub(crate) fn discard_segments<D: Area + Drop>(segments: Vec<FreshSegment<D>>) {
    let mut segments = segments;
    while let Some(segment) = segments.pop() {
        segment.discard();
    }
    segments.destroy_empty();
}
