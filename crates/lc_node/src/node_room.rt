//! The memory of a node of a recovered store, taken before its areas are.
ghost use Rattle.std.specs.Prelude.{◌≡◌, ◌≤◌, [], length, vec_capacity, vec_len, IfOk};
ghost use Rattle.lc_node.specs.FreshNode.{IsFreshLog};
ghost use Rattle.lc_node.specs.Rooms.{AreFilled, AreOfSegments, FitsLog, FitRooms, IsRoomFor};
ghost use Rattle.lc_node.specs.Shares.{AreShared};
ghost use Rattle.lc_stage.specs.Seats.{IsSeatOf};

use crate::fresh_node::FreshNode;
use crate::fresh_segment::{FreshSegment, discard_segments};
use crate::log_room::LogRoom;
use crate::seg_room::{SegRoom, discard_all, fill_all, rooms_of};
use crate::share::Share;
use lc_disk::Area;
use lc_lock::TicketLock;
use lc_record::Geometry;
use lc_recover::Recovered;
use lc_segments::BoxedSide;
use std::alloc::{AllocError, Global};

/// All memory of a node. It is never dropped: it ends in `fill` or in `discard`.
pub(crate) struct NodeRoom<D: Area + Drop> {
    pub(crate) log: LogRoom<D>,
    pub(crate) segments: Vec<SegRoom<D>>,
    pub(crate) fresh: Vec<FreshSegment<D>>,
    pub(crate) locks: Vec<TicketLock<BoxedSide<D>, u32>>,
}

impl<D: Area + Drop> NodeRoom<D> {
    /// That of a node of a store.
    pub(crate) fn new(alloc: Global, recovered: &Recovered<D>) -> Result<NodeRoom<D>, AllocError>
        ensures { IfOk result (IsRoomFor recovered.now) }
    {
        let geometry = recovered.geometry();
        let locks = Vec::with_capacity(alloc, geometry.segments as usize)?;
        let log = LogRoom::new(alloc, geometry.words)?;
        let Ok(fresh) = Vec::with_capacity(alloc, geometry.segments as usize) else {
            log.discard();
            return Err(AllocError);
        };
        match rooms_of(alloc, recovered) {
            Ok(segments) => Ok(NodeRoom {
                log,
                segments,
                fresh,
                locks,
            }),
            Err(fault) => {
                fresh.destroy_empty();
                log.discard();
                Err(fault)
            }
        }
    }

    /// The node as it comes up, of a store of this geometry, with its log on this area. The segments whose tokens are
    /// its share have the areas at their places, which are taken. It takes no memory.
    pub(crate) fn fill(
        self,
        geometry: Geometry,
        share: Share,
        log: D,
        pages: &mut [Option<D>],
    ) -> FreshNode<D>
        requires log { FitsLog D.Area self.log.stage.room log }
        requires count { vec_len self.segments ≡ length pages.old }
        requires few { vec_len self.segments ≤ 16 }
        requires all_segments { vec_len self.segments ≡ geometry.segments }
        requires words { self.log.stage.room ≡ geometry.words }
        requires rooms { AreOfSegments self.segments.items }
        requires fits { FitRooms D.Area self.segments.items pages.old }
        requires none_filled { self.fresh.items ≡ [] }
        requires room { vec_len self.segments ≤ vec_capacity self.fresh }
        requires empty { self.locks.items ≡ [] }
        requires space { vec_len self.segments ≤ vec_capacity self.locks }
        ensures seat { IsSeatOf result.stage result.seat × (result.seat ≡ self.log.seat) }
        ensures stage { result.stage ≡ self.log.stage }
        ensures geometry { result.geometry ≡ geometry }
        ensures number { result.number ≡ share.number }
        ensures log { IsFreshLog result.stage log result.log }
        ensures segments { vec_len result.segments ≡ vec_len self.segments }
        ensures filled { AreFilled share.number share.nodes self.segments.items pages.old result.segments.items }
        ensures places { length pages.new ≡ length pages.old }
        ensures shared { AreShared share.number share.nodes pages.old pages.new }
    {
        let NodeRoom {
            log: log_room,
            segments,
            fresh,
            locks,
        } = self;
        let segments = fill_all(share, segments, pages, fresh);
        log_room.fill(geometry, share.number as u16, log, segments, locks)
    }

    /// The node does not come up.
    pub(crate) fn discard(self) {
        let NodeRoom {
            log,
            segments,
            fresh,
            locks: _locks,
        } = self;
        log.discard();
        discard_all(segments);
        discard_segments(fresh);
    }
}
