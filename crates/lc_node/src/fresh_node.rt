//! A node of a recovered store as it comes up, before its parts stand behind their locks.
ghost use Rattle.std.specs.Prelude.{◌≡◌, ◌≤◌, [], vec_capacity, vec_len};
ghost use Rattle.lc_lock.specs.Loans.{key_of};
ghost use Rattle.lc_stage.specs.Seats.{IsFlusherOf, IsSeatOf};
ghost use Rattle.lc_node.specs.FreshSegment.{StandInOrder};

use crate::fresh_segment::{FreshSegment, discard_segments};
use crate::room_turn::RoomTurn;
use crate::vacant::Vacant;
use lc_disk::Area;
use lc_lock::TicketLock;
use lc_log_side::LogSide;
use lc_record::Geometry;
use lc_segments::BoxedSide;
use lc_stage::{CommitSeat, Stage};

/// The parts of a node of a recovered store, on their areas, before they stand behind their locks: all that it comes up
/// with. All memory is there already. It is never dropped: it ends in `come_up` or in `discard`.
pub struct FreshNode<D: Area + Drop> {
    pub(crate) geometry: Geometry,
    pub(crate) number: u16,
    pub(crate) stage: Stage,
    pub(crate) seat: CommitSeat,
    pub(crate) log: LogSide<D>,
    pub(crate) log_lock: Vacant<LogSide<D>, Stage>,
    pub(crate) room_turns: TicketLock<RoomTurn, ()>,
    pub(crate) segments: Vec<FreshSegment<D>>,
    pub(crate) locks: Vec<TicketLock<BoxedSide<D>, u32>>,
    ghost numbered: { number ≤ 7 },
    ghost own_seat: { IsSeatOf stage seat },
    ghost own_log: { IsFlusherOf stage log.flusher × IsSeatOf stage log.probe },
    ghost of_log: { key_of log_lock.lock ≡ stage },
    ghost in_order: { StandInOrder segments.items },
    ghost few: { vec_len segments ≤ 16 },
    ghost one_room: { stage.room ≡ geometry.words },
    ghost all_segments: { vec_len segments ≡ geometry.segments },
    ghost empty: { locks.items ≡ [] },
    ghost space: { vec_len segments ≤ vec_capacity locks },
}

impl<D: Area + Drop> FreshNode<D> {
    /// The node does not come up. Its areas are dropped.
    pub fn discard(self) {
        let FreshNode {
            geometry: _geometry,
            number: _number,
            stage: _stage,
            seat: _seat,
            log: _log,
            log_lock,
            room_turns: _room_turns,
            segments,
            locks: _locks,
        } = self;
        log_lock.discard();
        discard_segments(segments);
    }
}
