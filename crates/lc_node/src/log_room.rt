//! The memory of a node's log, taken before its area is.
ghost use Rattle.std.specs.Prelude.{◌≡◌, ◌≢◌, ◌+◌, ◌*◌, ◌%◌, ◌<◌, ◌≤◌, true, false, [], length, slice_index};
ghost use Rattle.std.specs.Prelude.{vec_capacity, vec_len, IfOk};
ghost use Rattle.lc_lock.specs.Loans.{key_of};
ghost use Rattle.lc_stage.specs.Staging.{newcomer, flusher as first_flusher};
ghost use Rattle.lc_stage.specs.Seats.{commit_view, flush_view, IsFlusherOf, IsSeatOf};
ghost use Rattle.lc_node.specs.FreshNode.{IsFreshLog};
ghost use Rattle.lc_node.specs.FreshSegment.{StandInOrder};

use crate::fresh_node::FreshNode;
use crate::fresh_segment::FreshSegment;
use crate::room_turn::RoomTurn;
use crate::vacant::Vacant;
use lc_disk::Area;
use lc_lock::TicketLock;
use lc_log_side::{Ended, LogSide};
use lc_record::{Geometry, Group};
use lc_segments::BoxedSide;
use lc_stage::{CommitSeat, FlushSeat, Stage};
use std::alloc::{AllocError, Global};

/// A node's stage with the first committer's seat, and its log before the area is there. It is never dropped: it ends
/// in `fill` or in `discard`.
pub(crate) struct LogRoom<D: Area + Drop> {
    pub(crate) stage: Stage,
    pub(crate) seat: CommitSeat,
    flusher: FlushSeat,
    probe: CommitSeat,
    group: Group,
    stable: Vec<u64>,
    ended: Ended,
    room_turns: TicketLock<RoomTurn, ()>,
    pub(crate) lock: Vacant<LogSide<D>, Stage>,
    ghost own_seat: { IsSeatOf stage seat },
    ghost own_probe: { IsSeatOf stage probe },
    ghost own_flusher: { IsFlusherOf stage flusher },
    ghost new_probe: { commit_view probe ≡ newcomer stage.room },
    ghost new_flusher: { flush_view flusher ≡ first_flusher stage.room },
    ghost empty_group: { group ≡ record { words = []; room = stage.room } },
    ghost empty: { stable.items ≡ [] },
    ghost none_ended: { ended ≡ record { gone = 0; words = []; room = 0 } },
    ghost place: { stage.room ≤ vec_capacity stable },
    ghost key: { key_of lock.lock ≡ stage },
}

impl<D: Area + Drop> LogRoom<D> {
    /// That of a log of so many words.
    pub(crate) fn new(alloc: Global, words: u32) -> Result<LogRoom<D>, AllocError>
        requires { (0 < words) × (words < 32768) }
        ensures room { IfOk result (λ log. log.stage.room ≡ words) }
        ensures seat { IfOk result (λ log. commit_view log.seat ≡ newcomer words) }
    {
        let (stage, flusher, mut seat) = Stage::new(alloc, words)?;
        let probe = stage.split(&mut seat);
        let group = Group::new(alloc, words)?;
        let stable = Vec::with_capacity(alloc, words as usize)?;
        let ended = Ended::new(alloc);
        let Ok(room_turns) = TicketLock::new(alloc, RoomTurn, &()) else {
            return Err(AllocError);
        };
        let lock = Vacant::new(alloc, &stage)?;
        Ok(LogRoom {
            stage,
            seat,
            flusher,
            probe,
            group,
            stable,
            ended,
            room_turns,
            lock,
        })
    }

    /// The node of this number as it comes up, of a store of this geometry with these segments, which are all, and with
    /// the locks' list. Its log is on this area, which begins with no open gate. It takes no memory.
    pub(crate) fn fill(
        self,
        geometry: Geometry,
        number: u16,
        area: D,
        segments: Vec<FreshSegment<D>>,
        locks: Vec<TicketLock<BoxedSide<D>, u32>>,
    ) -> FreshNode<D>
        requires number { number ≤ 7 }
        requires room { 8 * self.stage.room + 8 ≤ length (D.now area) }
        requires closed { D.honest area ≡ true → slice_index (D.now area) 0 % 256 ≢ 165 }
        requires clean { D.honest area ≡ true → D.dirty area 0 ≡ false }
        requires in_order { StandInOrder segments.items }
        requires few { vec_len segments ≤ 16 }
        requires all_segments { vec_len segments ≡ geometry.segments }
        requires words { self.stage.room ≡ geometry.words }
        requires empty { locks.items ≡ [] }
        requires space { vec_len segments ≤ vec_capacity locks }
        ensures seat { IsSeatOf result.stage result.seat × (result.seat ≡ self.seat) }
        ensures stage { result.stage ≡ self.stage }
        ensures geometry { result.geometry ≡ geometry }
        ensures number { result.number ≡ number }
        ensures log { IsFreshLog result.stage area result.log }
        ensures segments { result.segments ≡ segments }
    {
        let LogRoom {
            stage,
            seat,
            flusher,
            probe,
            group,
            stable,
            ended,
            room_turns,
            lock: log_lock,
        } = self;
        let log = LogSide::new(flusher, probe, area, group, stable, ended);
        FreshNode {
            geometry,
            number,
            stage,
            seat,
            log,
            log_lock,
            room_turns,
            segments,
            locks,
        }
    }

    /// The log does not come up.
    pub(crate) fn discard(self) {
        let LogRoom {
            stage: _stage,
            seat: _seat,
            flusher: _flusher,
            probe: _probe,
            group: _group,
            stable: _stable,
            ended: _ended,
            room_turns: _room_turns,
            lock,
        } = self;
        lock.discard();
    }
}
