//! The log of a node that comes up.
ghost use Rattle.std.specs.Prelude.{◌≡◌, ◌≢◌, ◌+◌, ◌*◌, ◌%◌, ◌≤◌, true, false, [], ◌∷◌, length, slice_index};
ghost use Rattle.std.specs.Prelude.{vec_capacity};
ghost use Rattle.lc_stage.specs.Seats.{commit_view, flush_view};
ghost use Rattle.lc_stage.specs.Staging.{newcomer, flusher as first_flusher};
ghost use Rattle.lc_token.specs.KnownClean.{KnowsNothing};

use crate::Ended;
use crate::log_side::LogSide;
use crate::log_state::LogState;
use lc_disk::Area;
use lc_log::NodeLog;
use lc_record::Group;
use lc_stage::{CommitSeat, FlushSeat};
use lc_token::KnownClean;

impl<D: Area + Drop> LogSide<D> {
    /// The log of a stage of which flusher and probe have seen nothing yet, on an area that begins with no open gate:
    /// it has no record, and nothing is known clean. Group and stable words have room for those of the stage. It takes
    /// no memory.
    pub fn new(
        flusher: FlushSeat,
        probe: CommitSeat,
        area: D,
        group: Group,
        stable: Vec<u64>,
        ended: Ended,
    ) -> LogSide<D>
        requires one_table { probe.seat.table_id ≡ flusher.seat.table_id }
        requires new_probe { commit_view probe ≡ newcomer (flush_view flusher).room }
        requires new_flusher { flush_view flusher ≡ first_flusher (flush_view flusher).room }
        requires empty_group { group ≡ record { words = []; room = (flush_view flusher).room } }
        requires empty { stable.items ≡ [] }
        requires none_ended { ended ≡ record { gone = 0; words = []; room = 0 } }
        requires place { (flush_view flusher).room ≤ vec_capacity stable }
        requires room { 8 * (flush_view flusher).room + 8 ≤ length (D.now area) }
        requires closed { D.honest area ≡ true → slice_index (D.now area) 0 % 256 ≢ 165 }
        requires clean { D.honest area ≡ true → D.dirty area 0 ≡ false }
        ensures seats { (result.flusher ≡ flusher) × (result.probe ≡ probe) }
        ensures area { result.area ≡ area ∷ [] }
        ensures serves { result.is_halted ≡ false }
        ensures empty { (result.stable ≡ []) × (result.ended ≡ []) × (result.gone ≡ 0) × (result.ended_room ≡ 0) }
        ensures round { result.round ≡ 0 }
        ensures known { KnowsNothing result.known }
    {
        LogSide {
            flusher,
            probe,
            log: LogState::Idle(NodeLog::new(area)),
            group,
            stable,
            ended,
            count: 0,
            round: 0,
            known: KnownClean::new(),
        }
    }
}
