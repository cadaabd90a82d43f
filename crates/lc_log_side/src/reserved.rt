//! Whether all that is reserved in a log is stable.
ghost use Rattle.std.specs.Prelude.{◌≡◌, ◌+◌, ◌*◌, ◌↔◌, length, IsTrue};
ghost use Rattle.lc_stage.specs.Seats.{commit_view, IsFlusherOf, IsSeatOf};
ghost use Rattle.lc_stage.specs.Staging.{saw};

use crate::log_side::LogSide;
use crate::log_state::LogState;
use lc_disk::Area;
use lc_stage::Stage;

// A tail is so many times its round, and its offset.
const ROUND_TAIL: u64 = 65536;

impl<D: Area + Drop> LogSide<D> {
    /// Whether a call of the log's device failed.
    pub fn is_halted(&self) -> bool
        ensures { result ≡ self.now.is_halted }
    {
        !matches!(self.log, LogState::Idle(_))
    }

    /// The tail that the log has where nothing is reserved after its stable records.
    pub(crate) fn stable_tail(&self) -> u64
        ensures { result ≡ self.now.round * 65536 + length self.now.stable }
    {
        self.round * ROUND_TAIL + self.stable.len() as u64
    }

    /// Whether all that was reserved is stable: the tail, in one load, is the end of the stable records. It takes no
    /// memory. The stage is that of the log.
    pub fn is_flushed(&mut self, stage: &Stage) -> bool
        requires own { IsFlusherOf stage.now self.old.flusher × IsSeatOf stage.now self.old.probe }
        ensures own { IsFlusherOf stage.now self.new.flusher × IsSeatOf stage.now self.new.probe }
        ensures flushed { IsTrue result
            ↔ ((commit_view self.new.probe).seen ≡ self.old.round * 65536 + length self.old.stable) }
        ensures loads { commit_view self.new.probe
            ≡ saw (commit_view self.new.probe).seen (commit_view self.old.probe) }
        ensures same { self.new ≡ record self.old { probe = self.new.probe } }
    {
        let tail = stage.tail(&mut self.probe);
        tail == self.stable_tail()
    }
}
