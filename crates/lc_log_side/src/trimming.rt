//! A log drops the records of the rounds that have ended which nobody wants any more.
ghost use Rattle.std.specs.Prelude.{◌≡◌};
ghost use Rattle.lc_stage.specs.Seats.{IsFlusherOf};
ghost use Rattle.lc_log_side.specs.Published.{published};
ghost use Rattle.lc_log_side.specs.Trimming.{ForgetsEnded, TrimsLog};

use crate::log_side::LogSide;
use lc_disk::Area;
use lc_stage::Stage;

impl<D: Area + Drop> LogSide<D> {
    /// Drops records from the front of those of the rounds that have ended, as long as the next is due. That is so
    /// where all nodes have applied each of its locks, and on each of its segments it has the number after those that
    /// were dropped, of whatever node. The dropped ones are counted then. The segments stand from segment 1 on. The
    /// records stay published: their numbers are counted on. Answers how many went. It takes no memory, and over many
    /// calls the time of what is dropped. The stage is that of the log: only the log's node drops what peers may want.
    pub fn trim(&mut self, stage: &Stage, applied: &[u64], dropped: &mut [u64]) -> u64
        requires own { IsFlusherOf stage.now self.old.flusher }
        ensures trimmed { TrimsLog applied.now dropped.old self.old result self.new dropped.new }
        ensures published { published self.new ≡ published self.old }
    {
        self.ended.trim(applied, dropped)
    }

    /// Drops the words of all rounds that have ended. Their room is used again. The records stay published. It takes no
    /// memory. The stage is that of the log.
    pub fn forget_ended(&mut self, stage: &Stage)
        requires own { IsFlusherOf stage.now self.old.flusher }
        ensures forgets { ForgetsEnded self.old self.new }
        ensures published { published self.new ≡ published self.old }
    {
        let count = self.ended.as_slice().len();
        self.ended.forget(count);
    }
}
