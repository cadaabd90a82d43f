//! The words of the rounds that have ended.
ghost use Rattle.std.specs.Prelude.{OnOk, OnErr};
ghost use Rattle.lc_stage.specs.Seats.{IsFlusherOf};
ghost use Rattle.lc_log_side.specs.EndedRoom.{LacksRoom, MakesRoom};

use crate::log_side::LogSide;
use lc_disk::Area;
use lc_stage::Stage;
use std::alloc::AllocError;

impl<D: Area + Drop> LogSide<D> {
    /// Makes room for the words of the log's round after those of the rounds before, so that a reset can move them
    /// there: for as many as the log has, since a flush may still add some. It asks for memory exactly where there is
    /// less room, and then for more the more there is already, so that over many rounds each word is moved a few times
    /// at most. The stage is that of the log.
    ///
    /// # Errors
    ///
    /// `AllocError` where memory is wanted. Nothing has changed.
    pub fn make_room(&mut self, stage: &Stage) -> Result<(), AllocError>
        requires own { IsFlusherOf stage.now self.old.flusher }
        ensures made { OnOk result (MakesRoom self.old self.new) }
        ensures refused { OnErr result (LacksRoom self.old self.new) }
    {
        let words = stage.words() as usize;
        self.ended.make_room(words)
    }
}
