//! The truncation of a node's log.
ghost use Rattle.std.specs.Prelude.{◌≡◌, [], All, Err, IfErr, IfOk};
ghost use Rattle.std.specs.VecDeque.{deque_capacity};
ghost use Rattle.lc_stage.specs.Seats.{IsFlusherOf, IsSeatOf};
ghost use Rattle.lc_segments.specs.Each.{Each};
ghost use Rattle.lc_log_side.specs.EndedRoom.{HasRoom};
ghost use Rattle.lc_log_side.specs.Halting.{HasFaults};
ghost use Rattle.lc_log_side.specs.Truncates.{HasPagesIn, IsSameHeld};
ghost use Rattle.lc_log_side.specs.Truncates.{IsUntruncated, IsUntruncatedInRoom};
ghost use Rattle.lc_log_side.specs.Truncates.{Truncates, TruncatesInRoom};
ghost use Rattle.lc_segments.specs.declared.node_fault.NodeFault.TheVariants.{DeviceFault};

use crate::cleaning::write_all;
use crate::log_side::LogSide;
use lc_disk::Area;
use lc_page::Writing;
use lc_segments::{HeldSide, NodeFault};
use lc_stage::Stage;
use std::collections::VecDeque;

impl<D: Area + Drop> LogSide<D> {
    /// Where the log may be truncated, makes room for the words of its round, flushes it, writes the dirty pages of
    /// these segments, and empties it.
    pub fn truncate(
        &mut self,
        stage: &Stage,
        sides: &mut Vec<HeldSide<D>>,
        writes: &mut VecDeque<Writing>,
    ) -> Result<u64, NodeFault>
        requires own { IsFlusherOf stage.now self.old.flusher × IsSeatOf stage.now self.old.probe }
        requires none { writes.old.items ≡ [] }
        requires room { All (HasPagesIn (deque_capacity writes.old)) sides.old.items }
        ensures own { IsFlusherOf stage.now self.new.flusher × IsSeatOf stage.now self.new.probe }
        ensures same { Each IsSameHeld sides.old.items sides.new.items }
        ensures truncated { IfOk result (λ round.
            TruncatesInRoom D.Area stage.now.room self.old sides.old.items round self.new sides.new.items) }
        ensures refused { IfErr result (λ fault.
            IsUntruncatedInRoom D.Area stage.now.room self.old sides.old.items fault self.new sides.new.items) }
        ensures cause { result ≡ Err DeviceFault → HasFaults D.Area }
    {
        self.may_truncate()?;
        let Ok(()) = self.make_room(stage) else {
            return Err(NodeFault::NoMemory);
        };
        self.empty(stage, sides, writes)
    }

    // The same where it may be, and there is that room. Where a page could not be written, the log serves no more.
    fn empty(
        &mut self,
        stage: &Stage,
        sides: &mut Vec<HeldSide<D>>,
        writes: &mut VecDeque<Writing>,
    ) -> Result<u64, NodeFault>
        requires own { IsFlusherOf stage.now self.old.flusher × IsSeatOf stage.now self.old.probe }
        requires none { writes.old.items ≡ [] }
        requires room { All (HasPagesIn (deque_capacity writes.old)) sides.old.items }
        requires ended { HasRoom self.old }
        ensures own { IsFlusherOf stage.now self.new.flusher × IsSeatOf stage.now self.new.probe }
        ensures same { Each IsSameHeld sides.old.items sides.new.items }
        ensures truncated { IfOk result (λ round.
            Truncates D.Area stage.now.room self.old sides.old.items round self.new sides.new.items) }
        ensures refused { IfErr result (λ fault.
            IsUntruncated D.Area stage.now.room self.old sides.old.items fault self.new sides.new.items) }
        ensures cause { result ≡ Err DeviceFault → HasFaults D.Area }
    {
        self.flush(stage)?;
        if let Err(fault) = write_all(sides, writes) {
            self.halt();
            return Err(fault);
        }
        self.see_all(sides.as_slice());
        self.reset(stage)
    }
}
