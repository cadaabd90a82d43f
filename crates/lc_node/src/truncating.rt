//! The truncation of a node's log.
ghost use Rattle.std.specs.Prelude.{◌≡◌, ◌⊎◌, [], All, Err, IfErr, IfOk, OnOk};
ghost use Rattle.std.specs.VecDeque.{deque_capacity};
ghost use Rattle.lc_stage.specs.Seats.{IsFlusherOf, IsSeatOf};
ghost use Rattle.lc_segments.specs.Each.{Each};
ghost use Rattle.lc_node.specs.Held.{IsHeldOf, segments_of};
ghost use Rattle.lc_log_side.specs.Halting.{HasFaults, IsUntruncatable};
ghost use Rattle.lc_log_side.specs.LogView.{LogView};
ghost use Rattle.lc_node.specs.Logs.{IsLogOf};
ghost use Rattle.lc_node.specs.Truncates.{HasNotTruncated, HasTruncated, IsOfTruncation};
ghost use Rattle.lc_log_side.specs.Truncates.{HasPagesIn, IsSameHeld};
ghost use Rattle.lc_node.specs.Truncates.{IsUntruncatedHeld, MayTruncate};
ghost use Rattle.lc_log_side.specs.Truncates.{IsUntruncatedInRoom};
ghost use Rattle.lc_node.specs.Truncates.{TruncatesAlone, TruncatesHeld};
ghost use Rattle.lc_segments.specs.declared.node_fault.NodeFault.TheVariants.{DeviceFault, NoMemory};

use crate::cleaning::most_pages;
use crate::held::Held;
use crate::node::Node;
use lc_disk::Area;
use lc_log_side::LogSide;
use lc_page::Writing;
use lc_record::MAX_SEGMENT;
use lc_segments::{HeldSide, NodeFault};
use std::alloc::Global;
use std::collections::VecDeque;
use std::sync::Wait;

// The segments that a node may have.
const SEGMENTS: [u32; MAX_SEGMENT as usize] = [
    1, 2, 3, 4, 5, 6, 7, 8, 9, 10, 11, 12, 13, 14, 15, 16,
];

impl<D: Area + Drop> Node<D> {
    /// Empties the log: it waits for the locks of all segments, ascending, and then for the log's, flushes, writes the
    /// dirty pages of the segments whose tokens are here, and resets the log. Answers the round that the log is in
    /// then: where it has no record after the flush, the present one. What was applied is folded into the segments'
    /// bytes. The records stay published; a node that was opened alone forgets their words. All memory, for their words
    /// too, is taken before anything is changed.
    ///
    /// # Errors
    ///
    /// `Halted` where a device failed before, and else `RoundsSpent` where the log is in its last round: then nothing
    /// was flushed. `NoMemory`. `DeviceFault` where a device fails now, and the node is halted. `Unclean` of the least
    /// segment and number of a record that is not known to be on its pages, as where the segment's token is elsewhere.
    /// `Lost` where another tail was found. After the last two the log stands as flushed, and the pages that were
    /// written stay.
    pub fn truncate<R: Wait>(&self, rt: &R, alloc: Global) -> Result<u64, NodeFault>
        ensures truncated { IfOk result (HasTruncated D.Area self.now) }
        ensures refused { IfErr result (HasNotTruncated D.Area self.now) }
        ensures which { IfErr result IsOfTruncation }
    {
        self.may_truncate(rt)?;
        let mut held = self.hold(rt, alloc, &SEGMENTS[..self.segments.len()])?;
        let truncated = self.truncate_held(rt, alloc, &mut held);
        self.release(held);
        truncated
    }

    // Whether the log may be truncated, at one moment.
    fn may_truncate<R: Wait>(&self, rt: &R) -> Result<(), NodeFault>
        ensures may { OnOk result (MayTruncate self.now) }
        ensures refused { IfErr result (λ fault. (log : LogView D) × IsLogOf self.now log × IsUntruncatable log fault) }
    {
        let (log, loan) = self.log.lock(rt);
        let may = log.may_truncate();
        self.log.unlock(log, loan);
        may
    }

    // Truncates where the segments are held.
    pub(crate) fn truncate_held<R: Wait>(
        &self,
        rt: &R,
        alloc: Global,
        held: &mut Held<D>,
    ) -> Result<u64, NodeFault>
        requires held { All (IsHeldOf self.now) held.old.sides.items }
        ensures held { All (IsHeldOf self.now) held.new.sides.items }
        ensures segments { segments_of held.new ≡ segments_of held.old }
        ensures truncated { IfOk result (λ round.
            TruncatesHeld D.Area self.now held.old.sides.items round held.new.sides.items) }
        ensures refused { IfErr result (λ fault.
            IsUntruncatedHeld D.Area self.now held.old.sides.items fault held.new.sides.items) }
    {
        let (mut log, loan) = self.log.lock(rt);
        let truncated = self.truncate_in(alloc, &mut log, held);
        self.log.unlock(log, loan);
        truncated
    }

    // Does what `truncate` does, for who has the lock of the log and holds these segments. Where they are not all, a
    // record of another is `Unclean`. Where there is no memory for the writes of pages, nothing has changed.
    fn truncate_in(
        &self,
        alloc: Global,
        log: &mut LogSide<D>,
        held: &mut Held<D>,
    ) -> Result<u64, NodeFault>
        requires own { IsLogOf self.now log.old }
        requires held { All (IsHeldOf self.now) held.old.sides.items }
        ensures own { IsLogOf self.now log.new }
        ensures held { All (IsHeldOf self.now) held.new.sides.items }
        ensures segments { segments_of held.new ≡ segments_of held.old }
        ensures truncated { IfOk result (λ round. TruncatesAlone D.Area self.now.is_alone self.now.stage.room log.old
            held.old.sides.items round log.new held.new.sides.items) }
        ensures refused { IfErr result (λ fault.
            ((fault ≡ NoMemory) × (log.new ≡ log.old) × (held.new.sides.items ≡ held.old.sides.items))
            ⊎ IsUntruncatedInRoom D.Area self.now.stage.room log.old held.old.sides.items fault log.new
            held.new.sides.items) }
    {
        let most = most_pages(held.sides.as_slice());
        let Ok(mut writes) = VecDeque::with_capacity(alloc, most) else {
            return Err(NodeFault::NoMemory);
        };
        let truncated = self.truncate_log(log, &mut held.sides, &mut writes);
        self.tell_fault(&truncated);
        truncated
    }

    // Truncates the log with these sides. Where the node is alone nobody wants the records of the rounds that have
    // ended.
    fn truncate_log(
        &self,
        log: &mut LogSide<D>,
        sides: &mut Vec<HeldSide<D>>,
        writes: &mut VecDeque<Writing>,
    ) -> Result<u64, NodeFault>
        requires own { IsFlusherOf self.now.stage log.old.flusher × IsSeatOf self.now.stage log.old.probe }
        requires none { writes.old.items ≡ [] }
        requires room { All (HasPagesIn (deque_capacity writes.old)) sides.old.items }
        ensures own { IsFlusherOf self.now.stage log.new.flusher × IsSeatOf self.now.stage log.new.probe }
        ensures same { Each IsSameHeld sides.old.items sides.new.items }
        ensures truncated { IfOk result (λ round.
            TruncatesAlone D.Area self.now.is_alone self.now.stage.room log.old sides.old.items round log.new
            sides.new.items) }
        ensures refused { IfErr result (λ fault.
            IsUntruncatedInRoom D.Area self.now.stage.room log.old sides.old.items fault log.new sides.new.items) }
        ensures cause { result ≡ Err DeviceFault → HasFaults D.Area }
    {
        let round = log.truncate(&self.stage, sides, writes)?;
        if self.is_alone {
            log.forget_ended(&self.stage);
        }
        Ok(round)
    }
}
