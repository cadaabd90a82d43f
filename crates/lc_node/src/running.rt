//! The calls of a running node.
ghost use Rattle.std.specs.Prelude.{◌≡◌, ◌≢◌, ◌↔◌, ◌+◌, ◌*◌, ◌<◌, ℕ, IfErr, IfOk, IsTrue, length};
ghost use Rattle.lc_stage.specs.declared.stage_view.Reservation.{Reservation as Run};
ghost use Rattle.lc_stage.specs.Staging.{newcomer, joining, saw, Owns};
ghost use Rattle.lc_stage.specs.Receipts.{IsReceiptOf};
ghost use Rattle.lc_stage.specs.Seats.{commit_view, IsSeatOf, IsFlusherOf, IsIdle};
ghost use Rattle.lc_lock.specs.Loans.{key_of};
ghost use Rattle.lc_log_side.specs.Among.{IsAmong};
ghost use Rattle.lc_node.specs.Flushes.{HasFlushed, HasNotFlushed};
ghost use Rattle.lc_log_side.specs.LogView.{IsSameLog};
ghost use Rattle.lc_log_side.specs.Receipts.{HasReceipt};
ghost use Rattle.lc_log_side.specs.declared.confirming.Confirmed.TheVariants.{Here, Earlier};

use crate::node::Node;
use lc_disk::Area;
use lc_lock::TicketLock;
use lc_log_side::{Confirmed, LogSide};
use lc_segments::NodeFault;
use lc_stage::{CommitSeat, Receipt, Stage};
use std::sync::Wait;

impl<D: Area + Drop> Node<D> {
    /// The lock of the node's log.
    pub fn log_lock(&self) -> &TicketLock<LogSide<D>, Stage>
        ensures { (key_of result.now).table.shared.table_id ≡ self.now.stage.table.shared.table_id }
    {
        &self.log
    }

    /// Whether all that was reserved at the node is stable: the tail, in one load, is the end of the stable records. It
    /// takes no memory. The log is that of the node.
    pub(crate) fn is_flushed(&self, log: &mut LogSide<D>) -> bool
        requires own { IsFlusherOf self.now.stage log.old.flusher × IsSeatOf self.now.stage log.old.probe }
        ensures own { IsFlusherOf self.now.stage log.new.flusher × IsSeatOf self.now.stage log.new.probe }
        ensures flushed { IsTrue result
            ↔ ((commit_view log.new.probe).seen ≡ log.old.round * 65536 + length log.old.stable) }
        ensures loads { commit_view log.new.probe
            ≡ saw (commit_view log.new.probe).seen (commit_view log.old.probe) }
        ensures same { log.new ≡ record log.old { probe = log.new.probe } }
    {
        log.is_flushed(&self.stage)
    }

    /// Makes the closed records stable, and answers how many became so. It waits for the lock of the log, and takes no
    /// memory.
    ///
    /// # Errors
    ///
    /// `Halted` where a device failed before, and `DeviceFault` where it fails now.
    pub fn flush<R: Wait>(&self, rt: &R) -> Result<u64, NodeFault>
        ensures flushed { IfOk result (λ count. HasFlushed self.now count) }
        ensures refused { IfErr result (HasNotFlushed D.Area self.now) }
    {
        let (mut log, loan) = self.log.lock(rt);
        let flushed = self.flush_log(&mut log);
        self.log.unlock(log, loan);
        flushed
    }

    /// A further seat, with nothing reserved. The seat that is split has no open reservation.
    pub fn split(&self, seat: &mut CommitSeat) -> CommitSeat
        requires own { IsSeatOf self.now.stage seat.old }
        requires idle { IsIdle (commit_view seat.old) }
        ensures same { IsSeatOf self.now.stage seat.new × (commit_view seat.new ≡ commit_view seat.old) }
        ensures new { IsSeatOf self.now.stage result × (commit_view result ≡ newcomer self.now.stage.room) }
    {
        self.stage.split(seat)
    }

    /// The seat takes over the reservations and receipts of another. Neither has an open reservation.
    pub fn join(&self, seat: &mut CommitSeat, other: CommitSeat)
        requires own { IsSeatOf self.now.stage seat.old × IsSeatOf self.now.stage other }
        requires idle { IsIdle (commit_view seat.old) × IsIdle (commit_view other) }
        ensures same { IsSeatOf self.now.stage seat.new }
        ensures both { commit_view seat.new ≡ joining (commit_view seat.old) (commit_view other) }
        ensures idle { IsIdle (commit_view seat.new) }
    {
        self.stage.join(seat, other);
    }

    /// Where the record of a receipt is, which this seat got from `durable`. The log is the node's, got by its lock. It
    /// takes no memory.
    pub fn confirm(
        &self,
        seat: CommitSeat,
        log: &mut LogSide<D>,
        receipt: Receipt,
    ) -> (CommitSeat, Confirmed)
        requires own { IsSeatOf self.now.stage seat × IsFlusherOf self.now.stage log.old.flusher }
        requires idle { IsIdle (commit_view seat) }
        requires received { HasReceipt (commit_view seat) receipt }
        ensures same { IsSeatOf self.now.stage result.0 × (commit_view result.0 ≡ commit_view seat) }
        ensures log { IsFlusherOf self.now.stage log.new.flusher × IsSameLog log.old log.new }
        ensures here { receipt.round ≡ log.old.round → (index : ℕ) × (result.1 ≡ Here index)
            × ((r : Run) → Owns (commit_view seat).receipts r → IsReceiptOf r receipt
            → IsAmong log.old.stable index r.place r.words) }
        ensures earlier { receipt.round ≢ log.old.round
            → (result.1 ≡ Earlier log.old.round) × (receipt.round < log.old.round) }
    {
        log.confirm(&self.stage, seat, receipt)
    }
}
