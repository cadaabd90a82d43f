//! The receipt of a seat's last record, at once or after a flush.
ghost use Rattle.std.specs.Prelude.{◌≡◌, Err, IfOk, IfErr, IfSome, IfNone, MatchOption};
ghost use Rattle.lc_stage.specs.Receipts.{IsReceiptOf};
ghost use Rattle.lc_stage.specs.Staging.{latest, learns_durable, with_receipt, HasReached};
ghost use Rattle.lc_stage.specs.Seats.{commit_view, flush_view, IsSeatOf, IsFlusherOf, IsIdle};
ghost use Rattle.lc_log_side.specs.Halting.{HasFaults};
ghost use Rattle.lc_log_side.specs.LogView.{IsSameLog};
ghost use Rattle.lc_log_side.specs.Receipts.{IsOfDevice, Learns, Receives};
ghost use Rattle.lc_log_side.specs.Settling.{Settles};
ghost use Rattle.lc_segments.specs.declared.node_fault.NodeFault.TheVariants.{DeviceFault};

use crate::log_side::LogSide;
use lc_disk::Area;
use lc_segments::NodeFault;
use lc_stage::{CommitSeat, Receipt, Stage};

impl<D: Area + Drop> LogSide<D> {
    /// A receipt of the seat's last closed record, by round and place, exactly where the end that was published last
    /// has reached its end. It takes no memory. The stage is that of the log and of the seat.
    pub fn durable(&mut self, stage: &Stage, seat: CommitSeat) -> (CommitSeat, Option<Receipt>)
        requires own { IsSeatOf stage.now seat × IsFlusherOf stage.now self.old.flusher }
        requires idle { IsIdle (commit_view seat) }
        ensures same { IsSeatOf stage.now result.0 }
        ensures idle { IsIdle (commit_view result.0) }
        ensures log { IsFlusherOf stage.now self.new.flusher × IsSameLog self.old self.new }
        ensures some { IfSome result.1 (λ receipt. HasReached (flush_view self.old.flusher).published (commit_view seat)
            × IsReceiptOf (latest (commit_view seat).mine) receipt
            × (commit_view result.0
            ≡ with_receipt (learns_durable (flush_view self.old.flusher).published (commit_view seat)))) }
        ensures none { IfNone result.1 (¬ HasReached (flush_view self.old.flusher).published (commit_view seat)
            × (commit_view result.0 ≡ learns_durable (flush_view self.old.flusher).published (commit_view seat))) }
    {
        stage.durable_beside(&mut self.flusher, seat)
    }

    /// The same, and where the record is not stable yet, once more after a flush.
    pub fn settle(
        &mut self,
        stage: &Stage,
        seat: CommitSeat,
    ) -> (CommitSeat, Result<Option<Receipt>, NodeFault>)
        requires own { IsSeatOf stage.now seat × IsFlusherOf stage.now self.old.flusher }
        requires idle { IsIdle (commit_view seat) }
        ensures same { IsSeatOf stage.now result.0 }
        ensures idle { IsIdle (commit_view result.0) }
        ensures log { IsFlusherOf stage.now self.new.flusher × (self.new.probe ≡ self.old.probe) }
        ensures settles { Settles D.Area stage.now.room self.old (commit_view seat) result.1
            (commit_view result.0) self.new }
        ensures settled { IfOk result.1 (λ found.
            MatchOption found (Learns (commit_view seat) (commit_view result.0)) (λ receipt.
            Receives (commit_view seat) receipt (commit_view result.0))) }
        ensures refused { IfErr result.1 (λ fault. IsOfDevice fault
            × Learns (commit_view seat) (commit_view result.0)) }
        ensures cause { result.1 ≡ Err DeviceFault → HasFaults D.Area }
    {
        let (seat, found) = self.durable(stage, seat);
        if found.is_some() {
            return (seat, Ok(found));
        }
        match self.flush(stage) {
            Ok(_) => {
                let (seat, found) = self.durable(stage, seat);
                (seat, Ok(found))
            }
            Err(fault) => (seat, Err(fault)),
        }
    }
}
