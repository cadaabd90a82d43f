//! Whether the record of a receipt is in the log.
ghost use Rattle.std.specs.Prelude.{◌≡◌, ◌≢◌, ◌<◌, ℕ};
ghost use Rattle.lc_stage.specs.declared.stage_view.Reservation.{Reservation as Run};
ghost use Rattle.lc_stage.specs.Staging.{Owns};
ghost use Rattle.lc_stage.specs.Receipts.{IsReceiptOf};
ghost use Rattle.lc_stage.specs.Seats.{commit_view, IsSeatOf, IsFlusherOf, IsIdle};
ghost use Rattle.lc_log_side.specs.Among.{IsAmong};
ghost use Rattle.lc_log_side.specs.LogView.{IsSameLog};
ghost use Rattle.lc_log_side.specs.Receipts.{HasReceipt};
ghost use Rattle.lc_log_side.specs.declared.confirming.Confirmed.TheVariants.{Here, Earlier};

use crate::log_side::LogSide;
use crate::places::count_in_front;
use lc_disk::Area;
use lc_stage::{CommitSeat, Receipt, Stage};

/// Where the record of a receipt is.
#[derive(Clone, Copy, Debug, PartialEq, Eq)]
pub enum Confirmed {
    /// It is the record at this index of the log's stable ones, from 0.
    Here(usize),
    /// It was reserved in an earlier round than that of the log, which is named: a reset has taken it away.
    Earlier { round: u64 },
}

impl<D: Area + Drop> LogSide<D> {
    /// Where the record of a receipt is, which this seat got from `durable`. It takes no memory. The stage is that of
    /// the log and of the seat.
    pub fn confirm(
        &mut self,
        stage: &Stage,
        seat: CommitSeat,
        receipt: Receipt,
    ) -> (CommitSeat, Confirmed)
        requires own { IsSeatOf stage.now seat × IsFlusherOf stage.now self.old.flusher }
        requires idle { IsIdle (commit_view seat) }
        requires received { HasReceipt (commit_view seat) receipt }
        ensures same { IsSeatOf stage.now result.0 × (commit_view result.0 ≡ commit_view seat) }
        ensures log { IsFlusherOf stage.now self.new.flusher × IsSameLog self.old self.new }
        ensures here { receipt.round ≡ self.old.round → (index : ℕ) × (result.1 ≡ Here index)
            × ((r : Run) → Owns (commit_view seat).receipts r → IsReceiptOf r receipt
            → IsAmong self.old.stable index r.place r.words) }
        ensures earlier { receipt.round ≢ self.old.round
            → (result.1 ≡ Earlier self.old.round) × (receipt.round < self.old.round) }
    {
        let seat = stage.meet(&mut self.flusher, seat);
        if receipt.round() != self.round {
            return (seat, Confirmed::Earlier { round: self.round });
        }
        let index = count_in_front(self.stable.as_slice(), receipt.place() as usize);
        (seat, Confirmed::Here(index))
    }
}
