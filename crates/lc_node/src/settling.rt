//! A committer waits until its last record is stable.
ghost use Rattle.std.specs.Prelude.{◌≡◌, ◌↔◌, None, Some, Ok, IfOk, IfErr, MatchOption};
ghost use Rattle.lc_stage.specs.Closed.{HasClosed};
ghost use Rattle.lc_stage.specs.declared.receipt.Receipt.{Receipt as Given};
ghost use Rattle.lc_stage.specs.Seats.{commit_view, IsSeatOf, IsIdle};
ghost use Rattle.lc_log_side.specs.Receipts.{HasReceipt, IsOfDevice, Learns, Receives};
ghost use Rattle.lc_node.specs.Settling.{FailsIn, LooksIn, SettlesIn};

use crate::node::Node;
use lc_disk::Area;
use lc_segments::NodeFault;
use lc_stage::{CommitSeat, Receipt};
use std::sync::Wait;
use std::thread;

impl<D: Area + Drop> Node<D> {
    /// The receipt of the seat's last closed record, exactly where the published end has reached it. It waits for the
    /// lock of the log, and takes no memory.
    pub fn durable<R: Wait>(&self, rt: &R, seat: CommitSeat) -> (CommitSeat, Option<Receipt>)
        requires own { IsSeatOf self.now.stage seat }
        requires idle { IsIdle (commit_view seat) }
        ensures own { IsSeatOf self.now.stage result.0 }
        ensures idle { IsIdle (commit_view result.0) }
        ensures looks { LooksIn self.now (commit_view seat) result.1 (commit_view result.0) }
        ensures found { MatchOption result.1 (Learns (commit_view seat) (commit_view result.0)) (λ receipt.
            Receives (commit_view seat) receipt (commit_view result.0)) }
    {
        let (mut log, loan) = self.log.lock(rt);
        let (seat, found) = log.durable(&self.stage, seat);
        self.log.unlock(log, loan);
        (seat, found)
    }

    /// The receipt of the seat's last closed record, once it is stable: all that the seat closed is stable then. None,
    /// without a wait, exactly where it never closed one. It looks first whether the record is stable, and else flushes
    /// the log; it does so again where a record in front of it is still open. It waits for the lock of the log and for
    /// such a record, and takes no memory.
    ///
    /// # Errors
    ///
    /// `Halted` where a device failed before, and `DeviceFault` where it fails now: the record stays closed, and what
    /// becomes of it a recovery decides.
    pub fn settle_last<R: Wait>(
        &self,
        rt: &R,
        seat: CommitSeat,
    ) -> (CommitSeat, Result<Option<Receipt>, NodeFault>)
        requires own { IsSeatOf self.now.stage seat }
        requires idle { IsIdle (commit_view seat) }
        ensures own { IsSeatOf self.now.stage result.0 }
        ensures idle { IsIdle (commit_view result.0) }
        ensures none { (result.1 ≡ Ok None) ↔ ¬ HasClosed (commit_view seat) }
        ensures same { result.1 ≡ Ok None → commit_view result.0 ≡ commit_view seat }
        ensures looks { (receipt : Given) → result.1 ≡ Ok (Some receipt)
            → LooksIn self.now (commit_view seat) (Some receipt) (commit_view result.0) }
        ensures settled { (receipt : Given) → result.1 ≡ Ok (Some receipt)
            → Receives (commit_view seat) receipt (commit_view result.0) }
        ensures received { (receipt : Given) → result.1 ≡ Ok (Some receipt)
            → HasReceipt (commit_view result.0) receipt }
        ensures fails { IfErr result.1 (λ fault. FailsIn D.Area self.now fault) }
        ensures refused { IfErr result.1 (λ fault. IsOfDevice fault
            × Learns (commit_view seat) (commit_view result.0)) }
    {
        if !seat.has_closed() {
            return (seat, Ok(None));
        }
        let (seat, settled) = self.settle(rt, seat);
        match settled {
            Ok(receipt) => (seat, Ok(Some(receipt))),
            Err(fault) => (seat, Err(fault)),
        }
    }

    // The receipt of the seat's last closed record, once it is stable. Under the lock it is looked first whether it is,
    // so that who waited for a flush of another that took it makes no call of the device.
    pub(crate) fn settle<R: Wait>(
        &self,
        rt: &R,
        seat: CommitSeat,
    ) -> (CommitSeat, Result<Receipt, NodeFault>)
        requires own { IsSeatOf self.now.stage seat }
        requires idle { IsIdle (commit_view seat) }
        ensures own { IsSeatOf self.now.stage result.0 }
        ensures idle { IsIdle (commit_view result.0) }
        ensures looks { IfOk result.1 (λ receipt.
            LooksIn self.now (commit_view seat) (Some receipt) (commit_view result.0)) }
        ensures fails { IfErr result.1 (λ fault. FailsIn D.Area self.now fault) }
        ensures settled { IfOk result.1 (λ receipt. Receives (commit_view seat) receipt (commit_view result.0)) }
        ensures refused { IfErr result.1 (λ fault. IsOfDevice fault
            × Learns (commit_view seat) (commit_view result.0)) }
    {
        let mut seat = seat;
        for _ in rt.forever() {
            let (next, settled) = self.settle_once(rt, seat);
            seat = next;
            match settled {
                Ok(Some(receipt)) => return (seat, Ok(receipt)),
                Ok(None) => thread::yield_now(),
                Err(fault) => return (seat, Err(fault)),
            }
        }
        unreachable!()
    }

    fn settle_once<R: Wait>(
        &self,
        rt: &R,
        seat: CommitSeat,
    ) -> (CommitSeat, Result<Option<Receipt>, NodeFault>)
        requires own { IsSeatOf self.now.stage seat }
        requires idle { IsIdle (commit_view seat) }
        ensures own { IsSeatOf self.now.stage result.0 }
        ensures idle { IsIdle (commit_view result.0) }
        ensures settles { SettlesIn D.Area self.now (commit_view seat) result.1 (commit_view result.0) }
        ensures settled { IfOk result.1 (λ found.
            MatchOption found (Learns (commit_view seat) (commit_view result.0)) (λ receipt.
            Receives (commit_view seat) receipt (commit_view result.0))) }
        ensures refused { IfErr result.1 (λ fault. IsOfDevice fault
            × Learns (commit_view seat) (commit_view result.0)) }
    {
        let (mut log, loan) = self.log.lock(rt);
        let (seat, settled) = log.settle(&self.stage, seat);
        self.tell_fault(&settled);
        self.log.unlock(log, loan);
        (seat, settled)
    }
}
