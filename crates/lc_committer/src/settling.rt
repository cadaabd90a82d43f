//! A committer waits for its records.
ghost use Rattle.std.specs.Prelude.{◌≡◌, ◌↔◌, None, Some, Ok, IfErr};
ghost use Rattle.lc_stage.specs.declared.receipt.Receipt.{Receipt as Given};
ghost use Rattle.lc_stage.specs.Closed.{HasClosed};
ghost use Rattle.lc_log_side.specs.Receipts.{HasReceipt, IsOfDevice, Learns, Receives};
ghost use Rattle.lc_node.specs.Settling.{FailsIn, LooksIn};
ghost use Rattle.lc_committer.specs.Kept.{KeepsReceipts};

use crate::Committer;
use crate::committer::take_out;
use lc_disk::Area;
use lc_node::NodeFault;
use lc_stage::Receipt;
use std::sync::Wait;

impl<'a, D: Area + Drop> Committer<'a, D> {
    /// Waits until its last record by round and place is stable, and answers that record's receipt; None, and no wait,
    /// exactly where it never closed one. It flushes the log where the record is not stable yet, and again where a
    /// record in front of it is still open. A plain `Node::flush` is no such barrier: it makes stable what is closed
    /// without a gap. It takes no memory.
    ///
    /// # Errors
    ///
    /// `Halted` where a device failed before, and `DeviceFault` where it fails now: its records stay closed, and what
    /// becomes of them a recovery decides.
    pub fn settle<R: Wait>(&mut self, rt: &R) -> Result<Option<Receipt>, NodeFault>
        ensures node { self.new.node ≡ self.old.node }
        ensures none { (result ≡ Ok None) ↔ ¬ HasClosed self.old.view }
        ensures same { result ≡ Ok None → self.new ≡ self.old }
        ensures looks { (receipt : Given) → result ≡ Ok (Some receipt)
            → LooksIn self.old.node self.old.view (Some receipt) self.new.view }
        ensures settled { (receipt : Given) → result ≡ Ok (Some receipt)
            → Receives self.old.view receipt self.new.view }
        ensures received { (receipt : Given) → result ≡ Ok (Some receipt) → HasReceipt self.new.view receipt }
        ensures fails { IfErr result (λ fault. FailsIn D.Area self.old.node fault) }
        ensures refused { IfErr result (λ fault. IsOfDevice fault × Learns self.old.view self.new.view) }
        ensures keeps { KeepsReceipts self.old.view self.new.view }
    {
        let seat = take_out(self.node, &mut self.seat);
        let (seat, settled) = self.node.settle_last(rt, seat);
        self.seat = Some(seat);
        settled
    }
}
