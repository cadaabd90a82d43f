//! A committer asks where its records are.
ghost use Rattle.std.specs.Prelude.{◌≡◌};
ghost use Rattle.lc_log_side.specs.Receipts.{HasReceipt};
ghost use Rattle.lc_committer.specs.Records.{ConfirmsIn};

use crate::Committer;
use crate::committer::take_out;
use lc_disk::Area;
use lc_node::Confirmed;
use lc_stage::Receipt;
use std::sync::Wait;

impl<'a, D: Area + Drop> Committer<'a, D> {
    /// Where the record of a receipt is that it has: among the stable ones of the log, or of an earlier round. It waits
    /// for the lock of the log, and takes no memory.
    pub fn confirm<R: Wait>(&mut self, rt: &R, receipt: Receipt) -> Confirmed
        requires received { HasReceipt self.old.view receipt }
        ensures same { self.new ≡ self.old }
        ensures confirms { ConfirmsIn self.old.node self.old.view receipt result }
    {
        let seat = take_out(self.node, &mut self.seat);
        let lock = self.node.log_lock();
        let (mut log, loan) = lock.lock(rt);
        let (seat, confirmed) = self.node.confirm(seat, &mut log, receipt);
        lock.unlock(log, loan);
        self.seat = Some(seat);
        confirmed
    }
}
