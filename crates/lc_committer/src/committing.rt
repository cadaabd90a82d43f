//! A committer commits.
ghost use Rattle.std.specs.Prelude.{◌≡◌, Ok};
ghost use Rattle.lc_stage.specs.declared.receipt.Receipt.{Receipt as Given};
ghost use Rattle.lc_node.specs.MakingRoom.{TransactsInRoom};
ghost use Rattle.lc_log_side.specs.Receipts.{HasReceipt};
ghost use Rattle.lc_node.specs.declared.commit_kind.Commit.TheVariants.{Flushed};
ghost use Rattle.lc_committer.specs.Kept.{KeepsReceipts};

use crate::Committer;
use crate::committer::take_out;
use crate::no_gate::NoGate;
use lc_disk::Area;
use lc_node::{Commit, Mode, NodeFault, Work};
use std::sync::Wait;

// How often a commit tries for a place in the log. A try is lost only to a commit that wins one.
const TRIES: u32 = 10_000;

impl<'a, D: Area + Drop> Committer<'a, D> {
    /// Runs the work in a transaction on these segments, whose locks it waits for in ascending order, and closes a
    /// record of what it set; with `Mode::Flush` it then waits until the record is stable. All memory is taken before a
    /// place is reserved. Where the log has no room for the record, room is made, as `Node::transact_in_room` says: a
    /// commit that meets a full log empties it and goes before all others. It is that call, with 10,000 tries for a
    /// place.
    ///
    /// # Errors
    ///
    /// Those of `Node::transact_in_room`. Where the work is refused, there is no memory, no token or no place, or the
    /// node was halted before, nothing is closed. With `DeviceFault`, and with `Halted` in `Mode::Flush`, the flush may
    /// have failed after the closing: the record stays closed, and what becomes of it a recovery decides.
    pub fn commit<R: Wait + AllocGlobal, W: Work>(
        &mut self,
        rt: &R,
        segments: &[u32],
        work: &mut W,
        mode: Mode,
    ) -> Result<Commit, NodeFault>
        ensures node { self.new.node ≡ self.old.node }
        ensures transacts { TransactsInRoom D.Area self.old.node W.ran TRIES segments.now mode work.old work.new
            self.old.view self.new.view result }
        ensures received { (receipt : Given) → result ≡ Ok (Flushed receipt) → HasReceipt self.new.view receipt }
        ensures keeps { KeepsReceipts self.old.view self.new.view }
    {
        let seat = take_out(self.node, &mut self.seat);
        let (seat, done) = self
            .node
            .transact_in_room(rt, rt.alloc(), seat, segments, work, mode, TRIES, &NoGate);
        self.seat = Some(seat);
        done
    }
}
