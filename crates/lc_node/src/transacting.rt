//! A whole transaction on a running node.
ghost use Rattle.std.specs.Prelude.{◌≡◌, ◌<◌, Ok};
ghost use Rattle.lc_stage.specs.declared.receipt.Receipt.{Receipt as Given};
ghost use Rattle.lc_stage.specs.Seats.{commit_view, IsSeatOf, IsIdle};
ghost use Rattle.lc_log_side.specs.Receipts.{HasReceipt};
ghost use Rattle.lc_node.specs.Transacting.{EndsClosed, Transacts};
ghost use Rattle.lc_node.specs.declared.commit_kind.Commit.TheVariants.{Flushed};

use crate::commit_kind::{Commit, Mode};
use crate::gate::Gate;
use crate::node::Node;
use lc_disk::Area;
use lc_segments::{NodeFault, Work};
use lc_stage::CommitSeat;
use std::alloc::Global;
use std::sync::Wait;

impl<D: Area + Drop> Node<D> {
    /// Runs the work in a transaction on these segments, whose locks it gets in ascending order, and closes its record
    /// in the stage, with so many tries for a place. The locks are given back before it waits for a flush, which it
    /// does in `Mode::Flush` alone. All memory is taken before a place is reserved. `gate` is called between
    /// reservation and closing.
    ///
    /// # Errors
    ///
    /// Those of `hold` and of `Held::commit`: then the work is undone, and the seat has at most seen a tail.
    /// `DeviceFault` and `Halted` where the flush fails: the record stays closed, and what becomes of it a recovery
    /// decides.
    pub fn transact<R: Wait, W: Work, G: Gate>(
        &self,
        rt: &R,
        alloc: Global,
        seat: CommitSeat,
        segments: &[u32],
        work: &mut W,
        mode: Mode,
        tries: u32,
        gate: &G,
    ) -> (CommitSeat, Result<Commit, NodeFault>)
        requires own { IsSeatOf self.now.stage seat }
        requires idle { IsIdle (commit_view seat) }
        requires tries { 0 < tries }
        ensures own { IsSeatOf self.now.stage result.0 }
        ensures idle { IsIdle (commit_view result.0) }
        ensures transacts { Transacts D.Area self.now W.ran tries segments.now mode work.old work.new
            (commit_view seat) (commit_view result.0) result.1 }
        ensures received { (receipt : Given) → result.1 ≡ Ok (Flushed receipt)
            → HasReceipt (commit_view result.0) receipt }
    {
        let mut seat = seat;
        let committed = self.commit(rt, alloc, &mut seat, segments, work, tries, gate);
        match committed {
            Err(fault) => (seat, Err(fault)),
            Ok(false) => (seat, Ok(Commit::Empty)),
            Ok(true) => self.end_closed(rt, seat, mode),
        }
    }

    // Waits for the record that the seat closed last, where it is to wait.
    pub(crate) fn end_closed<R: Wait>(
        &self,
        rt: &R,
        seat: CommitSeat,
        mode: Mode,
    ) -> (CommitSeat, Result<Commit, NodeFault>)
        requires own { IsSeatOf self.now.stage seat }
        requires idle { IsIdle (commit_view seat) }
        ensures own { IsSeatOf self.now.stage result.0 }
        ensures idle { IsIdle (commit_view result.0) }
        ensures ends { EndsClosed mode (commit_view seat) (commit_view result.0) result.1 }
        ensures received { (receipt : Given) → result.1 ≡ Ok (Flushed receipt)
            → HasReceipt (commit_view result.0) receipt }
    {
        let Mode::Flush = mode else {
            return (seat, Ok(Commit::Lazy));
        };
        let (seat, settled) = self.settle(rt, seat);
        match settled {
            Ok(receipt) => (seat, Ok(Commit::Flushed(receipt))),
            Err(fault) => (seat, Err(fault)),
        }
    }
}
