//! A commit that gets the locks of its segments and gives them back.
ghost use Rattle.std.specs.Prelude.{◌<◌, ◌∷◌, []};
ghost use Rattle.lc_stage.specs.Seats.{commit_view, IsSeatOf, IsIdle};
ghost use Rattle.lc_node.specs.Commits.{CommitsAmong};

use crate::committing::commit_on;
use crate::gate::Gate;
use crate::node::Node;
use lc_disk::Area;
use lc_segments::{HeldSide, NodeFault, Work};
use lc_stage::CommitSeat;
use std::alloc::Global;
use std::slice;
use std::sync::Wait;

impl<D: Area + Drop> Node<D> {
    /// Runs the work in a transaction on these segments, whose locks it gets in ascending order, closes its record in
    /// the stage, and gives the locks back; false where nothing was set.
    ///
    /// # Errors
    ///
    /// Those of `hold` and of `Held::commit`.
    pub(crate) fn commit<R: Wait, W: Work, G: Gate>(
        &self,
        rt: &R,
        alloc: Global,
        seat: &mut CommitSeat,
        segments: &[u32],
        work: &mut W,
        tries: u32,
        gate: &G,
    ) -> Result<bool, NodeFault>
        requires own { IsSeatOf self.now.stage seat.old }
        requires idle { IsIdle (commit_view seat.old) }
        requires tries { 0 < tries }
        ensures own { IsSeatOf self.now.stage seat.new }
        ensures idle { IsIdle (commit_view seat.new) }
        ensures commits { CommitsAmong D.Area self.now W.ran tries segments.now work.old work.new
            (commit_view seat.old) (commit_view seat.new) result }
    {
        if let [segment] = segments {
            return self.commit_one(rt, alloc, seat, *segment, work, tries, gate);
        }
        let mut held = self.hold(rt, alloc, segments)?;
        let committed = held.commit(alloc, self, seat, work, tries, gate);
        self.release(held);
        committed
    }

    // Does it on one segment, without a list of those that it holds.
    fn commit_one<R: Wait, W: Work, G: Gate>(
        &self,
        rt: &R,
        alloc: Global,
        seat: &mut CommitSeat,
        segment: u32,
        work: &mut W,
        tries: u32,
        gate: &G,
    ) -> Result<bool, NodeFault>
        requires own { IsSeatOf self.now.stage seat.old }
        requires idle { IsIdle (commit_view seat.old) }
        requires tries { 0 < tries }
        ensures own { IsSeatOf self.now.stage seat.new }
        ensures idle { IsIdle (commit_view seat.new) }
        ensures commits { CommitsAmong D.Area self.now W.ran tries (segment ∷ []) work.old work.new
            (commit_view seat.old) (commit_view seat.new) result }
    {
        if !self.has(segment) {
            return Err(NodeFault::NotHere { segment });
        }
        let lock = &self.segments[segment as usize - 1];
        let (side, loan) = lock.lock(rt);
        let mut held = HeldSide { side, loan };
        let sides = slice::from_mut(&mut held);
        let committed = commit_on(sides, alloc, self, seat, work, tries, gate);
        let HeldSide { side, loan } = held;
        lock.unlock(side, loan);
        committed
    }
}
