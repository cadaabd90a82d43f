//! A commit that makes room in the log where it has none.
ghost use Rattle.std.specs.Prelude.{◌≡◌, ◌<◌, ◌≤◌, ◌↔◌, ℕ, [], All, Err, Ok, IfErr, IfOk, OnErr, length, take};
ghost use Rattle.std.specs.Prelude.{vec_capacity};
ghost use Rattle.lc_record.specs.Record.{Chain};
ghost use Rattle.lc_stage.specs.Seats.{commit_view, IsSeatOf, IsIdle};
ghost use Rattle.lc_node.specs.Commits.{segments_in};
ghost use Rattle.lc_node.specs.Held.{IsFirstOutside, IsHeldOf, IsUnheld};
ghost use Rattle.lc_node.specs.MakingRoom.{AllHeld, CommitsAlone, CommitsFirst, CommitsInRoom, CommitsOrEmpties};
ghost use Rattle.lc_node.specs.MakingRoom.{TransactsInRoom};
ghost use Rattle.lc_log_side.specs.Receipts.{HasReceipt};
ghost use Rattle.lc_stage.specs.declared.receipt.Receipt.{Receipt as Given};
ghost use Rattle.lc_node.specs.declared.commit_kind.Commit.TheVariants.{Flushed};
ghost use Rattle.lc_segments.specs.declared.node_fault.NodeFault.TheVariants.{NotHere, NoMemory};

use crate::commit_kind::{Commit, Mode};
use crate::committing::commit_on;
use crate::gate::Gate;
use crate::held::Held;
use crate::holding::is_asked;
use crate::node::Node;
use lc_disk::Area;
use lc_segments::{HeldSide, NodeFault, Work};
use lc_stage::CommitSeat;
use std::alloc::{AllocError, Global};
use std::sync::Wait;

/// All segments of a node, held. The first so many are those that were asked for.
struct HeldAll<D: Area + Drop> {
    held: Held<D>,
    pub count: usize,
}

impl<D: Area + Drop> Node<D> {
    /// A whole transaction on these segments, as `transact` makes it, for which room is made in the log. Where the log
    /// has no room for the record, it waits for its turn, gets the locks of all segments, so that nobody else commits,
    /// and tries again. Where the log has no room still, it is truncated, and the work is tried once more before a lock
    /// is given back. So of all who meet a full log one truncates, and no other commit comes between. Turns come in the
    /// order of asking, and who waits for one holds no segment. A work that is tried again runs on what its last run
    /// made of itself.
    ///
    /// # Errors
    ///
    /// Those of `transact`, and, where the log is to be emptied, of `truncate`: as `Unclean` where the token of a
    /// segment is elsewhere. `Full` only where the emptied log has no room either.
    pub fn transact_in_room<R: Wait, W: Work, G: Gate>(
        &self,
        rt: &R,
        alloc: Global,
        seat: CommitSeat,
        segments: &[u32],
        work: &mut W,
        mode: Mode,
        tries: u32,
        gate: &G,
    ) -> (CommitSeat, Result<Commit, NodeFault>)
        requires own { IsSeatOf self.now.stage seat }
        requires idle { IsIdle (commit_view seat) }
        requires tries { 0 < tries }
        ensures own { IsSeatOf self.now.stage result.0 }
        ensures idle { IsIdle (commit_view result.0) }
        ensures transacts { TransactsInRoom D.Area self.now W.ran tries segments.now mode work.old work.new
            (commit_view seat) (commit_view result.0) result.1 }
        ensures received { (receipt : Given) → result.1 ≡ Ok (Flushed receipt)
            → HasReceipt (commit_view result.0) receipt }
    {
        let mut seat = seat;
        let closed = self.commit_in_room(rt, alloc, &mut seat, segments, work, tries, gate);
        match closed {
            Err(fault) => (seat, Err(fault)),
            Ok(false) => (seat, Ok(Commit::Empty)),
            Ok(true) => self.end_closed(rt, seat, mode),
        }
    }

    // Closes the record of a work on these segments; false where nothing was set. Those who meet a full log take turns.
    // Without turns they would wait at the first segment, before whom each commit on that segment would wait as well.
    fn commit_in_room<R: Wait, W: Work, G: Gate>(
        &self,
        rt: &R,
        alloc: Global,
        seat: &mut CommitSeat,
        segments: &[u32],
        work: &mut W,
        tries: u32,
        gate: &G,
    ) -> Result<bool, NodeFault>
        requires own { IsSeatOf self.now.stage seat.old }
        requires idle { IsIdle (commit_view seat.old) }
        requires tries { 0 < tries }
        ensures own { IsSeatOf self.now.stage seat.new }
        ensures idle { IsIdle (commit_view seat.new) }
        ensures commits { CommitsInRoom D.Area self.now W.ran tries segments.now work.old work.new
            (commit_view seat.old) (commit_view seat.new) result }
    {
        match self.commit(rt, alloc, seat, segments, work, tries, gate) {
            Err(NodeFault::Full { .. }) => {
                let (turn, loan) = self.room_turns.lock(rt);
                let done = self.commit_alone(rt, alloc, seat, segments, work, tries, gate);
                self.room_turns.unlock(turn, loan);
                done
            }
            done => done,
        }
    }

    // Does it with all segments held.
    fn commit_alone<R: Wait, W: Work, G: Gate>(
        &self,
        rt: &R,
        alloc: Global,
        seat: &mut CommitSeat,
        segments: &[u32],
        work: &mut W,
        tries: u32,
        gate: &G,
    ) -> Result<bool, NodeFault>
        requires own { IsSeatOf self.now.stage seat.old }
        requires idle { IsIdle (commit_view seat.old) }
        requires tries { 0 < tries }
        ensures own { IsSeatOf self.now.stage seat.new }
        ensures idle { IsIdle (commit_view seat.new) }
        ensures commits { CommitsAlone D.Area self.now W.ran tries segments.now work.old work.new (commit_view seat.old)
            (commit_view seat.new) result }
    {
        let HeldAll { mut held, count } = self.hold_all(rt, alloc, segments)?;
        let done = self.commit_or_empty(rt, alloc, seat, &mut held, count, work, tries, gate);
        self.release(held);
        done
    }

    // Does it on the first of these, which are all, and once more after a truncation where the log has no room.
    fn commit_or_empty<R: Wait, W: Work, G: Gate>(
        &self,
        rt: &R,
        alloc: Global,
        seat: &mut CommitSeat,
        held: &mut Held<D>,
        count: usize,
        work: &mut W,
        tries: u32,
        gate: &G,
    ) -> Result<bool, NodeFault>
        requires own { IsSeatOf self.now.stage seat.old }
        requires idle { IsIdle (commit_view seat.old) }
        requires held { All (IsHeldOf self.now) held.old.sides.items }
        requires count { count ≤ length held.old.sides.items }
        requires ascends { Chain (λ a b. a < b) (segments_in (take count held.old.sides.items)) }
        requires tries { 0 < tries }
        ensures own { IsSeatOf self.now.stage seat.new }
        ensures idle { IsIdle (commit_view seat.new) }
        ensures held { All (IsHeldOf self.now) held.new.sides.items }
        ensures commits { CommitsOrEmpties D.Area self.now W.ran tries count held.old.sides.items work.old work.new
            (commit_view seat.old) (commit_view seat.new) result }
    {
        match self.commit_first(alloc, seat, held, count, work, tries, gate) {
            Err(NodeFault::Full { .. }) => {
                self.truncate_held(rt, alloc, held)?;
                self.commit_first(alloc, seat, held, count, work, tries, gate)
            }
            done => done,
        }
    }

    // Does it on the first of these.
    fn commit_first<W: Work, G: Gate>(
        &self,
        alloc: Global,
        seat: &mut CommitSeat,
        held: &mut Held<D>,
        count: usize,
        work: &mut W,
        tries: u32,
        gate: &G,
    ) -> Result<bool, NodeFault>
        requires own { IsSeatOf self.now.stage seat.old }
        requires idle { IsIdle (commit_view seat.old) }
        requires held { All (IsHeldOf self.now) held.old.sides.items }
        requires count { count ≤ length held.old.sides.items }
        requires ascends { Chain (λ a b. a < b) (segments_in (take count held.old.sides.items)) }
        requires tries { 0 < tries }
        ensures own { IsSeatOf self.now.stage seat.new }
        ensures idle { IsIdle (commit_view seat.new) }
        ensures held { All (IsHeldOf self.now) held.new.sides.items }
        ensures segments { segments_in held.new.sides.items ≡ segments_in held.old.sides.items }
        ensures commits { CommitsFirst D.Area self.now
            (W.ran work.old work.new) tries count held.old.sides.items held.new.sides.items (commit_view seat.old)
            (commit_view seat.new) result }
    {
        let (asked, _others) = held.sides.as_mut_slice().split_at_mut(count);
        commit_on(asked, alloc, self, seat, work, tries, gate)
    }

    // Gets the locks of all segments, in ascending order, and puts those of these in front, in that order too. All
    // memory is taken before the first lock.
    fn hold_all<R: Wait>(
        &self,
        rt: &R,
        alloc: Global,
        segments: &[u32],
    ) -> Result<HeldAll<D>, NodeFault>
        ensures held { IfOk result (λ all. AllHeld self.now segments.now all.count all.held.sides.items) }
        ensures not_here { (s : ℕ) → (result ≡ Err (NotHere s)) ↔ IsFirstOutside self.now segments.now s }
        ensures refused { IfErr result IsUnheld }
        ensures no_memory { result ≡ Err NoMemory → 0 < length self.now.segments.items }
    {
        if let Some(segment) = self.first_outside(segments) {
            return Err(NodeFault::NotHere { segment });
        }
        let Ok((mut asked, mut others)) = two_lists(alloc, self.segments.len()) else {
            return Err(NodeFault::NoMemory);
        };
        for place in 0..self.segments.len() {
            let (side, loan) = self.segments[place].lock(rt);
            let held = HeldSide { side, loan };
            if is_asked(segments, place as u32 + 1) {
                asked.push_reserved(held);
            } else {
                others.push_reserved(held);
            }
        }
        let count = asked.len();
        let Ok(()) = asked.append(&mut others) else {
            unreachable!();
        };
        others.destroy_empty();
        let held = Held { sides: asked };
        Ok(HeldAll { held, count })
    }
}

// Two empty lists, each with room for so many.
fn two_lists<D: Area + Drop>(
    alloc: Global,
    count: usize,
) -> Result<(Vec<HeldSide<D>>, Vec<HeldSide<D>>), AllocError>
    ensures empty { IfOk result (λ lists. (lists.0.items ≡ []) × (lists.1.items ≡ [])) }
    ensures room { IfOk result (λ lists. (count ≤ vec_capacity lists.0) × (count ≤ vec_capacity lists.1)) }
    ensures no_memory { OnErr result (0 < count) }
{
    let first = Vec::with_capacity(alloc, count)?;
    match Vec::with_capacity(alloc, count) {
        Ok(second) => Ok((first, second)),
        Err(error) => {
            first.destroy_empty();
            Err(error)
        }
    }
}
