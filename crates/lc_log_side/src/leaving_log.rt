//! What a log leaves once the threads of its node have ended.
ghost use Rattle.std.specs.Prelude.{◌≡◌, ◌<◌, All, IfErr, IfOk, OnErr, length};
ghost use Rattle.lc_rest.specs.Parts.{KeepsLog};
ghost use Rattle.lc_stage.specs.Seats.{commit_view, flush_view, IsFlusherOf, IsSeatOf};
ghost use Rattle.lc_stage.specs.Staging.{Agree};
ghost use Rattle.lc_log_side.specs.LeftBy.{AreReceived, IsIdleSeatOf, LeavesLog};
ghost use Rattle.lc_log_side.specs.Refusals.{StopsLog};

use crate::flushing::keep;
use crate::log_side::LogSide;
use crate::log_state::LogState;
use lc_disk::Area;
use lc_record::{Geometry, Group};
use lc_rest::{ClusterPart, NodePart};
use lc_segments::NodeFault;
use lc_stage::{CommitSeat, FlushSeat, Stage};
use std::alloc::{AllocError, Global};

impl<D: Area + Drop> LogSide<D> {
    /// What the log of the node with this number leaves, with all that is staged for it, and no image yet. The stage is
    /// that of the log; the seats are all with which there were commits, and of each record of which one has a receipt
    /// it is known then where it is.
    ///
    /// # Errors
    ///
    /// `Mismatch` of the log, where a call of its device failed, or it has not the room of the geometry's logs for all
    /// that is staged; and of the node's seats, where something is reserved that was not closed. `NoMemory`, where
    /// nothing else is the matter and there are words staged. The log is gone.
    pub fn into_part(
        self,
        alloc: Global,
        stage: &Stage,
        geometry: &Geometry,
        node: u16,
        seats: Vec<CommitSeat>,
    ) -> Result<NodePart<D>, NodeFault>
        requires own { IsFlusherOf stage.now self.flusher × IsSeatOf stage.now self.probe }
        requires seats { All (IsIdleSeatOf stage.now) seats.items }
        ensures kept { IfOk result (λ part. KeepsLog D.Area geometry.now part) }
        ensures left { IfOk result (λ part. LeavesLog D.Area stage.now.room self part) }
        ensures received { IfOk result (λ part. AreReceived part.round part.stable.items part.known seats.items) }
        ensures refused { IfErr result (StopsLog D.Area geometry.now stage.now.room node self) }
    {
        let stable_tail = self.stable_tail();
        let LogSide {
            mut flusher,
            mut probe,
            log,
            mut group,
            stable,
            ended,
            count: _count,
            round,
            known,
        } = self;
        let LogState::Idle(log) = log else {
            return Err(ClusterPart::Log(node).into());
        };
        let taken = stage.take(&mut flusher, &mut group);
        if stage.tail(&mut probe) > stable_tail + u64::from(taken) {
            return Err(ClusterPart::Seat(node).into());
        }
        let end = log.end + taken as usize;
        if end > geometry.words as usize || log.area.len() != geometry.log_len() {
            return Err(ClusterPart::Log(node).into());
        }
        meet_all(stage, &mut flusher, seats);
        let staged = words_in(alloc, &group)?;
        Ok(NodePart {
            log,
            round,
            ended: ended.into_words(),
            stable,
            staged,
            known,
            images: Vec::new(alloc),
            applied: Vec::new(alloc),
        })
    }
}

// Meets the flusher with each of these seats, which are gone then.
fn meet_all(stage: &Stage, flusher: &mut FlushSeat, seats: Vec<CommitSeat>)
    requires own { IsFlusherOf stage.now flusher.old }
    requires seats { All (IsIdleSeatOf stage.now) seats.items }
    ensures same { flush_view flusher.new ≡ flush_view flusher.old }
    ensures agree { All (λ seat. Agree (flush_view flusher.new) (commit_view seat)) seats.items }
{
    let mut seats = seats;
    for _ in 0..seats.len() {
        let _seat = stage.meet(flusher, seats.remove(0));
    }
}

// The words of a group.
fn words_in(alloc: Global, group: &Group) -> Result<Vec<u64>, AllocError>
    ensures words { IfOk result (λ words. words.items ≡ group.now.words) }
    ensures refused { OnErr result (0 < length group.now.words) }
{
    let mut words = Vec::with_capacity(alloc, group.len())?;
    keep(&mut words, group);
    Ok(words)
}
