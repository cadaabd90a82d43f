//! What a node leaves once its threads have ended.
ghost use Rattle.std.specs.Prelude.{◌≡◌, All, IfErr, IfOk, OnOk, vec_len};
ghost use Rattle.lc_log_side.specs.LeftBy.{AreReceived, IsIdleSeatOf};
ghost use Rattle.lc_node.specs.LeftBy.{IsLeftNode, StoodBehind};
ghost use Rattle.lc_segments.specs.LeftBy.{IsSettledPart};
ghost use Rattle.lc_node.specs.Refusals.{StopsNode};

use crate::leaving_segments::SegmentImages;
use crate::node::Node;
use lc_disk::Area;
use lc_record::Geometry;
use lc_rest::{NodePart, SegmentPart};
use lc_segments::NodeFault;
use lc_stage::CommitSeat;
use std::alloc::Global;
use std::sync::Wait;

impl<D: Area + Drop> Node<D> {
    /// What the node leaves. Its tokens go after these.
    ///
    /// # Errors
    ///
    /// `Mismatch` of the node's log or its seats. `NoMemory`.
    pub(crate) fn into_part<R: Wait>(
        self,
        rt: &R,
        alloc: Global,
        geometry: &Geometry,
        seats: Vec<CommitSeat>,
        tokens: &mut Vec<SegmentPart<D>>,
    ) -> Result<NodePart<D>, NodeFault>
        requires seats { All (IsIdleSeatOf self.stage) seats.items }
        requires segments { vec_len self.segments ≡ geometry.now.segments }
        requires settled { All (IsSettledPart D.Area) tokens.old.items }
        ensures part { IfOk result (λ part. IsLeftNode D.Area geometry.now part) }
        ensures received { IfOk result (λ part. AreReceived part.round part.stable.items part.known seats.items) }
        ensures behind { IfOk result (λ part.
            StoodBehind self.number self.segments.items part.images.items part.applied.items tokens.old.items
            tokens.new.items) }
        ensures settled { OnOk result (All (IsSettledPart D.Area) tokens.new.items) }
        ensures refused { IfErr result (StopsNode self.number) }
    {
        let Node {
            number,
            stage,
            log,
            segments,
            ..
        } = self;
        let (side, loan) = log.lock(rt);
        log.end(loan);
        let mut part = side.into_part(alloc, &stage, geometry, number, seats)?;
        let SegmentImages { images, applied } = SegmentImages::take(
            rt, alloc, number, segments, tokens,
        )?;
        part.images = images;
        part.applied = applied;
        Ok(part)
    }
}
