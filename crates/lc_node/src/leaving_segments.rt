//! What the segments of a node leave once its threads have ended.
ghost use Rattle.std.specs.Prelude.{◌≡◌, ◌⊎◌, All, IfErr, IfOk, OnOk, length};
ghost use Rattle.lc_rest.specs.declared.cluster_part.ClusterPart.TheVariants.{Log};
ghost use Rattle.lc_segments.specs.LeftBy.{IsSettledPart};
ghost use Rattle.lc_node.specs.LeftBy.{StoodBehind};
ghost use Rattle.lc_segments.specs.declared.node_fault.NodeFault.TheVariants.{Mismatch, NoMemory};

use lc_disk::Area;
use lc_lock::TicketLock;
use lc_rest::SegmentPart;
use lc_segments::{BoxedSide, NodeFault};
use lc_tx::Image;
use std::alloc::Global;
use std::sync::Wait;

/// The images of all segments of a node, from segment 1 on, and of each the number up to which its records are applied.
#[derive(Drop)]
pub(crate) struct SegmentImages {
    pub(crate) images: Vec<Image>,
    pub(crate) applied: Vec<u64>,
}

impl SegmentImages {
    /// What the segments of the node with this number leave, which takes each of them out of its lock. Their tokens go
    /// after these.
    ///
    /// # Errors
    ///
    /// `Mismatch` of the node's log, where a call of an area failed. `NoMemory`.
    pub(crate) fn take<R: Wait, D: Area + Drop>(
        rt: &R,
        alloc: Global,
        node: u16,
        segments: Vec<TicketLock<BoxedSide<D>, u32>>,
        tokens: &mut Vec<SegmentPart<D>>,
    ) -> Result<SegmentImages, NodeFault>
        requires settled { All (IsSettledPart D.Area) tokens.old.items }
        ensures images { IfOk result (λ taken. length taken.images.items ≡ length segments.items) }
        ensures applied { IfOk result (λ taken. length taken.applied.items ≡ length segments.items) }
        ensures behind { IfOk result (λ taken.
            StoodBehind node segments.items taken.images.items taken.applied.items tokens.old.items tokens.new.items) }
        ensures settled { OnOk result (All (IsSettledPart D.Area) tokens.new.items) }
        ensures refused { IfErr result (λ fault. (fault ≡ Mismatch (Log node)) ⊎ (fault ≡ NoMemory)) }
    {
        let mut segments = segments;
        let mut images = Vec::with_capacity(alloc, segments.len())?;
        let mut applied = Vec::with_capacity(alloc, segments.len())?;
        for _ in 0..segments.len() {
            let lock = segments.remove(0);
            let (side, loan) = lock.lock(rt);
            lock.end(loan);
            let (image, number) = Box::into_inner(side.inner).into_image(node, tokens)?;
            images.push_reserved(image);
            applied.push_reserved(number);
        }
        Ok(SegmentImages { images, applied })
    }
}
