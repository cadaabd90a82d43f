//! The locks of segments, got in ascending order and given back.
ghost use Rattle.std.specs.Prelude.{◌≡◌, ◌<◌, ◌↔◌, ℕ, All, Err, Some, length, IfOk, IfErr, IfNone};
ghost use Rattle.std.specs.Prelude.{IsTrue};
ghost use Rattle.lc_lock.specs.Loans.{key_of};
ghost use Rattle.lc_record.specs.Transaction.{is_member};
ghost use Rattle.lc_tx.specs.Tx.{IsSetOf};
ghost use Rattle.lc_node.specs.Held.{HasSegment, IsFirstOutside, IsHeldOf, IsUnheld, segments_of};
ghost use Rattle.lc_segments.specs.declared.node_fault.NodeFault.TheVariants.{NotHere, NoMemory};

use crate::held::Held;
use crate::node::Node;
use lc_disk::Area;
use lc_lock::TicketLock;
use lc_segments::{BoxedSide, HeldSide, NodeFault};
use std::alloc::Global;
use std::sync::Wait;

impl<D: Area + Drop> Node<D> {
    /// Whether the node has a segment.
    pub fn has(&self, segment: u32) -> bool
        ensures { IsTrue result ↔ HasSegment self.now segment }
    {
        segment > 0 && segment as usize <= self.segments.len()
    }

    // The lock of a segment. Who has it reaches the segment's token and numbers, so it is the crate's own.
    pub(crate) fn lock_of(&self, segment: u32) -> &TicketLock<BoxedSide<D>, u32>
        requires { HasSegment self.now segment }
        ensures { key_of result.now ≡ segment }
    {
        &self.segments[segment as usize - 1]
    }

    /// Gets the locks of these segments, each once, however often it is asked for, and in ascending order, so that
    /// callers do not wait for each other in a circle. All memory is taken before the first lock.
    ///
    /// # Errors
    ///
    /// `NotHere` of the first segment, in the order in which they are given, that the node does not have, and else
    /// `NoMemory`. No lock is got then.
    pub fn hold<R: Wait>(
        &self,
        rt: &R,
        alloc: Global,
        segments: &[u32],
    ) -> Result<Held<D>, NodeFault>
        ensures held { IfOk result (λ held. All (IsHeldOf self.now) held.sides.items) }
        ensures segments { IfOk result (λ held. IsSetOf segments.now (segments_of held)) }
        ensures not_here { (s : ℕ) → (result ≡ Err (NotHere s)) ↔ IsFirstOutside self.now segments.now s }
        ensures refused { IfErr result IsUnheld }
        ensures no_memory { result ≡ Err NoMemory → 0 < length self.now.segments.items }
    {
        if let Some(segment) = self.first_outside(segments) {
            return Err(NodeFault::NotHere { segment });
        }
        let Ok(mut sides) = Vec::with_capacity(alloc, self.segments.len()) else {
            return Err(NodeFault::NoMemory);
        };
        for place in 0..self.segments.len() {
            if is_asked(segments, place as u32 + 1) {
                let (side, loan) = self.segments[place].lock(rt);
                sides.push_reserved(HeldSide { side, loan });
            }
        }
        Ok(Held { sides })
    }

    /// Gives the locks back.
    pub fn release(&self, held: Held<D>)
        requires { All (IsHeldOf self.now) held.sides.items }
    {
        let Held { mut sides } = held;
        while let Some(HeldSide { side, loan }) = sides.pop() {
            let segment = side.inner.segment();
            self.segments[segment as usize - 1].unlock(side, loan);
        }
        sides.destroy_empty();
    }

    // The first of these segments that the node does not have.
    pub(crate) fn first_outside(&self, segments: &[u32]) -> Option<u32>
        ensures first { (s : ℕ) → (result ≡ Some s) ↔ IsFirstOutside self.now segments.now s }
        ensures none { IfNone result (All (HasSegment self.now) segments.now) }
    {
        for segment in segments {
            if !self.has(*segment) {
                return Some(*segment);
            }
        }
        None
    }
}

// Whether a segment is one of these.
pub(crate) fn is_asked(segments: &[u32], segment: u32) -> bool
    ensures { result ≡ is_member segment segments.now }
{
    for asked in segments {
        if *asked == segment {
            return true;
        }
    }
    false
}
