//! What a node has of a segment, copied.
ghost use Rattle.std.specs.Prelude.{◌≡◌, ◌⊎◌, ◌↔◌, IfOk, IfErr};
ghost use Rattle.lc_node.specs.Held.{HasSegment};
ghost use Rattle.lc_segments.specs.SegView.{SegView};
ghost use Rattle.lc_node.specs.Snapshots.{IsCopyOf};
ghost use Rattle.lc_segments.specs.declared.node_fault.NodeFault.TheVariants.{NotHere, NoMemory};

use crate::node::Node;
use lc_disk::Area;
use lc_segments::{NodeFault, Snapshot};
use std::alloc::Global;
use std::sync::Wait;

impl<D: Area + Drop> Node<D> {
    /// Copies a side of the segment, whose lock it waits for: its bytes, and the number of the last record that they
    /// have. No clause says whose side that is, or of which moment.
    ///
    /// # Errors
    ///
    /// `NotHere` exactly where the node has no such segment, and else `NoMemory`.
    pub fn snapshot<R: Wait>(
        &self,
        rt: &R,
        alloc: Global,
        segment: u32,
    ) -> Result<Snapshot, NodeFault>
        ensures copied { IfOk result (λ copy. (side : SegView D) × (side.segment ≡ segment) × IsCopyOf side copy) }
        ensures not_here { (result ≡ Err (NotHere segment)) ↔ (HasSegment self.now segment → ⊥) }
        ensures refused { IfErr result (λ fault. (fault ≡ NotHere segment) ⊎ (fault ≡ NoMemory)) }
    {
        if !self.has(segment) {
            return Err(NodeFault::NotHere { segment });
        }
        let lock = self.lock_of(segment);
        let (side, loan) = lock.lock(rt);
        let copied = side.inner.snapshot(alloc);
        lock.unlock(side, loan);
        match copied {
            Ok(copy) => Ok(copy),
            Err(_) => Err(NodeFault::NoMemory),
        }
    }
}
