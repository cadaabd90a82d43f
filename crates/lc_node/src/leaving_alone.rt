//! What a node leaves that ran alone, once its threads have ended.
ghost use Rattle.std.specs.Prelude.{◌≡◌, All, IfErr, IfOk, Some, slice_get, true};
ghost use Rattle.lc_rest.specs.Parts.{AreKept};
ghost use Rattle.lc_rest.specs.declared.node_part.NodePart.{NodePart as ThePart};
ghost use Rattle.lc_log_side.specs.LeftBy.{AreReceived, IsIdleSeatOf};
ghost use Rattle.lc_node.specs.Refusals.{StopsParts};

use crate::node::Node;
use crate::ordering_tokens::in_order;
use lc_disk::Area;
use lc_rest::Parts;
use lc_segments::NodeFault;
use lc_stage::CommitSeat;
use std::alloc::Global;
use std::sync::Wait;

impl<D: Area + Drop> Node<D> {
    /// What a node leaves that was opened alone, once its threads have ended, as `Cluster::into_parts` says of a
    /// cluster: `lc_store::node_into_world` makes a store of one node of it. Each record of which one of the
    /// committers' seats has a receipt stands in the log, or is of an earlier round and known clean. It waits for each
    /// lock, so who still has a log or a segment lets it wait for ever.
    ///
    /// # Errors
    ///
    /// Those of `Cluster::into_parts`. The node is gone.
    pub fn into_parts<R: Wait>(
        self,
        rt: &R,
        alloc: Global,
        seats: Vec<CommitSeat>,
    ) -> Result<Parts<D>, NodeFault>
        requires alone { self.is_alone ≡ true }
        requires own { All (IsIdleSeatOf self.stage) seats.items }
        ensures kept { IfOk result (λ parts. AreKept D.Area parts) }
        ensures received { IfOk result (λ parts. (part : ThePart D D.Area) → slice_get parts.nodes.items 0 ≡ Some part
            → AreReceived part.round part.stable.items part.known seats.items) }
        ensures geometry { IfOk result (λ parts. parts.geometry ≡ self.geometry) }
        ensures refused { IfErr result (StopsParts self.geometry) }
    {
        let geometry = self.geometry;
        let mut nodes = Vec::with_capacity(alloc, 1)?;
        let mut tokens = Vec::new(alloc);
        nodes.push_reserved(self.into_part(rt, alloc, &geometry, seats, &mut tokens)?);
        let segments = in_order(alloc, &geometry, tokens)?;
        Ok(Parts {
            geometry,
            nodes,
            segments,
        })
    }
}
