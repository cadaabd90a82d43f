//! What the nodes of a cluster leave once their threads have ended.
ghost use Rattle.std.specs.Prelude.{◌≡◌, ◌⊎◌, ℕ, All, Any, IfErr, IfOk, OnOk, Some, length, slice_get, vec_len};
ghost use Rattle.std.specs.Global.{Vec as Several};
ghost use Rattle.lc_rest.specs.declared.node_part.NodePart.{NodePart as ThePart};
ghost use Rattle.lc_stage.specs.declared.seats.CommitSeat.{CommitSeat as Seat};
ghost use Rattle.lc_log_side.specs.LeftBy.{AreReceived};
ghost use Rattle.lc_cluster.specs.LeftBy.{HaveOwnSeats};
ghost use Rattle.lc_node.specs.LeftBy.{IsLeftNode};
ghost use Rattle.lc_segments.specs.LeftBy.{IsSettledPart};
ghost use Rattle.lc_node.specs.Refusals.{StopsNode};
ghost use Rattle.lc_segments.specs.declared.node_fault.NodeFault.TheVariants.{NoMemory};

use lc_disk::Area;
use lc_node::PeerNode;
use lc_record::Geometry;
use lc_rest::{NodePart, SegmentPart};
use lc_segments::NodeFault;
use lc_stage::CommitSeat;
use std::alloc::Global;
use std::sync::Wait;

/// What these nodes leave, whose seats are given beside, those of each in a list of its own. Their tokens go after
/// these.
///
/// # Errors
///
/// `Mismatch` of a node's log or seats, as `PeerNode::into_part` says, of the first where it answers one. `NoMemory`.
pub(crate) fn take_nodes<R: Wait, D: Area + Drop>(
    rt: &R,
    alloc: Global,
    geometry: &Geometry,
    nodes: Vec<PeerNode<D>>,
    seats: Vec<Vec<CommitSeat>>,
    tokens: &mut Vec<SegmentPart<D>>,
) -> Result<Vec<NodePart<D>>, NodeFault>
    requires seats { HaveOwnSeats nodes.items seats.items }
    requires segments { All (λ node. vec_len node.segments ≡ geometry.now.segments) nodes.items }
    requires settled { All (IsSettledPart D.Area) tokens.old.items }
    ensures count { IfOk result (λ parts. length parts.items ≡ length nodes.items) }
    ensures each { IfOk result (λ parts. All (IsLeftNode D.Area geometry.now) parts.items) }
    ensures received { IfOk result (λ parts. (place : ℕ) (part : ThePart D D.Area) (mine : Several Seat)
        → slice_get parts.items place ≡ Some part → slice_get seats.items place ≡ Some mine
        → AreReceived part.round part.stable.items part.known mine.items) }
    ensures settled { OnOk result (All (IsSettledPart D.Area) tokens.new.items) }
    ensures refused { IfErr result (λ fault. (fault ≡ NoMemory)
        ⊎ Any (λ node. StopsNode node.number fault) nodes.items) }
{
    let mut nodes = nodes;
    let mut seats = seats;
    let mut parts = Vec::with_capacity(alloc, nodes.len())?;
    for _ in 0..nodes.len() {
        let node = nodes.remove(0);
        let mine = seats.remove(0);
        parts.push_reserved(node.into_part(rt, alloc, geometry, mine, tokens)?);
    }
    Ok(parts)
}
