//! All nodes of a recovered store come up.
ghost use Rattle.std.specs.Prelude.{◌≡◌, All, List, length, IfErr, IfOk};
ghost use Rattle.lc_recover.specs.Reads.{HaveLengths};
ghost use Rattle.lc_recover.specs.Recovered.{AreFinished};
ghost use Rattle.lc_node.specs.FreshNode.{AreFreshNodes, ComeUp};
ghost use Rattle.lc_node.specs.OpenedNode.{IsOpened, StandByNumber};
ghost use Rattle.lc_node.specs.declared.fresh_node.FreshNode.{FreshNode as Fresh};
ghost use Rattle.lc_segments.specs.declared.node_fault.NodeFault.TheVariants.{NoMemory};

use lc_disk::Area;
use lc_node::{OpenedNode, open_first};
use lc_recover::Recovered;
use lc_segments::NodeFault;
use std::alloc::Global;

/// All nodes of a recovered store, in the order of their numbers, each with its own log, and the first committer's seat
/// of each. The token of a segment is at the node whose number is the segment's modulo the number of nodes. All memory
/// is taken before the store is taken apart.
///
/// # Errors
///
/// `NoMemory`, which alone it may lack. The store comes back as it was.
pub(crate) fn open_nodes<D: Area + Drop>(
    alloc: Global,
    recovered: Recovered<D>,
) -> Result<Vec<OpenedNode<D>>, (Recovered<D>, NodeFault)>
    requires lengths { HaveLengths D.Area recovered.geometry recovered.areas }
    requires finished { AreFinished D.Area recovered }
    ensures count { IfOk result (λ nodes. length nodes.items ≡ recovered.geometry.nodes) }
    ensures each { IfOk result (λ nodes. All (IsOpened recovered) nodes.items) }
    ensures numbered { IfOk result (λ nodes. StandByNumber nodes.items) }
    ensures comes_up { IfOk result (λ nodes. (fresh : List (Fresh D))
        × AreFreshNodes recovered recovered.geometry.nodes fresh × ComeUp fresh nodes.items) }
    ensures back { IfErr result (λ back. (back.0 ≡ recovered) × (back.1 ≡ NoMemory)) }
{
    let nodes = recovered.geometry().nodes;
    open_first(alloc, recovered, nodes)
}
