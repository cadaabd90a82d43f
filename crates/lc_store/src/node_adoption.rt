//! A node that ran alone becomes a store, once its threads have ended.
ghost use Rattle.std.specs.Prelude.{◌≡◌, All, IfErr, IfOk, [], ◌∷◌, true};
ghost use Rattle.lc_log_side.specs.LeftBy.{IsIdleSeatOf};
ghost use Rattle.lc_store.specs.LeftBy.{IsLeftBy};
ghost use Rattle.lc_store.specs.Refusals.{StopsCluster};

use lc_core::World;
use lc_disk::Area;
use lc_node::{Node, NodeFault};
use lc_stage::CommitSeat;
use std::alloc::Global;
use std::sync::Wait;

/// The store of one node that a node leaves which was opened alone, once its threads have ended: it is up, and has all
/// records that were closed, those that are staged as well as those that are stable. `World::flush` makes the staged
/// ones stable, and `World::into_areas` gives the areas back. Each record of which one of the committers' seats has a
/// receipt stands in the log, or is of an earlier round and known clean. It waits for each lock, so who still has a log
/// or a segment lets it wait for ever.
///
/// # Errors
///
/// Those of `into_world`. The node is gone.
pub fn node_into_world<D: Area + Drop, R: Wait>(
    node: Node<D>,
    rt: &R,
    alloc: Global,
    seats: Vec<CommitSeat>,
) -> Result<World<D>, NodeFault>
    requires alone { node.is_alone ≡ true }
    requires own { All (IsIdleSeatOf node.stage) seats.items }
    ensures adopted { IfOk result (λ world. IsLeftBy D.Area node.geometry (seats ∷ []) world) }
    ensures which { IfErr result (StopsCluster D.Area node.geometry) }
{
    let parts = node.into_parts(rt, alloc, seats)?;
    Ok(World::adopt(alloc, parts)?)
}
