//! A cluster whose threads have ended becomes a store.
ghost use Rattle.std.specs.Prelude.{IfErr, IfOk};
ghost use Rattle.lc_cluster.specs.LeftBy.{AreOwnSeats};
ghost use Rattle.lc_store.specs.LeftBy.{IsLeftBy};
ghost use Rattle.lc_store.specs.Refusals.{StopsCluster};

use lc_cluster::Cluster;
use lc_core::World;
use lc_disk::Area;
use lc_node::NodeFault;
use lc_stage::CommitSeat;
use std::alloc::Global;
use std::sync::Wait;

/// The store that the cluster leaves once its threads have ended, which is up: it has all records that were closed,
/// those that are staged as well as those that are stable. For each node there is a list of its committers' seats,
/// which may be empty: each record of which one of them has a receipt stands in the node's log, or is of an earlier
/// round and known clean. It waits for each lock, so who still has a log or a segment lets it wait for ever.
///
/// # Errors
///
/// `Mismatch` of a part that does not fit: what `Cluster::into_parts` refuses, and what `World::adopt` says.
/// `NoMemory`; `DeviceFault` where an area could not be read. The cluster is gone.
pub fn into_world<D: Area + Drop, R: Wait>(
    cluster: Cluster<D>,
    rt: &R,
    alloc: Global,
    seats: Vec<Vec<CommitSeat>>,
) -> Result<World<D>, NodeFault>
    requires own { AreOwnSeats cluster seats.items }
    ensures adopted { IfOk result (λ world. IsLeftBy D.Area cluster.geometry seats.items world) }
    ensures which { IfErr result (StopsCluster D.Area cluster.geometry) }
{
    let parts = cluster.into_parts(rt, alloc, seats)?;
    Ok(World::adopt(alloc, parts)?)
}
