//! How areas become a running node.
ghost use Rattle.std.specs.Prelude.{◌≡◌, true, length, IfErr, IfOk};
ghost use Rattle.lc_record.specs.Geometry.{HasNumbers};
ghost use Rattle.lc_stage.specs.Staging.{newcomer};
ghost use Rattle.lc_stage.specs.Seats.{commit_view, IsSeatOf};
ghost use Rattle.lc_store.specs.Running.{RefusesNode, RunsOn};

use crate::StoreOpenFault;
use crate::recovering::recovered_on;
use lc_core::CallFault;
use lc_disk::Area;
use lc_node::Node;
use lc_record::Geometry;
use lc_stage::CommitSeat;
use std::alloc::Global;

/// The running node of these areas, the logs of the nodes and then the segments, with the first seat: `recovered_on`,
/// and then `Node::open`. Where the store has several nodes this is the first of them, with all segments.
///
/// # Errors
///
/// As of `recovered_on`; and `NotUp` with `NoMemory` where there is none for the node. The areas are gone.
pub fn node_on<D: Area + Drop>(
    alloc: Global,
    geometry: Geometry,
    areas: Vec<D>,
) -> Result<(Node<D>, CommitSeat), StoreOpenFault>
    ensures runs { IfOk result (λ made. RunsOn D.Area geometry areas.items made.0 made.1) }
    ensures seat { IfOk result (λ made. IsSeatOf made.0.stage made.1
        × (commit_view made.1 ≡ newcomer geometry.words)) }
    ensures number { IfOk result (λ made. made.0.number ≡ 0) }
    ensures room { IfOk result (λ made. made.0.stage.room ≡ geometry.words) }
    ensures segments { IfOk result (λ made. length made.0.segments.items ≡ geometry.segments) }
    ensures geometry { IfOk result (λ made.
        HasNumbers made.0.geometry 1 geometry.threads geometry.segments geometry.pages geometry.words) }
    ensures alone { IfOk result (λ made. made.0.is_alone ≡ true) }
    ensures refuses { IfErr result (RefusesNode D.Area geometry areas.items) }
{
    let recovered = recovered_on(alloc, geometry, areas)?;
    match Node::open(alloc, recovered) {
        Ok(up) => Ok(up),
        Err(_) => Err(StoreOpenFault::NotUp(CallFault::NoMemory)),
    }
}
