//! Stores of several nodes, and the clusters over them.
ghost use Rattle.std.specs.Prelude.{◌≡◌, [], ℕ, IfOk, Some, length, slice_get};
ghost use Rattle.std.specs.Global.{Vec as Several};
ghost use Rattle.lc_record.specs.Geometry.{HasNumbers};
ghost use Rattle.lc_stage.specs.declared.seats.CommitSeat.{CommitSeat as Seat};
ghost use Rattle.lc_cluster.specs.Cluster.{IsSeatAt};

use lc_cluster::Cluster;
use lc_core::World;
use lc_disk::Area;
use lc_node::NodeFault;
use lc_node_fixture::recovered;
use lc_record::Geometry;
use lc_stage::CommitSeat;
use lc_store::into_world;
use std::alloc::{AllocError, Global};
use std::sync::Wait;
use std::test::Fail;

/// The segments of each store.
pub(crate) const SEGMENTS: u32 = 4;

/// So many nodes with logs of so many words, and segments of two pages.
pub(crate) fn geometry(nodes: u16, words: u32) -> Result<Geometry, Fail>
    ensures { IfOk result (λ g. HasNumbers g nodes 1 4 2 words) }
{
    Ok(Geometry::new(nodes, 1, SEGMENTS, 2, words).ok_or("these numbers are a geometry")?)
}

/// The nodes over the store of these areas, and a seat of each.
pub(crate) fn opened<D: Area + Drop>(
    alloc: Global,
    geometry: Geometry,
    areas: Vec<D>,
) -> Result<(Cluster<D>, Vec<CommitSeat>), Fail>
    ensures nodes { IfOk result (λ made. length made.0.members.items ≡ geometry.nodes) }
    ensures count { IfOk result (λ made. length made.1.items ≡ geometry.nodes) }
    ensures seats { IfOk result (λ made. (node : ℕ) (seat : Seat) → slice_get made.1.items node ≡ Some seat
        → IsSeatAt made.0 node seat) }
{
    match Cluster::open(alloc, recovered(alloc, geometry, areas)?) {
        Ok(made) => Ok(made),
        Err(_) => Err(Fail::from("there is memory for a cluster")),
    }
}

/// Two nodes over the store of these areas, and a seat of each. Segments of even numbers begin at the first node.
pub(crate) fn opened_two<D: Area + Drop>(
    alloc: Global,
    geometry: Geometry,
    areas: Vec<D>,
) -> Result<(Cluster<D>, CommitSeat, CommitSeat), Fail>
    requires { geometry.nodes ≡ 2 }
    ensures nodes { IfOk result (λ made. length made.0.members.items ≡ 2) }
    ensures first { IfOk result (λ made. IsSeatAt made.0 0 made.1) }
    ensures second { IfOk result (λ made. IsSeatAt made.0 1 made.2) }
{
    let (cluster, seats) = opened(alloc, geometry, areas)?;
    let mut seats = seats;
    let first = seats.remove(0);
    let second = seats.remove(0);
    Ok((cluster, first, second))
}

// No seat of so many nodes.
fn no_seats(alloc: Global, nodes: u16) -> Result<Vec<Vec<CommitSeat>>, AllocError>
    ensures count { IfOk result (λ seats. length seats.items ≡ nodes) }
    ensures none { IfOk result (λ seats. (node : ℕ) (mine : Several Seat) → slice_get seats.items node ≡ Some mine
        → mine.items ≡ []) }
{
    let mut seats = Vec::new(alloc);
    for _ in 0..nodes {
        seats.push(Vec::new(alloc))?;
    }
    Ok(seats)
}

/// The store that a cluster becomes, whose seats are gone.
pub(crate) fn come_up<D: Area + Drop, R: Wait>(
    rt: &R,
    alloc: Global,
    cluster: Cluster<D>,
) -> Result<World<D>, NodeFault> {
    let Ok(seats) = no_seats(alloc, cluster.nodes()) else {
        return Err(NodeFault::NoMemory);
    };
    into_world(cluster, rt, alloc, seats)
}
