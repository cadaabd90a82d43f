//! Stores of zeros, and running nodes over them.
ghost use Rattle.std.specs.Prelude.{◌≡◌, true, IfOk, length};
ghost use Rattle.lc_record.specs.Geometry.{HasNumbers};
ghost use Rattle.lc_stage.specs.Seats.{commit_view, IsSeatOf, IsIdle};
ghost use Rattle.lc_cluster.specs.Cluster.{IsSeatAt};

use lc_cluster::Cluster;
use lc_disk::{Area, MemArea};
use lc_node::{Node, Put};
use lc_node_fixture::{WORDS, recovered};
use lc_record::Geometry;
use lc_recover::zero_areas;
use lc_stage::CommitSeat;
use std::alloc::Global;
use std::test::Fail;

/// The words of the least log: eight records of eight words fill it.
pub(crate) const LEAST_WORDS: u32 = 64;

/// A put of five bytes into segment 1.
pub(crate) const HELLO: Put<'static> = Put {
    segment: 1,
    offset: 3,
    bytes: b"hello",
};

/// So many nodes of one thread, two segments of two pages, and logs of so many words.
pub(crate) fn geometry(nodes: u16, words: u32) -> Result<Geometry, Fail>
    ensures { IfOk result (λ g. HasNumbers g nodes 1 2 2 words) }
{
    Ok(Geometry::new(nodes, 1, 2, 2, words).ok_or("these numbers are a geometry")?)
}

/// One node, two segments of two pages, and a log with room for all that a test commits.
pub(crate) fn two_segments() -> Result<Geometry, Fail>
    ensures { IfOk result (λ g. HasNumbers g 1 1 2 2 4096) }
{
    geometry(1, WORDS)
}

/// Areas of zeros in memory.
pub(crate) fn in_memory(alloc: Global) -> Result<Vec<MemArea>, Fail> {
    Ok(zero_areas(alloc, &two_segments()?)?)
}

/// A node over the store of these areas, and its first seat.
pub(crate) fn opened<D: Area + Drop>(
    alloc: Global,
    geometry: Geometry,
    areas: Vec<D>,
) -> Result<(Node<D>, CommitSeat), Fail>
    requires { geometry.nodes ≡ 1 }
    ensures own { IfOk result (λ made. IsSeatOf made.0.stage made.1) }
    ensures idle { IfOk result (λ made. IsIdle (commit_view made.1)) }
    ensures alone { IfOk result (λ made. made.0.is_alone ≡ true) }
{
    match Node::open(alloc, recovered(alloc, geometry, areas)?) {
        Ok(made) => Ok(made),
        Err(_) => Err(Fail::from("there is memory for a node")),
    }
}

/// A node over zeros with a log of so many words, and its first seat.
pub(crate) fn opened_on_zeros(
    alloc: Global,
    words: u32,
) -> Result<(Node<MemArea>, CommitSeat), Fail>
    ensures own { IfOk result (λ made. IsSeatOf made.0.stage made.1) }
    ensures idle { IfOk result (λ made. IsIdle (commit_view made.1)) }
    ensures alone { IfOk result (λ made. made.0.is_alone ≡ true) }
{
    let geometry = geometry(1, words)?;
    opened(alloc, geometry, zero_areas(alloc, &geometry)?)
}

/// A cluster of two nodes.
#[derive(Drop)]
pub(crate) struct Pair {
    pub(crate) cluster: Cluster<MemArea>,
    ghost two: { length cluster.members.items ≡ 2 },
}

/// Two nodes over zeros, and the first seat of each: segment 2 begins at the first node, segment 1 at the second.
pub(crate) fn opened_pair(alloc: Global) -> Result<(Pair, CommitSeat, CommitSeat), Fail>
    ensures first { IfOk result (λ made. IsSeatAt made.0.cluster 0 made.1) }
    ensures second { IfOk result (λ made. IsSeatAt made.0.cluster 1 made.2) }
{
    let geometry = geometry(2, WORDS)?;
    let areas = zero_areas(alloc, &geometry)?;
    match Cluster::open(alloc, recovered(alloc, geometry, areas)?) {
        Ok((cluster, seats)) => {
            let mut seats = seats;
            let first = seats.remove(0);
            let second = seats.remove(0);
            Ok((Pair { cluster }, first, second))
        }
        Err(_) => Err(Fail::from("there is memory for a cluster")),
    }
}
