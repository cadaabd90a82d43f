//! The threads of a cluster.
ghost use Rattle.std.specs.Prelude.{◌≡◌, ◌≢◌, ◌<◌, ◌≤◌, ℕ, Some, length, slice_get};
ghost use Rattle.lc_stage.specs.Seats.{commit_view, IsIdle, IsSeatOf};
ghost use Rattle.lc_stage.specs.declared.seats.CommitSeat.{CommitSeat as Seat};
ghost use Rattle.lc_cluster.specs.Cluster.{IsSeatAt};

use lc_cluster::Cluster;
use lc_disk::Area;
use lc_node::Node;
use lc_stage::CommitSeat;
use std::alloc::{AllocError, Global};

/// How many threads each node has.
pub(crate) const THREADS: u32 = 3;

/// A thread of a node, and its number among all.
#[derive(Drop)]
pub(crate) struct Worker<'a, D: Area + Drop> {
    pub(crate) cluster: &'a Cluster<D>,
    pub(crate) node: &'a Node<D>,
    pub(crate) number: u16,
    pub(crate) index: u32,
    pub(crate) seat: CommitSeat,
    ghost some: { 2 ≤ length cluster.now.members.items },
    ghost within: { number < length cluster.now.members.items },
    ghost own: { IsSeatOf node.now.stage seat },
    ghost idle: { IsIdle (commit_view seat) },
}

/// The node after this one.
pub(crate) fn behind(nodes: u16, node: u16) -> u16
    requires some { 2 ≤ nodes }
    requires within { node < nodes }
    ensures within { result < nodes }
    ensures apart { node ≢ result }
{
    if node + 1 < nodes { node + 1 } else { 0 }
}

/// The threads of all nodes, those of one node after another.
pub(crate) fn workers<'a, D: Area + Drop>(
    alloc: Global,
    cluster: &'a Cluster<D>,
    seats: Vec<CommitSeat>,
) -> Result<Vec<Worker<'a, D>>, AllocError>
    requires some { 2 ≤ length cluster.now.members.items }
    requires few { length cluster.now.members.items ≤ 4 }
    requires count { length seats.items ≡ length cluster.now.members.items }
    requires seats { (node : ℕ) (seat : Seat) → slice_get seats.items node ≡ Some seat
        → IsSeatAt cluster.now node seat }
{
    let mut seats = seats;
    let mut workers = Vec::new(alloc);
    for number in 0..cluster.nodes() {
        let seat = seats.remove(0);
        add_workers(&mut workers, cluster, number, seat)?;
    }
    Ok(workers)
}

// The threads of a node.
fn add_workers<'a, D: Area + Drop>(
    workers: &mut Vec<Worker<'a, D>>,
    cluster: &'a Cluster<D>,
    number: u16,
    seat: CommitSeat,
) -> Result<(), AllocError>
    requires some { 2 ≤ length cluster.now.members.items }
    requires few { length cluster.now.members.items ≤ 4 }
    requires within { number < length cluster.now.members.items }
    requires own { IsSeatAt cluster.now number seat }
{
    let node = cluster.node(number);
    let mut seat = seat;
    for index in 0..THREADS {
        workers.push(Worker {
            cluster,
            node,
            number,
            index: u32::from(number) * THREADS + index,
            seat: node.split(&mut seat),
        })?;
    }
    Ok(())
}
