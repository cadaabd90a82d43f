//! What a service does at a node of a cluster.
ghost use Rattle.std.specs.Prelude.{◌≢◌, Result};
ghost use Rattle.lc_cluster.specs.Calls.{PumpsAt};
ghost use Rattle.lc_cluster.specs.Cluster.{HasNode};
ghost use Rattle.lc_segments.specs.declared.node_fault.NodeFault.{NodeFault as Fault};
ghost use Rattle.lc_node.specs.declared.pumped.Pumped.{Pumped as Answer};
ghost use Rattle.lc_committer.specs.Round.{IsUnkeptAt, WasKeptAt};

use crate::Upkeep;
use crate::round::Round;
use lc_cluster::Cluster;
use lc_disk::Area;
use lc_node::{NodeFault, Pumped};
use std::sync::Wait;

// So many messages of a peer are gone on with in a round: as many as a line holds.
const MOST_MESSAGES: u32 = 64;

/// A node of a cluster, by its number.
#[derive(Drop)]
pub(crate) struct ClusterNode<'a, D: Area + Drop> {
    pub(crate) cluster: &'a Cluster<D>,
    pub(crate) number: u16,
    ghost there: { HasNode cluster.now number },
}

impl<D: Area + Drop> Round for ClusterNode<'_, D> {
    ghost kept = { λ upkeep at. WasKeptAt D.Area upkeep at.cluster.now at.number };

    ghost unkept = { λ at. IsUnkeptAt D.Area at.cluster.now at.number };

    /// It sends what is published, goes on with what came, and trims, too.
    fn round<R: AllocGlobal + Wait>(&self, rt: &R, upkeep: &Upkeep) -> Result<(), NodeFault> {
        self.cluster.node(self.number).round(rt, upkeep)?;
        let _spread = self.cluster.spread(rt, rt.alloc(), self.number);
        for peer in 0..self.cluster.nodes() {
            if peer != self.number {
                pump_all(rt, self.cluster, self.number, peer);
            }
        }
        self.cluster.trim(rt, self.number);
        Ok(())
    }
}

/// Goes on with what a peer has sent a node of a cluster, up to 64 messages.
pub(crate) fn pump_all<D: Area + Drop, R: AllocGlobal + Wait>(
    rt: &R,
    cluster: &Cluster<D>,
    to: u16,
    from: u16,
)
    requires apart { to ≢ from }
    requires within { HasNode cluster.now to × HasNode cluster.now from }
    ensures pumped { (answer : Result Answer Fault) × PumpsAt cluster.now to from answer }
{
    for _ in 0..MOST_MESSAGES {
        match cluster.pump(rt, rt.alloc(), to, from) {
            Ok(Pumped::Empty) | Err(_) => return,
            Ok(_) => {}
        }
    }
}
