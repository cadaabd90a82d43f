//! The calls of a cluster.
ghost use Rattle.std.specs.Prelude.{◌≡◌, ◌<◌, Some, length, slice_get, IfOk, IfErr, OnErr};
ghost use Rattle.lc_lock.specs.Loans.{key_of};
ghost use Rattle.lc_cluster.specs.Calls.{SpreadsAt};
ghost use Rattle.lc_cluster.specs.Cluster.{HasNode, node_at};
ghost use Rattle.lc_cluster.specs.Keys.{HasOwnKey};
ghost use Rattle.lc_cluster.specs.Wiring.{HasPeers};
ghost use Rattle.lc_segments.specs.declared.node_fault.NodeFault.TheVariants.{NoMemory};

use crate::cluster::Cluster;
use crate::member::Member;
use crate::spreading::Spread;
use lc_disk::Area;
use lc_node::Node;
use lc_segments::NodeFault;
use std::alloc::Global;
use std::sync::Wait;

impl<D: Area + Drop> Cluster<D> {
    /// How many nodes there are.
    pub fn nodes(&self) -> u16
        ensures { result ≡ length self.now.members.items }
    {
        self.members.len() as u16
    }

    /// The node with this number, from 0.
    pub fn node(&self, node: u16) -> &Node<D>
        requires { HasNode self.now node }
        ensures node { node_at self.now node ≡ Some result.now }
        ensures number { result.now.number ≡ node }
    {
        self.member(node).node.node()
    }

    /// Sends the peers of a node the records that it has published and they lack: see `SendEnds::spread`. It waits for
    /// the lock of the log, and then for that of the sending ends.
    ///
    /// # Errors
    ///
    /// `NoMemory`, where there is a peer, and nothing was sent.
    pub fn spread<R: Wait>(&self, rt: &R, alloc: Global, node: u16) -> Result<Spread, NodeFault>
        requires { HasNode self.now node }
        ensures spread { IfOk result (λ spread. SpreadsAt self.now node spread) }
        ensures refused { IfErr result (λ fault. fault ≡ NoMemory) }
        ensures memory { OnErr result (1 < length self.now.members.items) }
    {
        let member = self.member(node);
        let log_lock = member.node.node().log_lock();
        let (log, log_loan) = log_lock.lock(rt);
        let (mut ends, ends_loan) = member.to.lock(rt);
        let spread = ends.spread(rt, alloc, &log);
        member.to.unlock(ends, ends_loan);
        log_lock.unlock(log, log_loan);
        spread
    }

    // The node with this number, with its ends of the lines.
    pub(crate) fn member(&self, node: u16) -> &Member<D>
        requires { HasNode self.now node }
        ensures member { slice_get self.now.members.items node ≡ Some result.now }
        ensures number { result.now.node.number ≡ node }
        ensures peers { HasPeers (length self.now.members.items) (key_of result.now.to) }
        ensures one_key { HasOwnKey result.now }
    {
        &self.members[node as usize]
    }
}
