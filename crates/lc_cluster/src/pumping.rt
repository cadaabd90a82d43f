//! The next message of a peer is handed to the node, and kept where it is refused.
ghost use Rattle.std.specs.Prelude.{◌≡◌, ◌≢◌, ◌<◌, ℕ, List, length, slice_get, IfOk, IfErr, OnErr};
ghost use Rattle.lc_node.specs.Held.{IsUnheld};
ghost use Rattle.lc_cluster.specs.Receiving.{SameOrigins};
ghost use Rattle.lc_segments.specs.Journey.{Journey};
ghost use Rattle.lc_cluster.specs.Pumping.{GoesOn, IsGoneOn};
ghost use Rattle.lc_cluster.specs.Reached.{Pumps};
ghost use Rattle.lc_node.specs.declared.message.Message.{Message as Sent};

use crate::recv_ends::RecvEnds;
use lc_disk::Area;
use lc_node::{PeerNode, Pumped};
use lc_segments::{NodeFault, Travelling};
use std::alloc::Global;
use std::sync::Wait;

impl<D: Area + Drop> RecvEnds<Travelling<D>> {
    /// Goes on with the next message of a peer, by its place among the peers: the one that is kept, and else the next
    /// that is taken. A record is taken in at all its segments, a token arrives or waits. A message that is refused is
    /// kept for the next call.
    pub(crate) fn pump<R: Wait>(
        &mut self,
        rt: &R,
        alloc: Global,
        node: &PeerNode<D>,
        peer: usize,
    ) -> Result<Pumped, NodeFault>
        requires peer { peer < length self.old.ends.items }
        ensures pumps { Pumps node.now self.old.ends.items peer result self.new.ends.items }
        ensures gone_on { (gone : List (Sent (Journey D))) → IsGoneOn self.old.ends.items peer gone
            → IfOk result (λ pumped. GoesOn pumped gone self.new.ends.items peer) }
        ensures kept { (gone : List (Sent (Journey D))) → IsGoneOn self.old.ends.items peer gone
            → OnErr result (IsGoneOn self.new.ends.items peer gone) }
        ensures refused { IfErr result IsUnheld }
        ensures others { (other : ℕ) → other ≢ peer
            → slice_get self.new.ends.items other ≡ slice_get self.old.ends.items other }
        ensures count { length self.new.ends.items ≡ length self.old.ends.items }
        ensures lines { SameOrigins self.old.ends.items self.new.ends.items }
    {
        let Some(message) = self.next_at(rt, peer) else {
            return Ok(Pumped::Empty);
        };
        let (pumped, back) = node.receive(rt, alloc, message);
        if let Some(message) = back {
            self.keep_at(peer, message);
        }
        pumped
    }
}
