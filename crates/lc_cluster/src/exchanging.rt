//! Tokens and records go from node to node.
ghost use Rattle.std.specs.Prelude.{◌≡◌, ◌≢◌, IfErr};
ghost use Rattle.lc_cluster.specs.Calls.{HandsOverAt, HasSegmentAt, LacksTokenAt, PumpsAt};
ghost use Rattle.lc_cluster.specs.Cluster.{HasNode};
ghost use Rattle.lc_node.specs.Held.{IsUnheld};
ghost use Rattle.lc_node.specs.Parting.{IsUngiven};

use crate::cluster::Cluster;
use crate::line_to_peer::LineToPeer;
use crate::peers::place_of;
use lc_disk::Area;
use lc_node::Pumped;
use lc_segments::NodeFault;
use std::alloc::Global;
use std::sync::Wait;

impl<D: Area + Drop> Cluster<D> {
    /// Gives the token of a segment from one node to another, with the area of the segment's pages. It waits for the
    /// locks of the segment, the log and the sending ends, and takes no memory.
    ///
    /// # Errors
    ///
    /// `Halted` where a call of the device of the log or of the segment's pages has failed. After that, as `Token`:
    /// `NotHere` where the token is elsewhere or there is no such segment, and `Unflushed` where not all that the node
    /// reserved is stable. `ChannelFull` where the line to the other node held 64 messages at one moment, or its
    /// receiving end is gone. After each of them the token stands where it was.
    pub fn give<R: Wait>(&self, rt: &R, from: u16, to: u16, segment: u32) -> Result<(), NodeFault>
        requires apart { from ≢ to }
        requires within { HasNode self.now from × HasNode self.now to }
        ensures gives { HasSegmentAt self.now from segment → HandsOverAt D.Area self.now from to segment result }
        ensures no_segment { (HasSegmentAt self.now from segment → ⊥) → LacksTokenAt self.now from segment result }
        ensures refused { IfErr result (IsUngiven segment to) }
    {
        let member = self.member(from);
        let line = LineToPeer::new(&member.to, place_of(from, to));
        member.node.part_with(rt, segment, to, &line)
    }

    /// Goes on with the next message that one node sent another. A record is taken in at all segments on which it has
    /// locks, and the answer is that of the least; a token arrives, or waits. It waits for the locks of the receiving
    /// ends and of these segments.
    ///
    /// # Errors
    ///
    /// `NoMemory`: the message is kept for the next call, and nothing else has changed, but that applied parts may be
    /// folded. `NotHere` of a segment of the record that the node does not have, as no record of this store has.
    pub fn pump<R: Wait>(
        &self,
        rt: &R,
        alloc: Global,
        to: u16,
        from: u16,
    ) -> Result<Pumped, NodeFault>
        requires apart { to ≢ from }
        requires within { HasNode self.now to × HasNode self.now from }
        ensures pumps { PumpsAt self.now to from result }
        ensures refused { IfErr result IsUnheld }
    {
        let member = self.member(to);
        let (mut ends, loan) = member.from.lock(rt);
        let pumped = ends.pump(rt, alloc, &member.node, place_of(to, from));
        member.from.unlock(ends, loan);
        pumped
    }
}
