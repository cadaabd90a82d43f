//! A node that has peers.
ghost use Rattle.std.specs.Prelude.{◌≡◌, false, All, IfErr, IfOk, OnOk, vec_len};
ghost use Rattle.lc_stage.specs.Seats.{IsFlusherOf};
ghost use Rattle.lc_log_side.specs.LeftBy.{AreReceived, IsIdleSeatOf};
ghost use Rattle.lc_log_side.specs.Published.{published};
ghost use Rattle.lc_log_side.specs.Trimming.{TrimsLog};
ghost use Rattle.lc_segments.specs.LeftBy.{IsSettledPart};
ghost use Rattle.lc_node.specs.LeftBy.{IsLeftNode, StoodBehind};
ghost use Rattle.lc_node.specs.Refusals.{StopsNode};

use crate::node::Node;
use lc_disk::Area;
use lc_log_side::LogSide;
use lc_record::Geometry;
use lc_rest::{NodePart, SegmentPart};
use lc_segments::NodeFault;
use lc_stage::CommitSeat;
use std::alloc::Global;
use std::marker::Model;
use std::sync::Wait;

/// A node that has peers, as its cluster keeps it. By this alone the node takes in what peers sent, parts with a token,
/// drops records that no peer wants, and comes to rest. A message carries no proof of its origin, so a cluster keeps
/// this to itself and lends the node. Contracts see the node.
#[derive(Drop)]
pub struct PeerNode<D: Area + Drop> {
    pub(crate) inner: Node<D>,
}

impl<D: Area + Drop> Model for PeerNode<D> {
    ghost use Rattle.lc_node.specs.declared.node.Node.{Node as TheNode};

    ghost Value = { TheNode D };

    ghost view = { λ peer. peer.inner };
}

impl<D: Area + Drop> PeerNode<D> {
    /// Makes a peer of a node that was not opened alone.
    pub fn new(node: Node<D>) -> PeerNode<D>
        requires { node.is_alone ≡ false }
        ensures { result ≡ node }
    {
        PeerNode { inner: node }
    }

    /// Lends the node, whose calls any thread may make.
    pub fn node(&self) -> &Node<D>
        ensures { result.now ≡ self.now }
    {
        &self.inner
    }

    /// Drops records from the front of those of the rounds that have ended, in a log whose lock the caller has: see
    /// `LogSide::trim`.
    pub fn trim(&self, log: &mut LogSide<D>, applied: &[u64], dropped: &mut [u64]) -> u64
        requires own { IsFlusherOf self.now.stage log.old.flusher }
        ensures trimmed { TrimsLog applied.now dropped.old log.old result log.new dropped.new }
        ensures published { published log.new ≡ published log.old }
    {
        log.trim(&self.inner.stage, applied, dropped)
    }

    /// Takes the node apart once its threads have ended: see `Node::into_parts`. Its tokens go after these.
    ///
    /// # Errors
    ///
    /// `Mismatch` of the node's log or its seats. `NoMemory`.
    pub fn into_part<R: Wait>(
        self,
        rt: &R,
        alloc: Global,
        geometry: &Geometry,
        seats: Vec<CommitSeat>,
        tokens: &mut Vec<SegmentPart<D>>,
    ) -> Result<NodePart<D>, NodeFault>
        requires seats { All (IsIdleSeatOf self.stage) seats.items }
        requires segments { vec_len self.segments ≡ geometry.now.segments }
        requires settled { All (IsSettledPart D.Area) tokens.old.items }
        ensures part { IfOk result (λ part. IsLeftNode D.Area geometry.now part) }
        ensures received { IfOk result (λ part. AreReceived part.round part.stable.items part.known seats.items) }
        ensures behind { IfOk result (λ part.
            StoodBehind self.number self.segments.items part.images.items part.applied.items tokens.old.items
            tokens.new.items) }
        ensures settled { OnOk result (All (IsSettledPart D.Area) tokens.new.items) }
        ensures refused { IfErr result (StopsNode self.number) }
    {
        self.inner.into_part(rt, alloc, geometry, seats, tokens)
    }
}
