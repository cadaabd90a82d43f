//! A node of a cluster.
use crate::recv_ends::RecvEnds;
use crate::send_ends::SendEnds;
use crate::wiring::NodeEnds;
use lc_disk::Area;
use lc_lock::TicketLock;
use lc_node::PeerNode;
use lc_segments::Travelling;

/// A node of a cluster, and its ends of the lines to and from its peers, each behind a lock of its own. The locks know
/// the lines.
#[derive(Drop)]
pub(crate) struct Member<D: Area + Drop> {
    pub(crate) node: PeerNode<D>,
    pub(crate) to: TicketLock<SendEnds<Travelling<D>>, NodeEnds<Travelling<D>>>,
    pub(crate) from: TicketLock<RecvEnds<Travelling<D>>, NodeEnds<Travelling<D>>>,
}
