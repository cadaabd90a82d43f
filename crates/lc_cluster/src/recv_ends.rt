//! The receiving ends of a node.
ghost use Rattle.std.specs.Prelude.{◌≡◌};
ghost use Rattle.lc_cluster.specs.Receiving.{SameOrigins};

use crate::peer_inbox::PeerInbox;
use crate::wiring::NodeEnds;
use lc_lock::Keyed;

/// The receiving end from each peer of a node, whose number it knows. It stands behind a lock of its own.
#[derive(Drop)]
pub struct RecvEnds<P: Drop> {
    pub(crate) node: u16,
    pub(crate) ends: Vec<PeerInbox<P>>,
}

// Each of the line that it had when the nodes were wired.
impl<P: Drop> Keyed<NodeEnds<P>> for RecvEnds<P> {
    ghost fits = { λ wired ends. SameOrigins wired.from.ends.items ends.ends.items };
}

impl<P: Drop> RecvEnds<P> {
    /// These ends of the node with this number, one from each other node, in the order of their numbers.
    pub fn new(node: u16, ends: Vec<PeerInbox<P>>) -> RecvEnds<P>
        ensures node { result.node ≡ node }
        ensures ends { result.ends ≡ ends }
    {
        RecvEnds { node, ends }
    }
}
