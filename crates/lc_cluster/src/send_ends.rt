//! The sending ends of a node.
ghost use Rattle.std.specs.Prelude.{◌≡◌};
ghost use Rattle.lc_cluster.specs.Spread.{SameLines};

use crate::peer_end::PeerEnd;
use crate::wiring::NodeEnds;
use lc_lock::Keyed;

/// The sending end to each peer of a node. It stands behind a lock of its own, beside the log's. This project's own.
#[derive(Drop)]
pub struct SendEnds<P: Drop> {
    pub(crate) ends: Vec<PeerEnd<P>>,
}

// Each on the line that it had when the nodes were wired.
impl<P: Drop> Keyed<NodeEnds<P>> for SendEnds<P> {
    ghost fits = { λ wired ends. SameLines wired.to.ends.items ends.ends.items };
}

impl<P: Drop> SendEnds<P> {
    /// These ends.
    pub fn new(ends: Vec<PeerEnd<P>>) -> SendEnds<P>
        ensures { result.ends ≡ ends }
    {
        SendEnds { ends }
    }
}
