//! The sending end to a peer.
ghost use Rattle.std.specs.Prelude.{◌≡◌, ◌≤◌, length};
ghost use Rattle.lc_line.specs.Ends.{sent_on};
ghost use Rattle.lc_cluster.specs.Messages.{records_in, words_of};

use lc_line::SendEnd;
use lc_node::Message;

/// The sending end to a peer, how many published records were sent on it, and how many words they have: the next begins
/// after so many words of what is published. It knows whether a message was refused because the receiving end is gone.
#[derive(Drop)]
pub struct PeerEnd<P: Drop> {
    pub(crate) end: SendEnd<Message<P>>,
    pub(crate) count: u64,
    pub(crate) place: usize,
    pub(crate) gone: bool,
    ghost counted: { count ≡ length (records_in (sent_on end)) },
    ghost placed: { place ≡ words_of (records_in (sent_on end)) },
    ghost filled: { count ≤ place },
}
