//! The receiving end from a peer.
ghost use Rattle.std.specs.Prelude.{◌≡◌, ◌++◌, ◌∷◌, [], MatchOption, IsSome, Some, None};
ghost use Rattle.lc_cluster.specs.Receiving.{taken_of, origin_of};

use lc_line::RecvEnd;
use lc_node::Message;
use std::sync::Wait;

/// The receiving end from a peer, and the message that was taken last where it is still to be gone on with. This
/// project's own.
#[derive(Drop)]
pub struct PeerInbox<P: Drop> {
    pub(crate) end: RecvEnd<Message<P>>,
    pub(crate) kept: Option<Message<P>>,
}

impl<P: Drop> PeerInbox<P> {
    /// The end from a peer, with no message that is to be gone on with.
    pub fn new(end: RecvEnd<Message<P>>) -> PeerInbox<P>
        ensures end { result.end ≡ end }
        ensures kept { result.kept ≡ None }
    {
        PeerInbox { end, kept: None }
    }

    // The next message of the peer.
    pub(crate) fn take<R: Wait>(&mut self, rt: &R) -> Option<Message<P>>
        ensures taken { MatchOption result (taken_of self.new ≡ taken_of self.old) (λ message. taken_of self.new
            ≡ taken_of self.old ++ message ∷ []) }
        ensures kept { self.new.kept ≡ self.old.kept }
        ensures origin { origin_of self.new ≡ origin_of self.old }
    {
        self.end.take(rt)
    }

    // The message that is to be gone on with, or the next.
    pub(crate) fn next<R: Wait>(&mut self, rt: &R) -> Option<Message<P>>
        ensures again { IsSome self.old.kept → (result ≡ self.old.kept) × (taken_of self.new ≡ taken_of self.old) }
        ensures taken { self.old.kept ≡ None
            → MatchOption result (taken_of self.new ≡ taken_of self.old) (λ message. taken_of self.new
            ≡ taken_of self.old ++ message ∷ []) }
        ensures none_kept { self.new.kept ≡ None }
        ensures origin { origin_of self.new ≡ origin_of self.old }
    {
        match self.kept.take() {
            Some(message) => Some(message),
            None => self.end.take(rt),
        }
    }

    // Keeps a message.
    pub(crate) fn keep(&mut self, message: Message<P>)
        ensures kept { self.new.kept ≡ Some message }
        ensures end { self.new.end ≡ self.old.end }
    {
        self.kept = Some(message);
    }
}
