//! What a node takes of what its peers send it.
ghost use Rattle.std.specs.Prelude.{◌≡◌, ◌≢◌, ◌<◌, ◌++◌, ◌∷◌, [], ℕ, length, slice_get, MatchOption, IsSome, Some};
ghost use Rattle.std.specs.Prelude.{None};
ghost use Rattle.lc_cluster.specs.Peers.{place_of};
ghost use Rattle.lc_cluster.specs.Receiving.{taken_at, kept_at, SameOrigins};

use crate::peers::place_of;
use crate::recv_ends::RecvEnds;
use lc_node::Message;
use std::sync::Wait;

impl<P: Drop> RecvEnds<P> {
    /// Takes the next message of a peer, which is another node, by its number; `None` where none was there at one
    /// moment of the call, which no clause says. It waits for no message to be sent, and takes no memory.
    pub fn take<R: Wait>(&mut self, rt: &R, from: u16) -> Option<Message<P>>
        requires peer { (self.old.node ≢ from) × (place_of self.old.node from < length self.old.ends.items) }
        ensures taken { MatchOption result
            (taken_at self.new.ends.items (place_of self.old.node from)
            ≡ taken_at self.old.ends.items (place_of self.old.node from)) (λ message.
            taken_at self.new.ends.items (place_of self.old.node from)
            ≡ taken_at self.old.ends.items (place_of self.old.node from) ++ message ∷ []) }
        ensures kept { kept_at self.new.ends.items (place_of self.old.node from)
            ≡ kept_at self.old.ends.items (place_of self.old.node from) }
        ensures others { (other : ℕ) → other ≢ place_of self.old.node from
            → slice_get self.new.ends.items other ≡ slice_get self.old.ends.items other }
        ensures count { length self.new.ends.items ≡ length self.old.ends.items }
        ensures lines { SameOrigins self.old.ends.items self.new.ends.items }
        ensures node { self.new.node ≡ self.old.node }
    {
        self.take_at(rt, place_of(self.node, from))
    }
}

impl<P: Drop> RecvEnds<P> {
    // Takes the next message of a peer, by its place among the peers.
    fn take_at<R: Wait>(&mut self, rt: &R, peer: usize) -> Option<Message<P>>
        requires peer { peer < length self.old.ends.items }
        ensures taken { MatchOption result
            (taken_at self.new.ends.items peer ≡ taken_at self.old.ends.items peer) (λ message.
            taken_at self.new.ends.items peer ≡ taken_at self.old.ends.items peer ++ message ∷ []) }
        ensures kept { kept_at self.new.ends.items peer ≡ kept_at self.old.ends.items peer }
        ensures others { (other : ℕ) → other ≢ peer
            → slice_get self.new.ends.items other ≡ slice_get self.old.ends.items other }
        ensures count { length self.new.ends.items ≡ length self.old.ends.items }
        ensures lines { SameOrigins self.old.ends.items self.new.ends.items }
        ensures node { self.new.node ≡ self.old.node }
    {
        let inbox = &mut self.ends[peer];
        inbox.take(rt)
    }

    /// The message of a peer, by its place among the peers, that is to be gone on with.
    pub(crate) fn next_at<R: Wait>(&mut self, rt: &R, peer: usize) -> Option<Message<P>>
        requires peer { peer < length self.old.ends.items }
        ensures again { IsSome (kept_at self.old.ends.items peer)
            → (result ≡ kept_at self.old.ends.items peer)
            × (taken_at self.new.ends.items peer ≡ taken_at self.old.ends.items peer) }
        ensures taken { kept_at self.old.ends.items peer ≡ None
            → MatchOption result (taken_at self.new.ends.items peer ≡ taken_at self.old.ends.items peer) (λ message.
            taken_at self.new.ends.items peer ≡ taken_at self.old.ends.items peer ++ message ∷ []) }
        ensures none_kept { kept_at self.new.ends.items peer ≡ None }
        ensures others { (other : ℕ) → other ≢ peer
            → slice_get self.new.ends.items other ≡ slice_get self.old.ends.items other }
        ensures count { length self.new.ends.items ≡ length self.old.ends.items }
        ensures lines { SameOrigins self.old.ends.items self.new.ends.items }
        ensures node { self.new.node ≡ self.old.node }
    {
        let inbox = &mut self.ends[peer];
        inbox.next(rt)
    }

    /// Keeps a message of a peer, by its place among the peers.
    pub(crate) fn keep_at(&mut self, peer: usize, message: Message<P>)
        requires peer { peer < length self.old.ends.items }
        requires none { kept_at self.old.ends.items peer ≡ None }
        ensures kept { kept_at self.new.ends.items peer ≡ Some message }
        ensures taken { taken_at self.new.ends.items peer ≡ taken_at self.old.ends.items peer }
        ensures others { (other : ℕ) → other ≢ peer
            → slice_get self.new.ends.items other ≡ slice_get self.old.ends.items other }
        ensures count { length self.new.ends.items ≡ length self.old.ends.items }
        ensures lines { SameOrigins self.old.ends.items self.new.ends.items }
        ensures node { self.new.node ≡ self.old.node }
    {
        let inbox = &mut self.ends[peer];
        inbox.keep(message);
    }
}
