//! How a token is sent to a peer.
ghost use Rattle.std.specs.Prelude.{◌≡◌, ◌≢◌, ◌<◌, ◌++◌, ◌∷◌, [], ℕ, length, slice_get, OnOk, OnErr, IfErr};
ghost use Rattle.lc_line.specs.Ends.{message_of, IsFull, WasFull};
ghost use Rattle.lc_cluster.specs.Messages.{records_in};
ghost use Rattle.lc_cluster.specs.Spread.{sent_to, line_of, IsCutOff, SameLines};
ghost use Rattle.lc_cluster.specs.Tokens.{sent_at, IsCutOffAt, WasFullAt, SameRecords};
ghost use Rattle.lc_node.specs.declared.message.Message.TheVariants.{Token};

use crate::peer_end::PeerEnd;
use crate::send_ends::SendEnds;
use lc_line::Refused;
use lc_node::Message;
use std::sync::Wait;

impl<P: Drop> SendEnds<P> {
    /// Sends a peer, by its place among the peers, a token after what it was sent, or hands the token back: Full only
    /// where its line had no room at one moment of the call. It waits for no message to be taken, and takes no memory.
    /// Log-based coherency: Feeley et al., OSDI 1994; the token in the line of the records is this project's own.
    pub(crate) fn send_token<R: Wait>(
        &mut self,
        rt: &R,
        peer: usize,
        token: P,
    ) -> Result<(), Refused<P>>
        requires peer { peer < length self.old.ends.items }
        ensures sent { OnOk result (sent_at self.new.ends.items peer
            ≡ sent_at self.old.ends.items peer ++ Token token ∷ []) }
        ensures none { OnErr result (sent_at self.new.ends.items peer ≡ sent_at self.old.ends.items peer) }
        ensures back { IfErr result (λ refused. message_of refused ≡ token) }
        ensures full { IfErr result (λ refused. IsFull refused → WasFullAt self.old.ends.items peer) }
        ensures cut_off { OnErr result (IsCutOffAt self.new.ends.items peer) }
        ensures others { (other : ℕ) → other ≢ peer
            → slice_get self.new.ends.items other ≡ slice_get self.old.ends.items other }
        ensures records { SameRecords self.old.ends.items self.new.ends.items }
        ensures lines { SameLines self.old.ends.items self.new.ends.items }
        ensures count { length self.new.ends.items ≡ length self.old.ends.items }
    {
        let peer = &mut self.ends[peer];
        peer.send_token(rt, token)
    }
}

impl<P: Drop> PeerEnd<P> {
    /// Sends a token after what was sent, or hands it back: Full only where the line had no room at one moment of the
    /// call. It waits for no message to be taken, and takes no memory.
    pub(crate) fn send_token<R: Wait>(&mut self, rt: &R, token: P) -> Result<(), Refused<P>>
        ensures sent { OnOk result (sent_to self.new ≡ sent_to self.old ++ Token token ∷ []) }
        ensures none { OnErr result (sent_to self.new ≡ sent_to self.old) }
        ensures back { IfErr result (λ refused. message_of refused ≡ token) }
        ensures full { IfErr result (λ refused. IsFull refused → WasFull self.old.end) }
        ensures cut_off { OnErr result (IsCutOff self.new) }
        ensures records { records_in (sent_to self.new) ≡ records_in (sent_to self.old) }
        ensures line { line_of self.new ≡ line_of self.old }
    {
        match self.end.send(rt, Message::Token(token)) {
            Ok(()) => Ok(()),
            Err(Refused::Full(Message::Token(token))) => Err(Refused::Full(token)),
            Err(Refused::Gone(Message::Token(token))) => {
                self.gone = true;
                Err(Refused::Gone(token))
            }
            Err(_) => unreachable!(),
        }
    }
}
