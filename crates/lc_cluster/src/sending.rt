//! How published records are sent to a peer.
ghost use Rattle.std.specs.Prelude.{◌≡◌, ◌+◌, ◌^◌, ◌<◌, ◌++◌, ◌∷◌, [], false, length, MatchBool};
ghost use Rattle.lc_line.specs.Ends.{sent_on};
ghost use Rattle.lc_cluster.specs.Messages.{record_message};
ghost use Rattle.lc_cluster.specs.Spread.{sent_to, line_of, count_of, IsCutOff};

use crate::peer_end::PeerEnd;
use lc_line::{Refused, SendEnd};
use lc_node::Message;
use std::sync::Wait;

impl<P: Drop> PeerEnd<P> {
    /// The end to a peer to which nothing was sent.
    pub fn new(end: SendEnd<Message<P>>) -> PeerEnd<P>
        requires { sent_on end ≡ [] }
        ensures { result.end ≡ end }
    {
        PeerEnd {
            end,
            count: 0,
            place: 0,
            gone: false,
        }
    }

    // Sends a record as the next, or drops it where it is refused: false, the peer is cut off.
    pub(crate) fn send_record<R: Wait>(&mut self, rt: &R, words: Vec<u64>) -> bool
        requires some { 0 < length words.items }
        requires within { self.old.place + length words.items < 2 ^ 64 }
        ensures sent { MatchBool result (sent_to self.new
            ≡ sent_to self.old ++ record_message (count_of self.old + 1) words ∷ [])
            (sent_to self.new ≡ sent_to self.old) }
        ensures cut_off { result ≡ false → IsCutOff self.new }
        ensures line { line_of self.new ≡ line_of self.old }
    {
        let number = self.count + 1;
        let behind = self.place + words.len();
        match self.end.send(rt, Message::Record { number, words }) {
            Ok(()) => {
                self.count = number;
                self.place = behind;
                true
            }
            Err(Refused::Full(_)) => false,
            Err(Refused::Gone(_)) => {
                self.gone = true;
                false
            }
        }
    }
}
