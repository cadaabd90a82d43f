//! The line from a node to a peer, behind the lock of the node's sending ends.
ghost use Rattle.std.specs.Prelude.{◌≡◌, ◌<◌, length};
ghost use Rattle.lc_line.specs.Ends.{message_of};
ghost use Rattle.lc_lock.specs.Loans.{key_of};
ghost use Rattle.lc_cluster.specs.Giving.{CutsOff, SendsToken};

use crate::send_ends::SendEnds;
use crate::wiring::NodeEnds;
use lc_disk::Area;
use lc_line::Refused;
use lc_lock::TicketLock;
use lc_node::TokenLine;
use lc_segments::Travelling;
use std::sync::Wait;

/// The line on which a node sends a peer tokens: the lock of its sending ends, and the peer's place among them.
#[derive(Drop)]
pub(crate) struct LineToPeer<'a, D: Area + Drop> {
    to: &'a TicketLock<SendEnds<Travelling<D>>, NodeEnds<Travelling<D>>>,
    place: usize,
    ghost there: { place < length (key_of to.now).to.ends.items },
}

impl<'a, D: Area + Drop> LineToPeer<'a, D> {
    /// Makes the line to the peer at this place.
    pub(crate) fn new(
        to: &'a TicketLock<SendEnds<Travelling<D>>, NodeEnds<Travelling<D>>>,
        place: usize,
    ) -> LineToPeer<'a, D>
        requires { place < length (key_of to.now).to.ends.items }
        ensures lock { result.to.now ≡ to.now }
        ensures place { result.place ≡ place }
    {
        LineToPeer { to, place }
    }
}

impl<D: Area + Drop> TokenLine<Travelling<D>> for LineToPeer<'_, D> {
    ghost sent = { λ line journey. SendsToken (key_of line.to.now).to.ends.items line.place journey };

    ghost refused = { λ line. CutsOff (key_of line.to.now).to.ends.items line.place };

    fn send<R: Wait>(&self, rt: &R, token: Travelling<D>) -> Result<(), Travelling<D>> {
        let (mut ends, loan) = self.to.lock(rt);
        let sent = ends.send_token(rt, self.place, token);
        self.to.unlock(ends, loan);
        match sent {
            Ok(()) => Ok(()),
            Err(refused) => Err(message_in(refused)),
        }
    }
}

// Takes the message out that was refused.
fn message_in<T>(refused: Refused<T>) -> T
    ensures { result ≡ message_of refused }
{
    match refused {
        Refused::Full(message) | Refused::Gone(message) => message,
    }
}
