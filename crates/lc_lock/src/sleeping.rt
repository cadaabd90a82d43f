//! How a thread sleeps until a bell rings, and how a bell is rung.
//!
//! Who sleeps sets the bit of its bell first and looks at the tickets then. Who rings serves the ticket first and looks
//! at the bell then. So either the one sees that its ticket is served, or the other sees the bit.
ghost use Rattle.std.specs.Prelude.{◌≡◌, ◌%◌, IsTrue, IsFalse};
ghost use Rattle.lc_lock.specs.TicketQueue.{IsServed, IsWaiting};
ghost use Rattle.lc_lock.specs.Bells.{IsAwaited, IsBell};
ghost use Rattle.lc_lock.specs.Loans.{key_of};

use crate::bells::{RING, SLEEPER, bell_of, heard_at, is_awaited};
use crate::plays::{Listen, Ring};
use crate::turn::QueueSeat;
use crate::{Keyed, TicketLock};
use std::sync::Wait;

impl<T: Keyed<K>, K> TicketLock<T, K> {
    // Sleeps until the bell of the seat's ticket rings, or for no reason less long. Where the ticket is served before
    // that it takes the slot, and answers that it has.
    pub(crate) fn sleep<R: Wait>(&self, rt: &R, seat: &mut QueueSeat<T, K>, ticket: u32) -> bool
        requires own { seat.old.table_id ≡ self.now.table.shared.table_id }
        requires waits { IsWaiting (key_of self.now) ticket seat.old.me }
        ensures own { seat.new.table_id ≡ self.now.table.shared.table_id }
        ensures served { IsTrue result → IsServed T.fits (key_of self.now) ticket seat.new.me }
        ensures waits { IsFalse result → IsWaiting (key_of self.now) ticket seat.new.me }
    {
        let bell = bell_of(ticket);
        let heard = self.listen(seat, bell);
        if self.look(seat, ticket).is_none() {
            return true;
        }
        self.table.shared.park(rt, bell, heard);
        false
    }

    // Sets the bit of a bell, and answers the low bits that the bell has from then on, until it rings.
    fn listen(&self, seat: &mut QueueSeat<T, K>, bell: usize) -> u32
        requires own { seat.old.table_id ≡ self.now.table.shared.table_id }
        requires bell { IsBell bell }
        ensures own { seat.new.table_id ≡ self.now.table.shared.table_id }
        ensures seat { seat.new.me ≡ seat.old.me }
        ensures heard { IsAwaited result }
    {
        heard_at(self.table.shared.fetch_or::<Listen>(seat, bell, SLEEPER))
    }

    // Wakes those who sleep at a bell. Where nobody does it makes no system call.
    pub(crate) fn ring(&self, seat: &mut QueueSeat<T, K>, bell: usize)
        requires own { seat.old.table_id ≡ self.now.table.shared.table_id }
        requires bell { IsBell bell }
        ensures own { seat.new.table_id ≡ self.now.table.shared.table_id }
        ensures seat { seat.new.me ≡ seat.old.me }
    {
        let shared = &self.table.shared;
        if is_awaited(shared.peek(bell)) {
            shared.fetch_add::<Ring>(seat, bell, RING);
            shared.wake_all(bell);
        }
    }
}
