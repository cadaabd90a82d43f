//! What tells that a lock's value is out.
ghost use Rattle.std.specs.Prelude.{◌≡◌, ◌%◌, ◌^◌};
ghost use Rattle.lc_lock.specs.TicketQueue.{holding, ticket_of};

use crate::turn::QueueSeat;

/// The right and the duty to give a lock a value back. It ends in `TicketLock::unlock`, or with the lock in
/// `TicketLock::end`: it is never dropped, so a program in which a way past both is left does not compile. Two of one
/// lock are never out at a time.
pub struct Loan<T, K> {
    pub(crate) seat: QueueSeat<T, K>,
    pub(crate) ticket: u32,
    ghost holds: { seat ≡ holding seat },
    ghost at_ticket: { ticket ≡ ticket_of seat.me.0.turn % 2 ^ 32 },
}
