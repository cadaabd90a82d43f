//! What a seat at a lock's table knows, and the rule of the table.
use crate::Keyed;
use atomic_table::{Seat, Table, TableRule};
use std::alloc::Global;

/// Where a seat stands. Its ticket is the number of those drawn before, without an end; the lock's word has the low 32
/// bits. No value of it is made.
pub(crate) enum TicketState {
    /// It has no ticket.
    Idle,
    /// It waits with this ticket.
    Waits(u64),
    /// This ticket of it is served, and it has the value.
    Holds(u64),
}

/// What a seat knows: the key of its lock, and where it stands. No value of it is made.
pub(crate) struct LockView<K> {
    pub(crate) key: K,
    pub(crate) turn: TicketState,
}

/// The first word counts the tickets that were drawn and those that were served, and the one slot has the value until
/// the seat whose ticket is served takes it. The other words are bells, of which nothing is known.
pub(crate) struct TicketQueue;

impl<T: Keyed<K>, K> TableRule<Option<T>, LockView<K>, K> for TicketQueue {
    ghost use Rattle.lc_lock.specs.TicketQueue.{IsQueue, first_place};

    ghost holds = { IsQueue T.fits };

    ghost first = { first_place };
}

pub(crate) type QueueTable<T, K> = Table<Option<T>, LockView<K>, K, TicketQueue, Global>;

pub(crate) type QueueSeat<T, K> = Seat<Option<T>, LockView<K>>;

// The place of the word of the tickets in the table.
pub(crate) const WORD: usize = 0;

// The place of the slot.
pub(crate) const SLOT: usize = 0;
