//! The lock.
ghost use Rattle.std.specs.Prelude.{◌≡◌};
ghost use Rattle.lc_lock.specs.declared.bells.TheConstants.{WORDS};

use crate::Keyed;
use crate::turn::QueueTable;

/// A lock for a value that fits a key. The value goes out by move and comes back by move, and between the two the lock
/// has none. The key is what contracts read of the lock (`key_of`), and takes no memory.
///
/// It hands over: those who wait get the value in the order of their tickets, so nobody passes one who has waited
/// longer, not even who gives it back and comes again. A waiting thread looks some times, more often where it is next,
/// and then sleeps. Who gives the value back wakes the next where that may sleep, with the few that share its bell, and
/// makes no system call where nobody sleeps there. That a ticket is ever served is not proved.
///
/// A ticket lock, with both counts in one word, and beside it words at which threads sleep, its bells; that its value
/// moves and fits a key is this project's own.
#[derive(Drop)]
pub struct TicketLock<T: Keyed<K>, K> {
    pub(crate) table: QueueTable<T, K>,
    ghost sized: { (table.shared.table_id.words ≡ WORDS) × (table.shared.table_id.slots ≡ 1) },
}
