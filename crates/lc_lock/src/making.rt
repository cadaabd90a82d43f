//! New locks.
ghost use Rattle.std.specs.Prelude.{◌≡◌, IfOk, IfErr};
ghost use Rattle.lc_lock.specs.Loans.{key_of, IsLoanOf};

use crate::bells::first_words;
use crate::plays::Begin;
use crate::turn::{QueueSeat, QueueTable, WORD};
use crate::{Keyed, Loan, TicketLock};
use atomic_table::Table;
use std::alloc::{AllocError, Global};

impl<T: Keyed<K>, K> TicketLock<T, K> {
    /// A lock whose maker holds it, for a value that comes later, by `unlock`: until then whoever locks it waits. All
    /// the memory that the lock will ever ask for is asked for here, and it fails only where there is none.
    pub fn vacant(alloc: Global, key: &K) -> Result<(TicketLock<T, K>, Loan<T, K>), AllocError>
        ensures key { IfOk result (λ made. key_of made.0 ≡ key.now) }
        ensures loan { IfOk result (λ made. IsLoanOf made.0 made.1) }
    {
        let (table, mut seat): (QueueTable<T, K>, QueueSeat<T, K>) = Table::vacant(
            alloc,
            &first_words(),
            1,
            key,
        )?;
        table.shared.load::<Begin>(&mut seat, WORD);
        Ok((TicketLock { table }, Loan { seat, ticket: 0 }))
    }

    /// A lock with its value, at which nobody can wait yet, so nobody is woken. Where there is no memory, which alone it
    /// may lack, the value comes back.
    pub fn new(alloc: Global, value: T, key: &K) -> Result<TicketLock<T, K>, T>
        requires fits { T.fits key.now value }
        ensures key { IfOk result (λ lock. key_of lock ≡ key.now) }
        ensures back { IfErr result (λ given. given ≡ value) }
    {
        let Ok((lock, loan)) = TicketLock::vacant(alloc, key) else {
            return Err(value);
        };
        lock.unlock(value, loan);
        Ok(lock)
    }
}

impl<T: Keyed<K> + Drop, K> TicketLock<T, K> {
    /// Ends a lock whose value is out, which then comes back no more: nobody can wait for it, since the lock is owned.
    pub fn end(self, loan: Loan<T, K>)
        requires { IsLoanOf self loan }
    {
        let Loan {
            seat: _seat,
            ticket: _ticket,
        } = loan;
    }
}
