//! A lock whose value comes later.
ghost use Rattle.std.specs.Prelude.{◌≡◌, IfOk};
ghost use Rattle.lc_lock.specs.Loans.{key_of, IsLoanOf};

use lc_lock::{Keyed, Loan, TicketLock};
use std::alloc::{AllocError, Global};

/// A lock without its value, which takes no memory when the value comes. It is never dropped: it ends in `fill` or in
/// `discard`.
pub struct Vacant<T: Keyed<K>, K> {
    pub(crate) lock: TicketLock<T, K>,
    loan: Loan<T, K>,
    ghost one_lock: { IsLoanOf lock loan },
}

impl<T: Keyed<K> + Drop, K> Vacant<T, K> {
    /// One under this key.
    pub fn new(alloc: Global, key: &K) -> Result<Vacant<T, K>, AllocError>
        ensures { IfOk result (λ made. key_of made.lock ≡ key.now) }
    {
        let (lock, loan) = TicketLock::vacant(alloc, key)?;
        Ok(Vacant { lock, loan })
    }

    /// The lock with its value. Nobody can wait at it yet, so nobody is woken.
    pub fn fill(self, value: T) -> TicketLock<T, K>
        requires { T.fits (key_of self.lock) value }
        ensures { key_of result ≡ key_of self.lock }
    {
        let Vacant { lock, loan } = self;
        lock.unlock(value, loan);
        lock
    }

    /// The value never comes.
    pub fn discard(self) {
        let Vacant { lock, loan } = self;
        lock.end(loan);
    }
}
