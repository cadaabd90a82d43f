//! What a thread is doing, and the transaction that is kept for it.
ghost use Rattle.std.specs.Prelude.{◌≡◌, ◌↔◌, ◌<◌, ◌⊎◌, ℕ, List, None, length, IfErr, IsTrue, OnErr, OnOk};
ghost use Rattle.lc_range.specs.RangeSet.{IsCanonical};
ghost use Rattle.lc_tx.specs.Fault.{is_of_begin};
ghost use Rattle.lc_tx.specs.Images.{IsFirstTaken, IsHere, IsLockable, IsSame};
ghost use Rattle.lc_tx.specs.Tx.{IsSetOf, none_of};
ghost use Rattle.lc_desk.specs.Here.{the_images};
ghost use Rattle.lc_desk.specs.Seat.{Free, is_free, is_open, number_of, open_in, open_of, placed, set_of};
ghost use Rattle.lc_desk.specs.SeatCalls.{AbortsIn, BeginsIn, HoldsOn, IsOpenOn, ReleasesIn, SetsIn};

use crate::doing::Doing;
use crate::here::Here;
use lc_range::Range;
use lc_tx::{Tx, TxFault};
use std::alloc::Global;
use std::marker::Model;

/// A thread has at most one transaction that holds locks. One is kept here: while the thread has none it is idle, and
/// the next begins in it, in the memory that its lists have.
#[derive(Drop)]
pub struct Seat {
    tx: Tx,
    doing: Doing,
}

impl Model for Seat {
    ghost use Rattle.lc_desk.specs.Seat.{Seat as Sitting};
    ghost use Rattle.lc_desk.specs.Doing.{seat_of, Rests};

    ghost Value = { Sitting };

    ghost view = { λ s. seat_of s.doing s.tx };

    ghost invariant = { λ s. Rests s.doing s.tx };
}

impl Seat {
    /// A free one. It takes no memory.
    pub fn new(alloc: Global) -> Seat
        ensures { result ≡ Free }
    {
        Seat {
            tx: Tx::idle(alloc),
            doing: Doing::Nothing,
        }
    }

    /// Whether the thread has no transaction.
    pub(crate) fn is_free(&self) -> bool
        ensures { result ≡ is_free self.now }
    {
        matches!(self.doing, Doing::Nothing)
    }

    /// Whether the thread's transaction is open.
    pub(crate) fn is_open(&self) -> bool
        ensures { result ≡ is_open self.now }
    {
        matches!(self.doing, Doing::Open)
    }

    /// The open transaction.
    pub fn open(&self) -> Option<&Tx>
        ensures { open_in result ≡ open_of self.now }
    {
        match self.doing {
            Doing::Open => Some(&self.tx),
            _ => None,
        }
    }

    /// Which of the node's records since the last recovery the thread's reservation is, from 0.
    pub(crate) fn number(&self) -> Option<u64>
        ensures { result ≡ number_of self.now }
    {
        match self.doing {
            Doing::Reserved { number } => Some(number),
            _ => None,
        }
    }

    /// The ranges that the thread's transaction has set, ascending; none where it has none.
    pub(crate) fn ranges(&self) -> &[Range]
        ensures ranges { result.now ≡ set_of self.now }
        ensures canonical { IsCanonical (set_of self.now) }
    {
        self.tx.ranges()
    }

    /// Begins the thread's transaction; the thread is numbered below 16. It locks `segments` for writing and `reading`
    /// for reading, all of them or none, and takes memory only for more than 16 of one kind.
    ///
    /// # Errors
    ///
    /// Those of `Tx::begin`. The thread has no transaction then as before, and the images are as before.
    pub fn begin(
        &mut self,
        here: &mut Here,
        thread: u16,
        segments: &[u32],
        reading: &[u32],
    ) -> Result<(), TxFault>
        requires free { self.old ≡ Free }
        requires thread { thread < 16 }
        ensures begins { OnOk result (BeginsIn thread segments.now reading.now here.old here.new self.new) }
        ensures lockable { OnOk result ((s : ℕ) → IsLockable the_images here.old segments.now reading.now s) }
        ensures not_here { (s : ℕ) → (result ≡ Err (TxFault.NotHere s))
            ↔ (IsFirstTaken the_images here.old segments.now reading.now s × (the_images.number_of here.old s ≡ None)) }
        ensures busy { (s : ℕ) → (result ≡ Err (TxFault.Busy s))
            ↔ (IsFirstTaken the_images here.old segments.now reading.now s × IsHere the_images here.old s) }
        ensures no_memory { result ≡ Err TxFault.NoMemory
            → ((s : ℕ) → IsLockable the_images here.old segments.now reading.now s)
            × (((set : List ℕ) × IsSetOf segments.now set × (16 < length set))
            ⊎ ((set : List ℕ) × IsSetOf (none_of segments.now reading.now) set × (16 < length set))) }
        ensures err { OnErr result (IsSame the_images here.old here.new) }
        ensures still { OnErr result (self.new ≡ Free) }
        ensures faults { IfErr result (λ fault. IsTrue (is_of_begin fault)) }
    {
        self.tx.begin_again(here, thread, segments, reading)?;
        self.doing = Doing::Open;
        Ok(())
    }

    /// Sets `len` bytes of a segment from `offset` on, in the open transaction.
    ///
    /// # Errors
    ///
    /// Those of `Tx::set_range`. The transaction is then as before.
    pub fn set_range(
        &mut self,
        here: &mut Here,
        segment: u32,
        offset: u32,
        len: u32,
    ) -> Result<(), TxFault>
        requires { IsOpenOn here.old self.old }
        ensures { SetsIn segment offset len here.old self.old result here.new self.new }
    {
        self.tx.set_range(here, segment, offset, len)
    }

    /// An open transaction has its place in the log: it is this one of the node's records. Where none is open nothing
    /// changes. It takes no memory.
    pub(crate) fn reserve(&mut self, number: u64)
        ensures { self.new ≡ placed number self.old }
    {
        if matches!(self.doing, Doing::Open) {
            self.doing = Doing::Reserved { number };
        }
    }

    /// Drops the open transaction: what it locked for writing has the bytes that it had, and its locks are free. It
    /// takes no memory.
    pub fn abort(&mut self, here: &mut Here)
        requires { IsOpenOn here.old self.old }
        ensures free { self.new ≡ Free }
        ensures aborts { AbortsIn here.old self.old here.new }
    {
        self.tx.abort_in_place(here);
        self.doing = Doing::Nothing;
    }

    /// The transaction, which is open or reserved, is over with its writes: its locks are free. It takes no memory.
    pub(crate) fn release(&mut self, here: &mut Here)
        requires { HoldsOn here.old self.old }
        ensures free { self.new ≡ Free }
        ensures releases { ReleasesIn here.old self.old here.new }
    {
        self.tx.release_in_place(here);
        self.doing = Doing::Nothing;
    }
}
