//! The beginning of a transaction.
ghost use Rattle.std.specs.Prelude.{◌≡◌, ◌↔◌, ◌<◌, ◌⊎◌, ℕ, List, [], ◌∷◌, length, None, IfOk, OnOk, OnErr, IfErr};
ghost use Rattle.std.specs.Prelude.{IsTrue};
ghost use Rattle.lc_tx.specs.Images.{IsHere, IsLockable, IsFirstTaken, IsSame};
ghost use Rattle.lc_tx.specs.Locking.{CanLock};
ghost use Rattle.lc_tx.specs.Fault.{is_of_begin};
ghost use Rattle.lc_tx.specs.Tx.{Begins, IsIdle, IsSetOf, RunsOn, none_of};

use crate::lock_mode::LockMode;
use crate::locking::{add_all, add_beside, first_shut, lesser, lock, lock_free};
use crate::{Images, Tx, TxFault};
use std::alloc::{AllocError, Global};

// Why a segment that cannot be locked is not.
fn fault_of<I: Images>(images: &I, segment: u32) -> TxFault
    ensures not_here { I.number_of images.now segment ≡ None → result ≡ TxFault.NotHere segment }
    ensures busy { IsHere I.Images images.now segment → result ≡ TxFault.Busy segment }
{
    match images.number(segment) {
        None => TxFault::NotHere { segment },
        Some(_) => TxFault::Busy { segment },
    }
}

impl Tx {
    /// Begins a transaction of a thread, numbered below 16 as a store has 16 threads of a node at most. It locks
    /// `segments` for writing and `reading` for reading, each in any order and with repeats; one of both for writing. A
    /// segment is written by one transaction alone, or read by several. It locks all of them or none.
    ///
    /// # Errors
    ///
    /// `NotHere` or `Busy` of the least segment of both lists that cannot be locked, and `NoMemory`, only for more than
    /// 16 segments of one kind. The images are then as before.
    pub fn begin<I: Images>(
        alloc: Global,
        images: &mut I,
        thread: u16,
        segments: &[u32],
        reading: &[u32],
    ) -> Result<Self, TxFault>
        requires { thread < 16 }
        ensures begins { IfOk result (λ tx. Begins I.Images thread segments.now reading.now images.old images.new tx) }
        ensures runs { IfOk result (λ tx. RunsOn I.Images images.new tx) }
        ensures free { IfOk result (λ tx. (s : ℕ) → IsLockable I.Images images.old segments.now reading.now s) }
        ensures not_here { (s : ℕ) → (result ≡ Err (TxFault.NotHere s))
            ↔ (IsFirstTaken I.Images images.old segments.now reading.now s × (I.number_of images.old s ≡ None)) }
        ensures busy { (s : ℕ) → (result ≡ Err (TxFault.Busy s))
            ↔ (IsFirstTaken I.Images images.old segments.now reading.now s × IsHere I.Images images.old s) }

        // Memory is wanted only for more than 16 segments of one kind, where all can be locked.
        ensures no_memory { result ≡ Err TxFault.NoMemory
            → ((s : ℕ) → IsLockable I.Images images.old segments.now reading.now s)
            × (((set : List ℕ) × IsSetOf segments.now set × (16 < length set))
            ⊎ ((set : List ℕ) × IsSetOf (none_of segments.now reading.now) set × (16 < length set))) }

        ensures err { OnErr result (IsSame I.Images images.old images.new) }
        ensures faults { IfErr result (λ fault. IsTrue (is_of_begin fault)) }
    {
        let mut tx = Tx::idle(alloc);
        tx.begin_again(images, thread, segments, reading)?;
        Ok(tx)
    }

    /// Begins a transaction as `begin` does, in this one, which is idle, and in the memory that its lists have.
    ///
    /// # Errors
    ///
    /// Those of `begin`. It is idle then as before, of the same thread, and the images are as before.
    pub fn begin_again<I: Images>(
        &mut self,
        images: &mut I,
        thread: u16,
        segments: &[u32],
        reading: &[u32],
    ) -> Result<(), TxFault>
        requires idle { IsIdle self.old }
        requires thread { thread < 16 }
        ensures begins { OnOk result (Begins I.Images thread segments.now reading.now images.old images.new self.new) }
        ensures runs { OnOk result (RunsOn I.Images images.new self.new) }
        ensures free { OnOk result ((s : ℕ) → IsLockable I.Images images.old segments.now reading.now s) }
        ensures not_here { (s : ℕ) → (result ≡ Err (TxFault.NotHere s))
            ↔ (IsFirstTaken I.Images images.old segments.now reading.now s × (I.number_of images.old s ≡ None)) }
        ensures busy { (s : ℕ) → (result ≡ Err (TxFault.Busy s))
            ↔ (IsFirstTaken I.Images images.old segments.now reading.now s × IsHere I.Images images.old s) }

        // Memory is wanted only for more than 16 segments of one kind, where all can be locked.
        ensures no_memory { result ≡ Err TxFault.NoMemory
            → ((s : ℕ) → IsLockable I.Images images.old segments.now reading.now s)
            × (((set : List ℕ) × IsSetOf segments.now set × (16 < length set))
            ⊎ ((set : List ℕ) × IsSetOf (none_of segments.now reading.now) set × (16 < length set))) }

        ensures err { OnErr result (IsSame I.Images images.old images.new) }
        ensures idle { OnErr result (IsIdle self.new) }
        ensures thread { OnErr result (self.new.thread ≡ self.old.thread) }
        ensures faults { IfErr result (λ fault. IsTrue (is_of_begin fault)) }
    {
        if let ([segment], []) = (segments, reading) {
            return self.begin_one(images, thread, *segment);
        }
        let written = first_shut(images, segments, LockMode::Exclusive);
        let read = first_shut(images, reading, LockMode::Shared);
        if let Some(segment) = lesser(written, read) {
            return Err(fault_of(images, segment));
        }
        let Ok(()) = self.list(segments, reading) else {
            self.clear();
            return Err(TxFault::NoMemory);
        };
        self.thread = thread;
        lock(images, self.locked.as_slice(), thread, LockMode::Exclusive);
        lock(images, self.reading.as_slice(), thread, LockMode::Shared);
        Ok(())
    }

    // Begins one that writes a single segment and reads none.
    fn begin_one<I: Images>(
        &mut self,
        images: &mut I,
        thread: u16,
        segment: u32,
    ) -> Result<(), TxFault>
        requires idle { IsIdle self.old }
        ensures begins { OnOk result (Begins I.Images thread (segment ∷ []) [] images.old images.new self.new) }
        ensures can { OnOk result (CanLock I.Images LockMode.Exclusive images.old segment) }
        ensures cannot { OnErr result (CanLock I.Images LockMode.Exclusive images.old segment → ⊥) }
        ensures same { OnErr result (IsSame I.Images images.old images.new) }
        ensures idle { OnErr result (IsIdle self.new) }
        ensures thread { OnErr result (self.new.thread ≡ self.old.thread) }
        ensures not_here { IfErr result (λ fault. I.number_of images.old segment ≡ None
            → fault ≡ TxFault.NotHere segment) }
        ensures busy { IfErr result (λ fault. IsHere I.Images images.old segment → fault ≡ TxFault.Busy segment) }
    {
        lock_free(images, segment, thread)?;
        self.thread = thread;
        // There is room for 16 at least.
        let _room = self.locked.capacity();
        self.locked.push_reserved(segment);
        Ok(())
    }

    // Lists the segments that it is to lock, where none is listed. Without memory some may be.
    fn list(&mut self, segments: &[u32], reading: &[u32]) -> Result<(), AllocError>
        requires none_locked { self.old.locked.items ≡ [] }
        requires none_read { self.old.reading.items ≡ [] }
        ensures locked { OnOk result (IsSetOf segments.now self.new.locked.items) }
        ensures reading { OnOk result (IsSetOf (none_of segments.now reading.now) self.new.reading.items) }
        ensures set { self.new.set ≡ self.old.set }
        ensures undo { self.new.undo ≡ self.old.undo }
        ensures thread { self.new.thread ≡ self.old.thread }
        ensures memory { OnErr result (((set : List ℕ) × IsSetOf segments.now set × (16 < length set))
            ⊎ ((set : List ℕ) × IsSetOf (none_of segments.now reading.now) set × (16 < length set))) }
    {
        add_all(&mut self.locked, segments)?;
        add_beside(&mut self.reading, segments, reading)
    }
}
