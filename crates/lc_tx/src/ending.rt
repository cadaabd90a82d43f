//! The end of a transaction.
ghost use Rattle.std.specs.Prelude.{◌≡◌, ◌↔◌, ◌<◌, ◌≤◌, ℕ, [], ◌∷◌, None, List, length, vec_capacity, IfOk, IfErr};
ghost use Rattle.std.specs.Prelude.{OnErr, IsTrue, MatchResult, Some};
ghost use Rattle.lc_record.specs.Record.{record_layout, record_len, IsRecord};
ghost use Rattle.lc_record.specs.declared.layout.Layout.{Layout as Laid};
ghost use Rattle.lc_tx.specs.Images.{AreReleased, AreRestored, IsSame};
ghost use Rattle.lc_tx.specs.Locking.{AreBack};
ghost use Rattle.lc_tx.specs.Prepared.{AreSmall, AreUnspent, IsFirstSpent, IsLoggable, IsRecordOf, final_record};
ghost use Rattle.lc_range.specs.RangeSet.{IsCanonical};
ghost use Rattle.lc_tx.specs.Fault.{is_of_end, is_of_needs};
ghost use Rattle.lc_tx.specs.Tx.{IsIdle, RunsOn};

use crate::recording::{first_spent, layout_of, spell};
use crate::{Holders, Images, Prepared, Tx, TxFault, locking};
use lc_record::{Items, Layout, MAX_WORDS};
use std::alloc::{AllocError, Global};

impl Tx {
    /// How the record of the transaction is laid out, in 4096 words at most and for each node alike, or None where
    /// nothing is set. It takes no memory, so that a caller looks for room in its log before `spell_end` takes some.
    ///
    /// # Errors
    ///
    /// `SequenceSpent` of the least segment that has used its last number and `TooLong`, looked at in this order.
    pub fn layout<I: Images>(&self, images: &I) -> Result<Option<Layout>, TxFault>
        requires runs { RunsOn I.Images images.now self.now }
        requires small { AreSmall I.Images images.now self.now.locked.items }

        // Whichever node logs it.
        ensures empty { (result ≡ Ok None) ↔ (self.now.set ≡ []) }
        ensures laid { (node : ℕ) (layout : Laid) → (result ≡ Ok (Some layout))
            ↔ (IsLoggable I.Images images.now self.now node
            × (layout ≡ record_layout (final_record I.Images images.now self.now node))) }
        ensures spent { (node s : ℕ) → (result ≡ Err (TxFault.SequenceSpent s))
            ↔ IsFirstSpent (final_record I.Images images.now self.now node).locks s }
        ensures too_long { (node words : ℕ) → (result ≡ Err (TxFault.TooLong words))
            ↔ (AreUnspent (final_record I.Images images.now self.now node).locks
            × (4096 < record_len (final_record I.Images images.now self.now node))
            × (words ≡ record_len (final_record I.Images images.now self.now node))) }

        ensures faults { IfErr result (λ fault. IsTrue (is_of_needs fault)) }
        ensures canonical { IsCanonical self.now.set }
    {
        let runs = self.set.ranges();
        if runs.is_empty() {
            return Ok(None);
        }
        if let Some(segment) = first_spent(images, runs) {
            return Err(TxFault::SequenceSpent { segment });
        }
        let layout = layout_of(runs);
        let words = layout.words();
        if words > MAX_WORDS {
            return Err(TxFault::TooLong {
                words: words as u32,
            });
        }
        Ok(Some(layout))
    }

    /// The record of the transaction, as a node is about to log it: the next number of each segment that has a set
    /// position, and the final bytes of all that was set. It is written straight from the images into memory that is
    /// taken at once. Idea: RVM's new values (Satyanarayanan et al., TOCS 1994).
    ///
    /// # Errors
    ///
    /// Those of `layout`, and `NoMemory`, only where there is a record of at most 4096 words.
    pub fn prepare_end<I: Images>(
        &self,
        alloc: Global,
        images: &mut I,
        node: u16,
    ) -> Result<Prepared, TxFault>
        requires runs { RunsOn I.Images images.old self.now }
        requires small { AreSmall I.Images images.old self.now.locked.items }
        requires node { node ≤ 7 }
        ensures images { IsSame I.Images images.old images.new }
        ensures runs { RunsOn I.Images images.new self.now }
        ensures empty { (result ≡ Ok Prepared.Empty) ↔ (self.now.set ≡ []) }
        ensures spent { (s : ℕ) → (result ≡ Err (TxFault.SequenceSpent s))
            ↔ IsFirstSpent (final_record I.Images images.old self.now node).locks s }
        ensures too_long { (words : ℕ) → (result ≡ Err (TxFault.TooLong words))
            ↔ (AreUnspent (final_record I.Images images.old self.now node).locks
            × (4096 < record_len (final_record I.Images images.old self.now node))
            × (words ≡ record_len (final_record I.Images images.old self.now node))) }
        ensures record { (words : List ℕ) → result ≡ Ok (Prepared.Record words)
            → IsRecord (final_record I.Images images.old self.now node) words }

        // Where there is a layout, there is a record that is laid out so, or no memory; elsewhere no memory is wanted.
        ensures ready { IsLoggable I.Images images.old self.now node
            → MatchResult result (IsRecordOf (final_record I.Images images.old self.now node)) (λ fault. fault
            ≡ TxFault.NoMemory) }
        ensures no_memory { result ≡ Err TxFault.NoMemory → IsLoggable I.Images images.old self.now node }

        ensures faults { IfErr result (λ fault. IsTrue (is_of_end fault)) }
        ensures canonical { IsCanonical self.now.set }
    {
        let mut words = Vec::new(alloc);
        if self.prepare_end_in(alloc, &mut words, images, node)? {
            Ok(Prepared::Record(Items::new(words)))
        } else {
            Ok(Prepared::Empty)
        }
    }

    /// The words of the record of the transaction, as a node, numbered up to 7, is about to log it. `layout` has told
    /// that it is laid out so: the next number of each segment that has a set position, and the final bytes of all that
    /// was set. They are written straight from the images into the memory of a list whose own words go, such as those
    /// of a record before. Idea: RVM's new values (Satyanarayanan et al., TOCS 1994).
    ///
    /// # Errors
    ///
    /// Where that memory has no room for all words of the record, and there is no other.
    pub fn spell_end<I: Images>(
        &self,
        memory: Vec<u64>,
        images: &mut I,
        node: u16,
        layout: &Layout,
    ) -> Result<Items<u64>, AllocError>
        requires runs { RunsOn I.Images images.old self.now }
        requires small { AreSmall I.Images images.old self.now.locked.items }
        requires node { node ≤ 7 }
        requires loggable { IsLoggable I.Images images.old self.now node }
        requires laid { layout.now ≡ record_layout (final_record I.Images images.old self.now node) }
        ensures record { IfOk result (λ words. IsRecord (final_record I.Images images.old self.now node) words) }
        ensures len { IfOk result (λ words. length words
            ≡ record_len (final_record I.Images images.old self.now node)) }
        ensures images { IsSame I.Images images.old images.new }
        ensures runs { RunsOn I.Images images.new self.now }
        ensures memory { OnErr result (vec_capacity memory
            < record_len (final_record I.Images images.old self.now node)) }
    {
        let runs = self.set.ranges();
        let words = spell(memory, images, runs, node, layout)?;
        Ok(Items::new(words))
    }

    // Gives back the bytes that what it locked for writing had.
    fn restore<I: Images>(&self, images: &mut I)
        requires { RunsOn I.Images images.old self.now }
        ensures { AreBack I.Images self.now.undo self.now.locked.items images.old images.new }
    {
        for segment in self.locked.as_slice() {
            let image = images.image(*segment);
            self.undo.restore(*segment, image.bytes.as_mut_slice());
        }
    }

    // Gives back the bytes that its only segment had, and the lock. The segment is looked up once.
    fn restore_one<I: Images>(&self, images: &mut I, segment: u32)
        requires runs { RunsOn I.Images images.old self.now }
        requires only { self.now.locked.items ≡ segment ∷ [] }
        requires none_read { self.now.reading.items ≡ [] }
        ensures { AreRestored I.Images self.now.undo self.now.thread self.now.locked.items self.now.reading.items
            images.old images.new }
    {
        let image = images.image(segment);
        self.undo.restore(segment, image.bytes.as_mut_slice());
        image.holders = Holders::Free;
    }

    // Gives back its locks.
    fn unlock<I: Images>(&self, images: &mut I)
        requires { RunsOn I.Images images.old self.now }
        ensures { AreReleased I.Images self.now.thread self.now.locked.items self.now.reading.items images.old
            images.new }
    {
        if let ([segment], []) = (self.locked(), self.reading()) {
            images.image(*segment).holders = Holders::Free;
            return;
        }
        locking::unlock(images, self.locked.as_slice(), self.thread);
        locking::unlock(images, self.reading.as_slice(), self.thread);
    }

    /// Ends the transaction without a commit: what it locked for writing has the bytes that it had, and is free; what
    /// it locked for reading has one reader less, and is free where it was the last. It takes no memory. Idea: RVM's
    /// restore mode (Satyanarayanan et al., TOCS 1994).
    pub fn abort<I: Images>(self, images: &mut I)
        requires runs { RunsOn I.Images images.old self }
        ensures { AreRestored I.Images self.undo self.thread self.locked.items self.reading.items images.old
            images.new }
    {
        self.restore(images);
        self.release(images);
    }

    /// Ends the transaction without a commit, as `abort` does. It is idle then, with its thread as it was and the
    /// memory of its lists kept for the next one.
    pub fn abort_in_place<I: Images>(&mut self, images: &mut I)
        requires runs { RunsOn I.Images images.old self.old }
        ensures restored { AreRestored I.Images self.old.undo self.old.thread self.old.locked.items
            self.old.reading.items
            images.old images.new }
        ensures idle { IsIdle self.new }
        ensures thread { self.new.thread ≡ self.old.thread }
    {
        if let ([segment], []) = (self.locked(), self.reading()) {
            self.restore_one(images, *segment);
            self.clear();
            return;
        }
        self.restore(images);
        self.release_in_place(images);
    }

    /// Ends the transaction with its writes: what it locked for writing is free; what it locked for reading has one
    /// reader less, and is free where it was the last. It takes no memory.
    pub fn release<I: Images>(self, images: &mut I)
        requires runs { RunsOn I.Images images.old self }
        ensures { AreReleased I.Images self.thread self.locked.items self.reading.items images.old images.new }
    {
        self.unlock(images);
    }

    /// Ends the transaction with its writes, as `release` does. It is idle then, with its thread as it was and the
    /// memory of its lists kept for the next one.
    pub fn release_in_place<I: Images>(&mut self, images: &mut I)
        requires runs { RunsOn I.Images images.old self.old }
        ensures released { AreReleased I.Images self.old.thread self.old.locked.items self.old.reading.items
            images.old images.new }
        ensures idle { IsIdle self.new }
        ensures thread { self.new.thread ≡ self.old.thread }
    {
        self.unlock(images);
        self.clear();
    }
}
