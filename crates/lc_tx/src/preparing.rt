//! The end of a transaction in the memory of the one before.
ghost use Rattle.std.specs.Prelude.{◌≡◌, ◌↔◌, ◌⊎◌, ◌<◌, ◌≤◌, ℕ, [], true, false, length, vec_capacity, Ok, Err, IfErr};
ghost use Rattle.std.specs.Prelude.{OnErr, IsTrue};
ghost use Rattle.lc_record.specs.Record.{record_len, IsRecord};
ghost use Rattle.lc_tx.specs.Images.{IsSame};
ghost use Rattle.lc_tx.specs.Prepared.{AreSmall, AreUnspent, IsFirstSpent, IsLoggable, final_record};
ghost use Rattle.lc_range.specs.RangeSet.{IsCanonical};
ghost use Rattle.lc_tx.specs.Fault.{is_of_end};
ghost use Rattle.lc_tx.specs.Tx.{RunsOn};

use crate::{Images, Tx, TxFault};
use std::alloc::Global;
use std::mem;

impl Tx {
    /// Makes the record that `prepare_end` makes, in the memory of a list whose own words go, such as those of a
    /// record before. True: the list has the record's words. False: nothing is set, and the list is as it was. Where it
    /// has no room for all words of the record, other memory is taken for all of them at once.
    ///
    /// # Errors
    ///
    /// Those of `prepare_end`, and `NoMemory` only where the list has no room for all words of the record. After each
    /// of them the list is as it was.
    pub fn prepare_end_in<I: Images>(
        &self,
        alloc: Global,
        words: &mut Vec<u64>,
        images: &mut I,
        node: u16,
    ) -> Result<bool, TxFault>
        requires runs { RunsOn I.Images images.old self.now }
        requires small { AreSmall I.Images images.old self.now.locked.items }
        requires node { node ≤ 7 }
        ensures images { IsSame I.Images images.old images.new }
        ensures runs { RunsOn I.Images images.new self.now }
        ensures empty { (result ≡ Ok false) ↔ (self.now.set ≡ []) }
        ensures spent { (s : ℕ) → (result ≡ Err (TxFault.SequenceSpent s))
            ↔ IsFirstSpent (final_record I.Images images.old self.now node).locks s }
        ensures too_long { (n : ℕ) → (result ≡ Err (TxFault.TooLong n))
            ↔ (AreUnspent (final_record I.Images images.old self.now node).locks
            × (4096 < record_len (final_record I.Images images.old self.now node))
            × (n ≡ record_len (final_record I.Images images.old self.now node))) }
        ensures record { result ≡ Ok true → IsRecord (final_record I.Images images.old self.now node) words.new.items }
        ensures len { result ≡ Ok true
            → length words.new.items ≡ record_len (final_record I.Images images.old self.now node) }

        // Where there is no record, the list has what it had.
        ensures kept { result ≡ Ok false → words.new ≡ words.old }
        ensures refused { OnErr result (words.new ≡ words.old) }

        // Where there is a layout, there is a record, or no memory; elsewhere no memory is wanted.
        ensures ready { IsLoggable I.Images images.old self.now node
            → (result ≡ Ok true) ⊎ (result ≡ Err TxFault.NoMemory) }
        ensures no_memory { result ≡ Err TxFault.NoMemory → IsLoggable I.Images images.old self.now node
            × (vec_capacity words.old < record_len (final_record I.Images images.old self.now node)) }

        ensures faults { IfErr result (λ fault. IsTrue (is_of_end fault)) }
        ensures canonical { IsCanonical self.now.set }
    {
        let Some(layout) = self.layout(images)? else {
            return Ok(false);
        };
        let memory = take_memory(alloc, words, layout.words());
        let Ok(spelled) = self.spell_end(memory, images, node, &layout) else {
            return Err(TxFault::NoMemory);
        };
        *words = spelled.into_vec();
        Ok(true)
    }
}

// Takes the memory of a list that has room for this many words. Of another list it takes nothing, and what it gives has
// no memory yet.
fn take_memory(alloc: Global, words: &mut Vec<u64>, needed: usize) -> Vec<u64>
    ensures taken { needed ≤ vec_capacity words.old → result ≡ words.old }
    ensures left { needed ≤ vec_capacity words.old → words.new.items ≡ [] }
    ensures none { vec_capacity words.old < needed → vec_capacity result ≡ 0 }
    ensures kept { vec_capacity words.old < needed → words.new ≡ words.old }
{
    if words.capacity() < needed {
        return Vec::new(alloc);
    }
    mem::replace(words, Vec::new(alloc))
}
