//! A committer reads its records back.
ghost use Rattle.std.specs.Prelude.{◌≡◌, ◌≤◌, ◌<◌, ℕ, List, [], length, IfOk, IfErr, OnOk, OnErr, vec_capacity};
ghost use Rattle.lc_log_side.specs.Among.{IsAmong};
ghost use Rattle.lc_log_side.specs.Receipts.{HasReceipt};
ghost use Rattle.lc_segments.specs.declared.node_fault.NodeFault.TheVariants.{NoMemory};
ghost use Rattle.lc_committer.specs.Records.{ReadsIn};

use crate::Committer;
use crate::committer::take_out;
use lc_disk::Area;
use lc_node::{Confirmed, LogSide, NodeFault};
use lc_stage::Receipt;
use std::alloc::AllocError;
use std::sync::Wait;

impl<'a, D: Area + Drop> Committer<'a, D> {
    /// Copies the words of the record of a receipt that it has into this list, in place of what stands there: `Here`
    /// names its index, and the words are those that were committed. Where a reset has taken the record away, `Earlier`
    /// names the round of the log, and the list is as before. It waits for the lock of the log, and takes memory
    /// before, where the list has room for fewer words.
    ///
    /// # Errors
    ///
    /// `NoMemory` alone: the list has what it had.
    pub fn read_record<R: Wait>(
        &mut self,
        rt: &R,
        receipt: Receipt,
        words: &mut Vec<u64>,
    ) -> Result<Confirmed, NodeFault>
        requires received { HasReceipt self.old.view receipt }
        ensures same { self.new ≡ self.old }
        ensures reads { IfOk result (λ found.
            ReadsIn self.old.node self.old.view receipt words.old.items found words.new.items) }
        ensures refused { IfErr result (λ fault. (fault ≡ NoMemory) × (words.new.items ≡ words.old.items)
            × (vec_capacity words.old < receipt.words)) }
    {
        let Ok(()) = make_room(words, receipt.words() as usize) else {
            return Err(NodeFault::NoMemory);
        };
        let seat = take_out(self.node, &mut self.seat);
        let lock = self.node.log_lock();
        let (mut log, loan) = lock.lock(rt);
        let (seat, confirmed) = self.node.confirm(seat, &mut log, receipt);
        match confirmed {
            Confirmed::Here(_) => copy_record(&log, receipt, words),
            Confirmed::Earlier { .. } => {}
        }
        lock.unlock(log, loan);
        self.seat = Some(seat);
        Ok(confirmed)
    }
}

// The list has what it had, and room for so many words in their place.
fn make_room(words: &mut Vec<u64>, count: usize) -> Result<(), AllocError>
    ensures same { words.new.items ≡ words.old.items }
    ensures room { OnOk result (count ≤ vec_capacity words.new) }
    ensures refused { OnErr result (vec_capacity words.old < count) }
{
    words.reserve(count.saturating_sub(words.len()))
}

// Copies the stable record that stands at the receipt's place, in place of what stands in the list, which has room for
// it.
fn copy_record<D: Area + Drop>(log: &LogSide<D>, receipt: Receipt, words: &mut Vec<u64>)
    requires room { receipt.words ≤ vec_capacity words.old }
    ensures { (index : ℕ) (record_words : List ℕ) → IsAmong log.now.stable index receipt.place record_words
        → receipt.words ≡ length record_words → words.new.items ≡ record_words }
{
    words.clear();
    if let Some(found) = log.stable_at(receipt.place() as usize) {
        append(words, found, receipt.words() as usize);
    }
}

// Adds these words where they are so many, for which the list, which is empty, has room.
fn append(words: &mut Vec<u64>, more: &[u64], count: usize)
    requires empty { words.old.items ≡ [] }
    requires room { count ≤ vec_capacity words.old }
    ensures { length more.now ≡ count → words.new.items ≡ more.now }
{
    if more.len() != count {
        return;
    }
    for index in 0..more.len() {
        words.push_reserved(more[index]);
    }
}
