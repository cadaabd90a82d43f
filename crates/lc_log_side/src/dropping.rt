//! Which records nobody wants any more, and their end.
ghost use Rattle.std.specs.Prelude.{◌≡◌, ◌+◌, ◌-◌, ◌^◌, ◌<◌, ◌≤◌, ◌++◌, ℕ, List, length, slice_set, true, false, All};
ghost use Rattle.std.specs.Prelude.{IfSome, IsSome, MatchBool};
ghost use Rattle.std.specs.List.{list_all};
ghost use Rattle.lc_log.specs.LogText.{IsWhole, joined};
ghost use Rattle.lc_record.specs.Record.{IsRecord, spelling};
ghost use Rattle.lc_record.specs.declared.record.Record.{Record};
ghost use Rattle.lc_rest.specs.Merge.{counted_by, number_at};
ghost use Rattle.lc_log_side.specs.Trims.{Trims, is_due, is_due_lock};

use crate::Ended;
use lc_record::{Lock, kept_lock, kept_lock_count, length};

// The number of a segment.
fn number_at(numbers: &[u64], segment: u32) -> u64
    ensures { result ≡ number_at numbers.now segment }
{
    if segment == 0 {
        return 0;
    }
    numbers.get(segment as usize - 1).copied().unwrap_or(0)
}

// Whether a lock is the next of its segment, and all nodes have applied it.
fn is_due_lock(applied: &[u64], dropped: &[u64], lock: Lock) -> bool
    ensures { result ≡ is_due_lock applied.now dropped.now lock }
{
    lock.seq <= number_at(applied, lock.segment)
        && lock.seq > 0
        && lock.seq - 1 == number_at(dropped, lock.segment)
}

// Whether each lock of the record of these words is.
fn is_due(applied: &[u64], dropped: &[u64], words: &[u64]) -> bool
    ensures { (r : Record) → IsRecord r words.now → result ≡ is_due applied.now dropped.now r }
{
    for index in 0..kept_lock_count(words) {
        let Some(lock) = kept_lock(words, index) else {
            return false;
        };
        if !is_due_lock(applied, dropped, lock) {
            return false;
        }
    }
    true
}

// The words that are as many as the first of them tells; None where they are not there.
fn first_of(words: &[u64]) -> Option<&[u64]>
    ensures found { (r : Record) (rest : List ℕ) → IsWhole r → words.now ≡ spelling r ++ rest → IsSome result }
    ensures first { IfSome result (λ first. (r : Record) (rest : List ℕ) → IsWhole r → words.now ≡ spelling r ++ rest
        → first.now ≡ spelling r) }
    ensures some { IfSome result (λ first. (0 < length first.now) × (length first.now ≤ length words.now)) }
{
    if words.is_empty() {
        return None;
    }
    let count = length(words[0]) as usize;
    if count == 0 || count > words.len() {
        return None;
    }
    let (first, _) = words.split_at(count);
    Some(first)
}

// Counts the locks of the record of these words.
fn count(dropped: &mut [u64], words: &[u64])
    ensures { (r : Record) → IsRecord r words.now → dropped.new ≡ counted_by r.locks dropped.old }
{
    for index in 0..kept_lock_count(words) {
        if let Some(lock) = kept_lock(words, index) {
            set_number(dropped, lock);
        }
    }
}

// Sets the number of a segment, if it is one of these.
fn set_number(dropped: &mut [u64], lock: Lock)
    ensures { dropped.new ≡ slice_set dropped.old (lock.segment - 1) lock.seq }
{
    let place = lock.segment.saturating_sub(1) as usize;
    if place < dropped.len() {
        dropped[place] = lock.seq;
    }
}

impl Ended {
    // Drops the first record, if it is due.
    fn drop_first(&mut self, applied: &[u64], dropped: &mut [u64]) -> bool
        ensures dropped { (r : Record) (rest : List ℕ) → IsWhole r → self.old.words ≡ spelling r ++ rest
            → MatchBool result
            ((is_due applied.now dropped.old r ≡ true) × (self.new.words ≡ rest)
            × (dropped.new ≡ counted_by r.locks dropped.old))
            ((is_due applied.now dropped.old r ≡ false) × (self.new ≡ self.old) × (dropped.new ≡ dropped.old)) }
        ensures stays { result ≡ false → (self.new ≡ self.old) × (dropped.new ≡ dropped.old) }
        ensures fewer { result ≡ true → (length self.new.words < length self.old.words)
            × (self.new.gone + length self.new.words ≡ self.old.gone + length self.old.words) }
        ensures room { self.old.room ≤ self.new.room }
        ensures small { self.new.gone + length self.new.words < 2 ^ 64 }
    {
        let len = match first_of(self.as_slice()) {
            Some(first) if is_due(applied, dropped, first) => {
                count(dropped, first);
                first.len()
            }
            _ => return false,
        };
        self.forget(len);
        true
    }

    /// Drops the records in front, as long as the next is due: all nodes have applied each of its locks, and on each of
    /// its segments it has the number after those that were dropped, of whatever node. The dropped ones are counted
    /// then. The segments stand from segment 1 on. Answers how many went. It takes no memory, and over many calls the
    /// time of what is dropped.
    pub(crate) fn trim(&mut self, applied: &[u64], dropped: &mut [u64]) -> u64
        ensures trimmed { (rs : List Record) → All IsWhole rs → self.old.words ≡ joined rs
            → Trims applied.now dropped.old rs result self.new.words dropped.new }
        ensures place { self.new.gone + length self.new.words ≡ self.old.gone + length self.old.words }
        ensures room { self.old.room ≤ self.new.room }
    {
        let mut count = 0;
        while self.drop_first(applied, dropped) {
            count += 1;
        }
        count
    }
}
