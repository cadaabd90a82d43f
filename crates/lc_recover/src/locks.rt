//! The numbers of a log's records.
ghost use Rattle.std.specs.Prelude.{◌≡◌, ◌+◌, ◌≤◌, ◌++◌, length, vec_len, vec_capacity};
ghost use Rattle.lc_log.specs.InPlace.{records_in};
ghost use Rattle.lc_recover.specs.Locks.{numbers_in, numbers_of};

use crate::lock_number::LockNumber;
use crate::record_cursor::records_of;
use lc_record::View;

/// How many words each number of a record takes at least.
pub(crate) const LOCK_WORDS: usize = 2;

/// Puts the numbers of a log's records after others. There is room for them.
pub(crate) fn add_log(numbers: &mut Vec<LockNumber>, words: &[u64])
    requires { vec_len numbers.old + length (numbers_in (records_in words.now)) ≤ vec_capacity numbers.old }
    ensures { numbers.new.items ≡ numbers.old.items ++ numbers_in (records_in words.now) }
{
    for (_, record) in records_of(words) {
        add_record(numbers, &record);
    }
}

fn add_record(numbers: &mut Vec<LockNumber>, view: &View<'_>)
    requires { vec_len numbers.old + length (numbers_of view.now) ≤ vec_capacity numbers.old }
    ensures items { numbers.new.items ≡ numbers.old.items ++ numbers_of view.now }
    ensures capacity { vec_capacity numbers.new ≡ vec_capacity numbers.old }
{
    for index in 0..view.lock_count() {
        if let Some(lock) = view.lock(index) {
            numbers.push_reserved(LockNumber {
                segment: lock.segment,
                seq: lock.seq,
            });
        }
    }
}
