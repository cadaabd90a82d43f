//! The locks of words that are known to be a record's: they are not looked at again as a whole.
ghost use Rattle.std.specs.Prelude.{◌≡◌, ◌<◌, ◌^◌, length, slice_get};
ghost use Rattle.lc_record.specs.Record.{IsRecord};
ghost use Rattle.lc_record.specs.declared.record.Record.{Record as Spelled};

use crate::Lock;
use crate::fields::lock_count;
use crate::limits::{HEAD_WORDS, LOCK_WORDS};
use crate::lock_words::lock_of;

/// How many locks the record has of which these are all words, 65535 at most. Words that are no record's have any
/// number. It takes no memory.
pub fn kept_lock_count(words: &[u64]) -> usize
    ensures count { (r : Spelled) → IsRecord r words.now → result ≡ length r.locks }
    ensures few { result < 2 ^ 16 }
{
    let Some(second) = words.get(1) else {
        return 0;
    };
    lock_count(*second) as usize
}

/// The lock at this index, from 0, of the record of which these are all words; None exactly where it has none there. Of
/// words that are no record's it is any lock, or None. It takes no memory.
pub fn kept_lock(words: &[u64], index: usize) -> Option<Lock>
    ensures { (r : Spelled) → IsRecord r words.now → result ≡ slice_get r.locks index }
{
    if index >= kept_lock_count(words) {
        return None;
    }
    let rest = words.get(HEAD_WORDS + LOCK_WORDS * index..)?;
    let (lock, _) = lock_of(rest)?;
    Some(lock)
}
