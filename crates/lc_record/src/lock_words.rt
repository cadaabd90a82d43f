//! Locks that are read where they stand.
ghost use Rattle.std.specs.Prelude.{◌≡◌, ◌==◌, length};
ghost use Rattle.std.specs.Iterator.{YieldsFirst, item_count};
ghost use Rattle.lc_record.specs.LockWords.{locks_in};
ghost use Rattle.lc_record.specs.Reading.{Gives, ascend, lock_at, locks_at};

use crate::Lock;
use crate::canonical::is_lock;
use crate::limits::LOCK_WORDS;

/// The locks in these words that are still to come: no word is copied.
#[derive(Clone, Copy)]
pub struct LockWords<'a> {
    words: &'a [u64],
}

/// The lock at the front, and the words after it.
#[tactic(auto, unfolding(crate::specs::Reading::lock_at))]
pub fn lock_of(words: &[u64]) -> Option<(Lock, &[u64])>
    ensures { Gives (λ x. (x.0, x.1.now)) result (lock_at words.now) }
{
    let [segment, seq, rest @ ..] = words else {
        return None;
    };
    if *segment > u64::from(u32::MAX) {
        return None;
    }
    let lock = Lock {
        segment: *segment as u32,
        seq: *seq,
    };
    Some((lock, rest))
}

/// So many locks at the front, and the words after them.
pub fn locks_of(count: u16, words: &[u64]) -> Option<(LockWords<'_>, &[u64])>
    ensures { Gives (λ x. (locks_in x.0.words.now, x.1.now)) result (locks_at count words.now) }
{
    let mut rest = words;
    for _ in 0..count {
        let (_, behind) = lock_of(rest)?;
        rest = behind;
    }
    let (locks, behind) = words.split_at(LOCK_WORDS * count as usize);
    Some((LockWords { words: locks }, behind))
}

impl<'a> LockWords<'a> {
    /// Whether none is left.
    pub fn is_empty(self) -> bool
        ensures { result ≡ (length (locks_in self.entry.words.now) == 0) }
    {
        lock_of(self.words).is_none()
    }

    /// Whether these are locks that a record may have, ascending by segment.
    pub fn ascend(self) -> bool
        ensures { result ≡ ascend 0 (locks_in self.entry.words.now) }
    {
        let mut before = 0;
        for lock in self {
            if !is_lock(&lock) || lock.segment <= before {
                return false;
            }
            before = lock.segment;
        }
        true
    }
}

impl<'a> Iterator for LockWords<'a> {
    type Item = Lock;

    ghost next_gives = { YieldsFirst (λ locks. locks_in locks.words.now) };

    ghost remaining = { item_count (λ locks. locks_in locks.words.now) };

    fn next(&mut self) -> Option<Lock> {
        let (lock, rest) = lock_of(self.words)?;
        self.words = rest;
        Some(lock)
    }
}
