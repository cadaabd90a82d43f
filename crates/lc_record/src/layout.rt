//! How a record is laid out, before its bytes are known.
ghost use Rattle.std.specs.Prelude.{◌≡◌, ◌+◌, ◌-◌, ◌^◌, min};
ghost use Rattle.lc_record.specs.GrammarVersion.{version_to};
ghost use Rattle.lc_record.specs.Layout.{capped, no_layout, with_lock, with_range, layout_len};

use crate::GrammarVersion;
use crate::data::data_len;
use crate::limits::{LOCK_WORDS, MAX_WORDS, RECORD_WORDS};

/// What the length and the first two words of a record rest on: how many locks and ranges it has, how many words the
/// bytes of its ranges take, and the version of the grammar. A number that is too great for a word stays at the
/// greatest.
#[derive(Clone, Copy)]
pub struct Layout {
    pub(crate) locks: usize,
    pub(crate) ranges: usize,
    pub(crate) data_words: usize,
    pub(crate) version: GrammarVersion,
}

impl Layout {
    /// No lock and no range yet.
    pub fn new() -> Layout
        ensures { result ≡ no_layout }
    {
        Layout {
            locks: 0,
            ranges: 0,
            data_words: 0,
            version: GrammarVersion::First,
        }
    }

    /// One lock, and one range of so many bytes at this offset of its segment.
    pub fn of_one(offset: u32, len: usize) -> Layout
        ensures { result ≡ with_range offset len (with_lock no_layout) }
    {
        Layout {
            locks: 1,
            ranges: 1,
            data_words: data_len(len),
            version: version_of(offset, len),
        }
    }

    /// One lock more.
    pub fn add_lock(&mut self)
        ensures { self.new ≡ capped (with_lock self.old) }
    {
        *self = self.with_lock();
    }

    /// One range more, of so many bytes at this offset of its segment.
    pub fn add_range(&mut self, offset: u32, len: usize)
        ensures { self.new ≡ capped (with_range offset len self.old) }
    {
        *self = self.with_range(offset, len);
    }

    /// How many words the record takes, or the greatest number where there are more.
    pub fn words(&self) -> usize
        ensures { result ≡ min (layout_len self.now) (2 ^ 64 - 1) }
    {
        // Small numbers need no look at the greatest.
        if self.locks <= MAX_WORDS && self.ranges <= MAX_WORDS && self.data_words <= MAX_WORDS {
            return RECORD_WORDS
                + LOCK_WORDS * self.locks
                + self.version.place_words() * self.ranges
                + self.data_words;
        }
        let places = self.ranges.saturating_mul(self.version.place_words());
        let locks = self.locks.saturating_mul(LOCK_WORDS);
        locks
            .saturating_add(places)
            .saturating_add(self.data_words)
            .saturating_add(RECORD_WORDS)
    }

    fn with_lock(self) -> Layout
        ensures { result ≡ capped (with_lock self) }
    {
        Layout {
            locks: self.locks.saturating_add(1),
            ..self
        }
    }

    fn with_range(self, offset: u32, len: usize) -> Layout
        ensures { result ≡ capped (with_range offset len self) }
    {
        Layout {
            ranges: self.ranges.saturating_add(1),
            data_words: self.data_words.saturating_add(data_len(len)),
            version: self.version.later(version_of(offset, len)),
            ..self
        }
    }
}

// The version of a range of so many bytes at this offset.
fn version_of(offset: u32, len: usize) -> GrammarVersion
    ensures { result ≡ version_to (offset + len) }
{
    GrammarVersion::ending_at(u64::from(offset).saturating_add(len as u64))
}
