//! A record that is read where its words stand.
ghost use Rattle.std.specs.Prelude.{◌≡◌, ◌+◌, ◌*◌, ◌<◌, ◌≤◌, ◌↔◌, ℕ, List, None, Some, Ok, length, drop, option_map};
ghost use Rattle.std.specs.Prelude.{slice_get, IfOk, OnErr, IfSome, IfNone, IsSome};
ghost use Rattle.std.specs.Option.{option_or};
ghost use Rattle.lc_record.specs.Newest.{byte_of};
ghost use Rattle.lc_record.specs.Codec.{BeginsWith, BeginsNoRecord};
ghost use Rattle.lc_record.specs.Part.{number_in, part_of};
ghost use Rattle.lc_record.specs.Record.{record_len, span_of, version_of, IsRecord};
ghost use Rattle.lc_record.specs.Reading.{Gives, range_of, ranges_at};
ghost use Rattle.lc_record.specs.Spans.{left_of, placed_spans};
ghost use Rattle.lc_record.specs.View.{byte_at};
ghost use Rattle.lc_record.specs.declared.record.Record.{Record as Spelled};

use crate::data::read_byte;
use crate::decoding::read_ranges_of;
use crate::fields::{length, node, range_count};
use crate::kept_locks::{kept_lock, kept_lock_count};
use crate::limits::{HEAD_WORDS, LOCK_WORDS};
use crate::parts::{Head, RangeWords, head_of, len_of, nth_range};
use crate::putting::put_ranges;
use crate::span::Span;
use crate::spans::Spans;
use crate::{Items, Lock, Part};
use std::alloc::{AllocError, Global};
use std::marker::Model;

/// The words of one record, which stay where they are: it is read without memory and without a copy, but for `part`.
#[derive(Drop)]
pub struct View<'a> {
    words: &'a [u64],
}

impl<'a> Model for View<'a> {
    ghost use Rattle.lc_record.specs.declared.record.Record.{Record as Spelled};

    ghost Value = { Spelled };

    ghost use Rattle.lc_record.specs.View.{view_record, IsView};

    ghost view = { view_record };

    ghost invariant = { IsView };
}

impl<'a> View<'a> {
    /// The record that begins at a place of these words, from 0; None exactly where none begins there, as after the
    /// last word. It takes no memory.
    pub fn at(words: &'a [u64], place: usize) -> Option<View<'a>>
        ensures found { IfSome result (λ r. BeginsWith (drop place words.now) r (record_len r)) }
        ensures none { IfNone result (BeginsNoRecord (drop place words.now)) }
    {
        let rest = words.get(place..)?;
        let len = len_of(rest)?;
        Some(View {
            words: &rest[..len],
        })
    }

    /// The record that is known to begin at a place of these words, from 0. Only its length is read, and it takes no
    /// memory.
    pub fn kept_at(words: &'a [u64], place: usize) -> View<'a>
        requires { (r : Spelled) × BeginsWith (drop place words.now) r (record_len r) }
        ensures { BeginsWith (drop place words.now) result (record_len result) }
    {
        let behind = &words[place..];
        let len = length(behind[0]) as usize;
        View {
            words: &behind[..len],
        }
    }

    /// How many words the record takes.
    pub fn len(&self) -> usize
        ensures { result ≡ record_len self.now }
    {
        self.words.len()
    }

    /// The words of the record, and no others.
    pub fn words(&self) -> &'a [u64]
        ensures { IsRecord self.now result.now }
    {
        self.words
    }

    /// The node that committed the record.
    pub fn node(&self) -> u16
        ensures { result ≡ self.now.node }
    {
        node(self.words[1])
    }

    /// How many locks the record has.
    pub fn lock_count(&self) -> usize
        ensures { result ≡ length self.now.locks }
    {
        kept_lock_count(self.words)
    }

    /// How many ranges the record has.
    pub fn range_count(&self) -> usize
        ensures { result ≡ length self.now.ranges }
    {
        range_count(self.words[0]) as usize
    }

    /// The lock at this index, from 0; None exactly where the record has none there.
    pub fn lock(&self, index: usize) -> Option<Lock>
        ensures { result ≡ slice_get self.now.locks index }
    {
        kept_lock(self.words, index)
    }

    /// Where the range at this index, from 0, stands; None exactly where the record has none there. It goes over the
    /// ranges before it.
    pub fn range(&self, index: usize) -> Option<Span>
        ensures { result ≡ option_map span_of (slice_get self.now.ranges index) }
    {
        let range = self.range_words(index)?;
        Some(range.span)
    }

    /// The ranges in their order, each with the place of its bytes. Each is read once, when it comes, and it takes no
    /// memory.
    pub fn spans(&self) -> Spans<'a>
        ensures { left_of result ≡ placed_spans self.now }
    {
        Spans::new(self.words, self.head(), self.front_words())
    }

    /// The byte at this place, from 0, of the range at this index; None exactly where there is none. It goes over the
    /// ranges before it.
    pub fn byte(&self, index: usize, place: usize) -> Option<u8>
        ensures { result ≡ byte_at self.now index place }
    {
        let range = self.range_words(index)?;
        read_byte(range.span.len as usize, range.data, place)
    }

    /// Puts the record's bytes of a segment over those that begin at an offset of it: where both have a byte, the
    /// record's stands. It goes over the ranges once, and takes no memory.
    pub fn put_on(&self, segment: u32, offset: usize, bytes: &mut [u8])
        ensures len { length bytes.new ≡ length bytes.old }
        ensures put { (k : ℕ) → k < length bytes.old →
            slice_get bytes.new k ≡ option_or (byte_of segment (offset + k) self.now.ranges) (slice_get bytes.old k) }
    {
        put_ranges(self.head(), self.ranges(), segment, offset, bytes);
    }

    /// A copy of the record's part that is of this segment; None exactly where the record has no lock on it. It goes
    /// over the ranges once, and takes memory for that part alone. Idea: log-based coherency (Feeley et al., OSDI
    /// 1994).
    pub fn part(&self, alloc: Global, segment: u32) -> Result<Option<Part>, AllocError>
        ensures part { IfOk result (λ part. part ≡ part_of segment self.now) }
        ensures none { (result ≡ Ok None) ↔ (number_in segment self.now.locks ≡ None) }
        ensures memory { OnErr result (IsSome (number_in segment self.now.locks)) }
    {
        let Some(seq) = self.number_in(segment) else {
            return Ok(None);
        };
        let ranges = read_ranges_of(alloc, self.head(), self.ranges(), segment)?;
        Ok(Some(Part {
            segment,
            seq,
            ranges: Items::new(ranges),
        }))
    }

    /// The number of the record among those of this segment, if it has a lock on it.
    pub fn number_in(&self, segment: u32) -> Option<u64>
        ensures { result ≡ number_in segment self.now.locks }
    {
        for index in 0..self.lock_count() {
            let lock = self.lock(index)?;
            if lock.segment == segment {
                return Some(lock.seq);
            }
        }
        None
    }

    fn range_words(&self, index: usize) -> Option<RangeWords<'a>>
        ensures read { Gives (λ x. range_of x.span x.data.now) result (slice_get self.now.ranges index) }
        ensures short { IfSome result (λ x. x.span.len ≤ 262144) }
        ensures whole { IfSome result (λ x. x.span.len ≤ 8 * length x.data.now) }
    {
        nth_range(self.head(), index, self.ranges())
    }

    // What the first two words say.
    fn head(&self) -> Head
        ensures version { result.version ≡ version_of self.now.ranges }
        ensures locks { result.locks ≡ length self.now.locks }
        ensures ranges { result.ranges ≡ length self.now.ranges }
    {
        let (head, _) = head_of(self.words).unwrap();
        head
    }

    // How many words stand before the ranges.
    fn front_words(&self) -> usize
        ensures { result ≡ 2 + 2 * length self.now.locks }
    {
        HEAD_WORDS + LOCK_WORDS * self.head().locks as usize
    }

    // The words of the ranges, and all after them.
    fn ranges(&self) -> &'a [u64]
        ensures { (rest : List ℕ) × (ranges_at (version_of self.now.ranges) (length self.now.ranges) result.now
            ≡ Some (self.now.ranges, rest)) }
    {
        &self.words[self.front_words()..]
    }
}
