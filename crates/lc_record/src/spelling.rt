//! The words of a record while they are written.
ghost use Rattle.std.specs.Prelude.{◌≡◌, ◌+◌, ◌*◌, ◌^◌, ◌<◌, ◌≤◌, [], ◌∷◌, ◌++◌, length, vec_len, vec_capacity, IfOk};
ghost use Rattle.std.specs.Prelude.{OnErr};
ghost use Rattle.lc_record.specs.GrammarVersion.{place_words};
ghost use Rattle.lc_record.specs.Layout.{data_len, first_word, second_word, layout_len};
ghost use Rattle.lc_record.specs.Record.{lock_words, range_words, span_words};

use crate::data::{push, push_data};
use crate::fields::{
    LENGTH_PLACE, LOCK_COUNT_PLACE, OFFSET_PLACE, RANGE_COUNT_PLACE, VERSION_PLACE,
};
use crate::limits::GATE_OPEN;
use crate::span::Span;
use crate::{GrammarVersion, Layout, Lock};
use std::alloc::{AllocError, Global};
use std::marker::Model;

/// The words of a record, written from the front: `new` or `in_memory_of`, each lock, each range, `finish`. Only the
/// first of these takes memory, for all of them.
#[derive(Drop)]
pub struct Spelling {
    words: Vec<u64>,
    version: GrammarVersion,
    len: usize,
}

impl Model for Spelling {
    ghost use Rattle.lc_record.specs.SpellingView.{SpellingView};

    ghost Value = { SpellingView };

    ghost use Rattle.lc_record.specs.Spelling.{spelling_view, IsSpelling};

    ghost view = { spelling_view };

    ghost invariant = { IsSpelling };
}

impl Spelling {
    /// The first two words of a record of this node, with room for all of its words, which are 4096 at most. It takes
    /// the memory for all of them at once.
    pub fn new(alloc: Global, node: u16, layout: &Layout) -> Result<Spelling, AllocError>
        requires { layout_len layout.now ≤ 4096 }
        ensures { IfOk result (λ s. s ≡ record {
          words = first_word layout.now.version layout.now.ranges (layout_len layout.now)
              ∷ second_word node layout.now.locks ∷ [];
          version = layout.now.version;
          len = layout_len layout.now;
        }) }
    {
        Spelling::in_memory_of(Vec::new(alloc), node, layout)
    }

    /// The first two words of a record of this node, in the memory of this list, whose own words go. It takes memory
    /// only where the list has no room for all words of the record, which are 4096 at most, and then for all of them at
    /// once.
    pub fn in_memory_of(
        mut words: Vec<u64>,
        node: u16,
        layout: &Layout,
    ) -> Result<Spelling, AllocError>
        requires { layout_len layout.now ≤ 4096 }
        ensures begun { IfOk result (λ s. s ≡ record {
          words = first_word layout.now.version layout.now.ranges (layout_len layout.now)
              ∷ second_word node layout.now.locks ∷ [];
          version = layout.now.version;
          len = layout_len layout.now;
        }) }
        ensures memory { OnErr result (vec_capacity words < layout_len layout.now) }
    {
        let len = layout.words();
        words.clear();
        words.reserve(len)?;
        push(
            &mut words,
            first_word(layout.version, layout.ranges as u64, len as u64),
        );
        push(&mut words, second_word(node, layout.locks as u64));
        Ok(Spelling {
            words,
            version: layout.version,
            len,
        })
    }

    /// Adds a lock.
    pub fn add_lock(&mut self, lock: Lock)
        requires { length self.old.words + 2 ≤ self.old.len }
        ensures { self.new ≡ record self.old { words = self.old.words ++ lock_words lock } }
    {
        push(&mut self.words, u64::from(lock.segment));
        push(&mut self.words, lock.seq);
    }

    /// Adds a range of these bytes.
    pub fn add_range(&mut self, segment: u32, offset: u32, bytes: &[u8])
        requires { length self.old.words + place_words self.old.version + data_len (length bytes.now) ≤ self.old.len }
        ensures { self.new ≡ record self.old {
          words = self.old.words ++ range_words self.old.version
              (record { segment = segment; offset = offset; bytes = bytes.now });
        } }
    {
        let span = Span {
            segment,
            offset,
            len: bytes.len() as u64,
        };
        push_span(&mut self.words, self.version, span);
        push_data(&mut self.words, bytes);
    }

    /// All words, the last of which is their number.
    pub fn finish(self) -> Vec<u64>
        requires { length self.words < self.len }
        ensures { result.items ≡ self.words ++ self.len ∷ [] }
    {
        let Spelling { mut words, len, .. } = self;
        push(&mut words, len as u64);
        words
    }
}

// Adds the words of a range before its bytes.
fn push_span(words: &mut Vec<u64>, version: GrammarVersion, span: Span)
    requires { vec_len words.old + place_words version ≤ vec_capacity words.old }
    ensures items { words.new.items ≡ words.old.items ++ span_words version span }
    ensures len { vec_len words.new ≡ vec_len words.old + place_words version }
    ensures room { vec_capacity words.old ≤ vec_capacity words.new }
{
    let segment = u64::from(span.segment);
    let offset = u64::from(span.offset);
    match version {
        GrammarVersion::First => push(words, segment + (offset << OFFSET_PLACE)),
        GrammarVersion::Second => {
            push(words, segment);
            push(words, offset);
        }
    }
    push(words, span.len);
}

fn first_word(version: GrammarVersion, ranges: u64, len: u64) -> u64
    requires few { ranges < 2 ^ 16 }
    requires short { len < 2 ^ 32 }
    ensures { result ≡ first_word version ranges len }
{
    u64::from(GATE_OPEN)
        + (u64::from(version.number()) << VERSION_PLACE)
        + (ranges << RANGE_COUNT_PLACE)
        + (len << LENGTH_PLACE)
}

fn second_word(node: u16, locks: u64) -> u64
    requires { locks < 2 ^ 16 }
    ensures { result ≡ second_word node locks }
{
    u64::from(node) + (locks << LOCK_COUNT_PLACE)
}
