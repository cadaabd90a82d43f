//! The ranges of a record, one after another.
ghost use Rattle.std.specs.Prelude.{◌≡◌};
ghost use Rattle.std.specs.Iterator.{YieldsFirst, item_count};
ghost use Rattle.lc_record.specs.Spans.{left_of, spans_in};

use crate::data::data_len;
use crate::parts::{Head, place_of};
use crate::{GrammarVersion, PlacedSpan};

/// The ranges of a record that are still to come, each with its place.
#[derive(Drop)]
pub struct Spans<'a> {
    words: &'a [u64],
    version: GrammarVersion,
    place: usize,
    left: u16,
}

impl<'a> Spans<'a> {
    /// Those of a record of these words, which says this of itself, from a place on.
    pub(crate) fn new(words: &'a [u64], head: Head, place: usize) -> Self
        ensures { left_of result ≡ spans_in head.version words.now place head.ranges }
    {
        Spans {
            words,
            version: head.version,
            place,
            left: head.ranges,
        }
    }
}

impl<'a> Iterator for Spans<'a> {
    type Item = PlacedSpan;

    ghost next_gives = { YieldsFirst left_of };

    ghost remaining = { item_count left_of };

    fn next(&mut self) -> Option<PlacedSpan> {
        if self.left == 0 {
            return None;
        }
        let rest = self.words.get(self.place..)?;
        let (span, _) = place_of(self.version, rest)?;
        let place = self.place + self.version.place_words();
        self.place = place + data_len(span.len as usize);
        self.left -= 1;
        Some(PlacedSpan { span, place })
    }
}
