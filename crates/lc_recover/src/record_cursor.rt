//! The records of a log's words, read where they stand.
ghost use Rattle.std.specs.Prelude.{◌≡◌};
ghost use Rattle.std.specs.Iterator.{YieldsFirst, item_count};
ghost use Rattle.lc_recover.specs.Reading.{left_of, placed_in};

use lc_record::View;

/// The records of a log's words that are still to come, each with its place, in words from the log's front.
#[derive(Drop)]
pub(crate) struct RecordCursor<'a> {
    words: &'a [u64],
    place: usize,
}

/// The records of a log's words, one after another, up to the first place where none begins. Each is read once, and
/// where it stands: it takes no memory.
pub(crate) fn records_of(words: &[u64]) -> RecordCursor<'_>
    ensures { left_of result ≡ placed_in words.now }
{
    RecordCursor { words, place: 0 }
}

impl<'a> Iterator for RecordCursor<'a> {
    type Item = (usize, View<'a>);

    ghost next_gives = { YieldsFirst left_of };

    ghost remaining = { item_count left_of };

    fn next(&mut self) -> Option<(usize, View<'a>)> {
        let place = self.place;
        let record = View::at(self.words, place)?;
        self.place += record.len();
        Some((place, record))
    }
}
