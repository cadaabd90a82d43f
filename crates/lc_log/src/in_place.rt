//! The places of a log's records.
ghost use Rattle.std.specs.Prelude.{◌≡◌, ℕ, List};
ghost use Rattle.std.specs.Iterator.{YieldsFirst, item_count};
ghost use Rattle.lc_record.specs.declared.record.Record.{Record};
ghost use Rattle.lc_log.specs.LogText.{IsLogText};
ghost use Rattle.lc_log.specs.InPlace.{left_of, spans_from};

use lc_record::View;

/// The records of a log's words that are still to come, each as its place, in words from the log's front, and how many
/// words it takes.
#[derive(Drop)]
pub struct RecordPlaces<'a> {
    words: &'a [u64],
    place: usize,
}

/// The places of the records of a log's words, one after another, up to the first place where none begins. It is safe
/// on any words: a rest that begins no record ends it. It takes no memory.
pub fn walk_in_place(words: &[u64]) -> RecordPlaces<'_>
    ensures { (records : List Record) → IsLogText words.now records → left_of result ≡ spans_from 0 records }
{
    RecordPlaces { words, place: 0 }
}

impl<'a> Iterator for RecordPlaces<'a> {
    type Item = (usize, usize);

    ghost next_gives = { YieldsFirst left_of };

    ghost remaining = { item_count left_of };

    fn next(&mut self) -> Option<(usize, usize)> {
        let place = self.place;
        let len = View::at(self.words, place)?.len();
        self.place += len;
        Some((place, len))
    }
}
