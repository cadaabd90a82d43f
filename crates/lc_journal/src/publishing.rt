//! What peers find of a node's records.
ghost use Rattle.std.specs.Prelude.{◌≡◌, length};
ghost use Rattle.lc_journal.specs.Published.{Finds, LaysFound};

use crate::journal::Journal;
use lc_disk::Area;
use lc_record::View;
use lc_tx::Image;

/// What a peer that asks for a record by its number, from 1, finds.
#[derive(Drop)]
pub enum Published<'a> {
    /// The number is 0, or above that of what is acknowledged.
    Unknown,
    /// No peer wants the record any more.
    Trimmed,
    Record(View<'a>),
}

impl<D: Area + Drop> Journal<D> {
    /// The record of this number, from 1. It takes no memory, and copies no word.
    pub fn published(&self, number: u64) -> Published<'_>
        ensures { Finds D.Area self.now number result }
    {
        if number == 0 || number > self.acked {
            return Published::Unknown;
        }
        if number <= self.trimmed {
            return Published::Trimmed;
        }
        match View::at(self.records.words(number - 1), 0) {
            Some(view) => Published::Record(view),
            None => Published::Unknown,
        }
    }

    /// Lays the bytes that the record of this number, from 1, has for a segment over those of an image; none where a
    /// peer finds no record. It takes no memory, and copies no word.
    pub fn put_on(&self, number: u64, segment: u32, image: &mut Image)
        ensures lays { LaysFound D.Area self.now number segment image.old.bytes.items image.new.bytes.items }
        ensures len { length image.new.bytes.items ≡ length image.old.bytes.items }
        ensures holders { image.new.holders ≡ image.old.holders }
    {
        let Published::Record(view) = self.published(number) else {
            return;
        };
        image.put_from(segment, &view);
    }
}
