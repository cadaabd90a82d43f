//! The bytes of one page: the ranges that are newer than it are put on it, in the order of their numbers.
ghost use Rattle.std.specs.Prelude.{◌≡◌, ℕ, ◌*◌, ◌+◌, ◌<◌, [], List, All, length, take, drop, slice_get};
ghost use Rattle.std.specs.Prelude.{slice_index_or};
ghost use Rattle.std.specs.Option.{option_or};
ghost use Rattle.lc_record.specs.Newest.{byte_from};
ghost use Rattle.lc_record.specs.Words.{bytes_of};
ghost use Rattle.lc_record.specs.declared.record.RangeData.{RangeData};
ghost use Rattle.lc_recover.specs.StoreContents.{AreAscending};
ghost use Rattle.lc_recover.specs.Page.{IsOf, AreAt, AreOfPage, byte_with, IsFirstPage};

use crate::redo_range::RedoRange;
use lc_record::{Items, PAGE, put_words};

/// The changes at the front that are of the first one's page; none where there are no changes.
pub(crate) fn first_page(changes: &[RedoRange]) -> &[RedoRange]
    ensures { IsFirstPage changes.now result.now }
{
    let [first, ..] = changes else {
        return changes;
    };
    for (count, change) in changes.iter().enumerate() {
        if change.segment != first.segment || change.page != first.page {
            return &changes[..count];
        }
    }
    changes
}

/// The changes of this page; none where it has none.
pub(crate) fn changes_of(changes: &[RedoRange], segment: u32, page: u32) -> &[RedoRange]
    ensures { AreAscending changes.now → AreOfPage changes.now segment page result.now }
{
    for (place, change) in changes.iter().enumerate() {
        if change.segment == segment && change.page == page {
            return first_page(&changes[place..]);
        }
    }
    &changes[..0]
}

/// Puts the ranges of these changes on the bytes of their page, one after another.
pub(crate) fn put_changes(logs: &[Items<u64>], changes: &[RedoRange], bytes: &mut [u8])
    requires { length bytes.old ≡ 256 }
    ensures len { length bytes.new ≡ 256 }
    ensures put { (ranges : List RangeData) (segment page : ℕ) → AreAt logs.now changes.now ranges
        → All (IsOf segment page) changes.now
        → (offset : ℕ) → offset < 256 → slice_get bytes.new offset ≡ byte_with segment page ranges bytes.old offset }
{
    for change in changes {
        put_change(logs, change, bytes);
    }
}

// A change at whose place no words stand puts nothing.
fn put_change(logs: &[Items<u64>], change: &RedoRange, bytes: &mut [u8])
    requires { length bytes.old ≡ 256 }
    ensures len { length bytes.new ≡ 256 }
    ensures put { (offset : ℕ) → offset < 256 → slice_get bytes.new offset ≡ option_or
        (byte_from change.now.offset
        (take change.now.len (bytes_of
        (drop change.now.words (drop change.now.place (slice_index_or logs.now change.now.log [])))))
        (change.now.page * 256 + offset))
        (slice_get bytes.old offset) }
{
    let Some(log) = logs.get(change.log) else {
        return;
    };
    let words = behind(behind(log.as_slice(), change.place), change.words);
    let front = change.page as usize * PAGE as usize;
    put_words(
        words,
        change.offset as usize,
        change.len as usize,
        front,
        bytes,
    );
}

// The words after so many; none where there are not so many.
fn behind(words: &[u64], place: usize) -> &[u64]
    ensures { result.now ≡ drop place words.now }
{
    &words[place.min(words.len())..]
}
