//! The records that a log has made stable since it was opened, read one after another.
ghost use Rattle.std.specs.Prelude.{◌≡◌, ◌+◌, ◌^◌, ◌<◌, ◌≤◌, ◌++◌, ℕ, List, Some, length, drop, option_map, slice_get};
ghost use Rattle.std.specs.Prelude.{IfSome};
ghost use Rattle.lc_stage.specs.Staging.{AreRecords, IsOneRecord};
ghost use Rattle.lc_log_side.specs.Among.{IsAmong};
ghost use Rattle.lc_log_side.specs.Published.{published, records_of, IsWhole, IsStart};

use crate::log_side::LogSide;
use lc_disk::Area;
use lc_record::length;

impl<D: Area + Drop> LogSide<D> {
    /// The words of the published record that begins after so many words of the published records, those of the rounds
    /// that have ended first. Of the places where one may begin it is None after the last, and in front of what is
    /// kept. A record begins after no word, and then after the words of each record. Who counts them on goes over the
    /// records in their order, in the time of those that it reads, also where others are published or the log is reset
    /// in between. At a place where no record begins it gives some words that are published, or None: which, no clause
    /// says. It takes no memory. Log-based coherency: Feeley et al., OSDI 1994; that a log keeps its records' words
    /// over its resets is this project's own.
    pub fn record_at(&self, place: usize) -> Option<&[u64]>
        ensures whole { IsWhole self.now }
        ensures found { (count : ℕ) → self.now.gone ≤ place → IsStart (published self.now) count place
            → option_map (λ words. words.now) result ≡ slice_get (published self.now) count }
        ensures next { (count : ℕ) → IsStart (published self.now) count place
            → IfSome result (λ words. IsStart (published self.now) (count + 1) (place + length words.now)) }
        ensures kept { IfSome result (λ _. self.now.gone ≤ place) }
        ensures some { IfSome result (λ words. 0 < length words.now) }
        ensures within { IfSome result (λ words. place + length words.now < 2 ^ 64) }
    {
        let ended = self.ended.as_slice();
        if (place as u64) < self.ended.gone() {
            return None;
        }
        let place = (place as u64 - self.ended.gone()) as usize;
        if place < ended.len() {
            return first_behind(ended, place);
        }
        first_behind(self.stable.as_slice(), place - ended.len())
    }

    /// The words of the stable record that stands at this place of the log's round, as a receipt names it. Where none
    /// begins there it gives some words that are stable, or None: which, no clause says. It takes no memory.
    pub fn stable_at(&self, place: usize) -> Option<&[u64]>
        ensures { (index : ℕ) (record_words : List ℕ) → IsAmong self.now.stable index place record_words
            → option_map (λ words. words.now) result ≡ Some record_words }
    {
        first_behind(self.stable.as_slice(), place)
    }

    /// How many records were published since the log was opened. One load.
    pub fn published(&self) -> u64
        ensures { result ≡ length (published self.now) }
    {
        self.count
    }
}

// The words from a place on that are as many as the first of them tells; None where they are not there.
fn first_behind(words: &[u64], place: usize) -> Option<&[u64]>
    ensures found { place ≤ length words.now → AreRecords (drop place words.now)
        → option_map (λ words. words.now) result ≡ slice_get (records_of (drop place words.now)) 0 }
    ensures one { (record_words behind : List ℕ) → drop place words.now ≡ record_words ++ behind
        → IsOneRecord record_words → option_map (λ words. words.now) result ≡ Some record_words }
    ensures some { IfSome result (λ first. 0 < length first.now) }
    ensures within { IfSome result (λ first. place + length first.now ≤ length words.now) }
{
    if place >= words.len() {
        return None;
    }
    let (_, behind) = words.split_at(place);
    let count = length(behind[0]) as usize;
    if count == 0 || count > behind.len() {
        return None;
    }
    let (first, _) = behind.split_at(count);
    Some(first)
}
