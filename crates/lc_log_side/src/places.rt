//! Where the records of a list of words stand.
ghost use Rattle.std.specs.Prelude.{◌≤◌, length, take};
ghost use Rattle.lc_stage.specs.Staging.{AreRecords};
ghost use Rattle.lc_log_side.specs.Among.{AreInFront};

use lc_record::length;

/// How many records stand in front of a place, at which one ends. It takes no memory.
pub(crate) fn count_in_front(words: &[u64], place: usize) -> usize
    requires within { place ≤ length words.now }
    requires records { AreRecords (take place words.now) }
    ensures { AreInFront words.now place result }
{
    let mut at = 0;
    let mut count = 0;
    while at < place {
        at += length(words[at]) as usize;
        count += 1;
    }
    count
}
